//! Paper: what a text is put on, piece by piece; over a sink without memory, or in memory.
#![tactic(auto)]

mod in_memory;
mod labelled;
mod page;
mod pieces;
mod sink_paper;
mod whole;

pub use in_memory::written;
pub use labelled::{
    put_labelled, put_labelled_bytes, put_labelled_if, put_labelled_two, put_optional,
};
pub use pieces::{Paper, Printed, put_hex, put_number, put_signed, put_text};
pub use sink_paper::SinkPaper;
pub use whole::write;
