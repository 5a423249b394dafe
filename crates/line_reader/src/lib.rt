//! The lines of a receiver: what it heard, and what its operator says.
#![tactic(auto)]

mod digits;
mod frame;
mod grammar;
mod held;
mod line;
mod lines;
mod next;
mod search;
mod text_reader;

pub use frame::{FRAME_MAX, FrameBytes};
pub use frame_formats::Format as LineFormat;
pub use grammar::{LINE_MAX, read_line};
pub use line::{BadLine, Line};
pub use lines::{BYTES_MAX, LINES_MAX, Lines};
pub use next::{Next, NextText, ReadFault};
pub use text_reader::TextReader;
