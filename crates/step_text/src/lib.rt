//! The lines that tell a session step by step: one object of JSON a line.
#![tactic(auto)]

mod block;
mod causes;
mod counting;
mod escaping;
mod laws;
mod pieces;
mod said;
mod showing;
mod step;
mod stored;
mod unsaid;

pub use block::put_block_line;
pub use counting::put_counts_line;
pub use laws::{no_tick_is_due, reason_is_its_parts};
pub use said::{Said, said_of};
pub use step::{put_step_line, put_stranger_line};
pub use unsaid::{put_bad_line, put_unframed_line};
