//! A session of one receiver, told step by step: of each of its lines what became of it, and at the end what is known of each meter that had a
//! step. No journal is kept, so that memory doesn't grow with the lines.
#![tactic(auto)]

mod beginning;
mod counting;
mod ending;
mod laws;
mod leaving;
mod running;
mod status;
mod telling;

pub use laws::{own_lines_alone, said_is_told};
pub use running::tell_steps;
pub use status::StepsStatus;
pub use telling::LINE_MAX;
