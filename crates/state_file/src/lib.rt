//! The text of a state: what a session begins from, and what it leaves.
#![tactic(auto)]

mod bytes;
mod cause;
mod commands;
mod fault;
pub mod laws;
mod left;
mod line;
mod load;
mod meters;
mod parts;
mod reader;
mod readings;
mod showing;
mod state;
mod words;
mod writing;

pub use cause::{LineFault, StateCause};
pub use fault::{FileCause, StateFault};
pub use left::{LeftRoster, LeftState};
pub use line::read_line;
pub use load::{StateLoadFault, load_state};
pub use meters::Meters;
pub use reader::{STATE_MOST, is_end, is_head, read_state};
pub use showing::{show_known, show_left, show_state};
pub use state::State;
pub use words::{roster_word, state_word};
pub use writing::{put_block, put_block_as, write_state};
