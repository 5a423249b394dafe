//! What an operator changes of a state between two sessions: its meters and keys by a roster, and its downlink counters.
#![tactic(auto)]

mod command_words;
mod commission;
pub mod laws;
mod loading;
mod merging;
mod message;
mod raising;
mod status;

pub use command_words::{are_merge_words, read_raise};
pub use loading::{load_merged, load_raised, write_next};
pub use merging::Merged;
pub use message::ChangeMessage;
pub use raising::Raised;
pub use status::ChangeStatus;
