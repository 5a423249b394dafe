//! What the mains of all programs share: the words of the command line, the texts of a program's own that one word asks
//! for, the files that words name, and how a program ends and says so.
#![tactic(auto)]

mod ending;
mod opening;
mod own_texts;
mod streams;
mod words;

pub use ending::{Numbered, cannot_open, end};
pub use opening::{open_to_read, open_to_write};
pub use own_texts::{OwnText, own_text, tell};
pub use streams::taken_streams;
pub use words::{NoWords, command_words};
