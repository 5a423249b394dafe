//! The files that the words of `wmbus` name, opened for a session or for steps.
#![tactic(auto)]

mod files;
mod nodes;
mod watched;

pub use files::{Opened, Receivers, StepsFiles, open_apart, open_steps_apart};
pub use nodes::Unopened;
pub use watched::WatchedSource;
