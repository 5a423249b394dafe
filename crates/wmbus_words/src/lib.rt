//! What the words of the command `wmbus` ask for: a session or steps, or their first fault.
#![tactic(auto)]

mod asked;

pub use asked::{Asked, Plan, StepsPlan, WordsFault, asks_for, is_written, words};
