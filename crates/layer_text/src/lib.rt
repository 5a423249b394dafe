//! The words of layers and of what can't be read of them, which several texts have in common.
#![tactic(auto)]

mod faults;
mod letters;

pub use faults::{put_layer_fault, put_named_fault};
pub use letters::put_letters;
