//! What is kept of strangers: the telegrams of meters that nobody commissioned.
#![tactic(auto)]

mod acting;
mod ring;
mod strangers;

pub use ring::RING_MAX;
pub use strangers::{Heard, Strangers};
