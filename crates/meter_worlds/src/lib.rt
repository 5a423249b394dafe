//! The slots of all commissioned meters, each found by its address, with their journals and without.
#![tactic(auto)]

pub mod laws;
mod passing_world;
mod places;
mod world;

pub use passing_world::{PassingMeter, PassingWorld};
pub use world::World;
