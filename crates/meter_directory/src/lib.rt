//! The places of addresses in a list.
#![tactic(auto)]

mod directory;

pub use directory::Directory;
