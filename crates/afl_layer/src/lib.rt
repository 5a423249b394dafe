//! The authentication and fragmentation layer.
#![tactic(auto)]

mod fields;
mod header;
mod scratch;
mod writing;

pub use header::{AFL_CI, Afl, AflFault, Auth, read_afl};
pub use scratch::{SCRATCH_MAX, Scratch};
pub use writing::write_afl;
