//! The extended link layer, which says when a meter listens.
#![tactic(auto)]

mod access;
mod extension;

pub use access::Access;
pub use extension::{Ell, EllFault, read_ell};
