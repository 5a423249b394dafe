//! The transport header, which says how a message is secured.
#![tactic(auto)]

mod header;
mod tail;
mod writing;

pub use header::{Tpl, TplFault, read_tpl};
pub use writing::write_tpl;
