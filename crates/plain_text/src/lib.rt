//! What several texts of the collector share: lines, fields between single spaces, plain decimal numbers.
#![tactic(auto)]

mod numbers;
mod parts;

pub use numbers::read_number;
pub use parts::{Fields, TextLines, first_place};
