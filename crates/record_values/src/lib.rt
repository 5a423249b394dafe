//! What a data record says: its quantity, its unit and its value (EN 13757-3, clause 6 and annex A).
#![tactic(auto)]

mod dates;
mod digits;
mod laws;
mod unit_tables;
mod units;
mod values;

pub use dates::{bits, year_of};
pub use digits::unsigned_of;
pub use laws::each_row_counts;
pub use units::{Quantity, Unit, UnitName, unit_of};
pub use values::{Value, number_value, value_of};
