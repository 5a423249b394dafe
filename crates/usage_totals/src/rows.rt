//! Rows with numbers.

use crate::amounts::Amounts;

/// A row with its number. The numbers of a meter's rows rise, and none is given twice.
#[derive(Drop)]
pub struct NumberedRow {
    /// The number.
    pub number: u64,
    /// The amounts.
    pub amounts: Amounts,
}
