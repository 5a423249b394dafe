//! Whose a line is.
use meter_address::Address;

/// Whose a line is.
#[derive(Clone, Copy)]
pub enum Whose {
    /// It tells something for a meter, one of the state or a stranger.
    Meter(Address),
    /// Bytes that are no frame.
    Unframed,
    /// It is outside the grammar.
    Bad,
}
