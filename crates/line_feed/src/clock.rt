//! What tells the moment of a line that names none.

/// A clock.
pub trait Clock {
    /// The moment now, in seconds since the beginning of 1970. No contract knows what a clock says.
    fn seconds(&self) -> u64;
}
