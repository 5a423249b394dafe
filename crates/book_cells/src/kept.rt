//! What lies in the slot.

/// The book, in a place of its own so that a turn moves its address alone, and the number of turns that made no act, which wraps.
#[derive(Drop)]
pub struct Kept<B> {
    pub book: Box<B>,
    pub idle: u64,
}
