//! Why a text gives no senders.

/// What is wrong with a line of senders: the first of these that applies.
#[derive(Clone, Copy)]
pub enum SendersCause {
    /// The text has more than 16,777,216 bytes. It has line number 0 and comes before all others.
    TooLong,
    /// The first line isn't `wmbus-senders 1`.
    Head,
    /// The first field isn't `sender`, and the line isn't `end`.
    Kind,
    /// The line hasn't four fields.
    Fields,
    /// The name hasn't 1 to 64 of `a` to `z`, `0` to `9`, `.`, `_` and `-`.
    Name,
    /// The epoch is no plain number below 2^64.
    Epoch,
    /// The number is no plain number below 2^32.
    Number,
    /// An earlier sender has this name.
    Same,
    /// The head or the line `end` is missing at the end. It has the number after that of the last line.
    Missing,
    /// It stands behind the end.
    Behind,
}

/// Why a text gives no senders.
#[derive(Clone, Copy)]
pub enum SendersFault {
    /// The first faulty line, counted from 1, and what is wrong with it.
    Line(u32, SendersCause),
    /// There is no memory for the senders.
    Memory,
}
