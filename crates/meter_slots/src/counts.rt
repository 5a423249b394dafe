//! What a receiver's run comes to.

/// How many lines a receiver gave, and how many of each class. Each line is in exactly one class.
#[derive(Clone, Copy)]
pub struct Counts {
    /// All lines.
    pub lines: u32,
    /// Lines for a commissioned meter.
    pub own: u32,
    /// Lines for an address that isn't commissioned.
    pub strangers: u32,
    /// Frame lines that hold no frame.
    pub unframed: u32,
    /// Lines outside the grammar.
    pub bad: u32,
}

/// How a receiver's run ended.
#[derive(Clone, Copy)]
pub enum Ended {
    /// At the end of its source.
    End,
    /// At the limit of lines or bytes, with more behind it.
    Cut,
    /// At a read that failed.
    ReadFault,
    /// At a downlink that couldn't be written.
    TxFault,
    /// For want of memory.
    Memory,
}
