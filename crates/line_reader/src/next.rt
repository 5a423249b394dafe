//! What comes next of a source's lines.
use crate::line::{BadLine, Line};

/// What comes next of a source's lines as bytes.
#[derive(Clone, Copy)]
pub enum NextText {
    /// A line, whose bytes the reader lends.
    Line,
    /// A line with more bytes than the reader lends. It counts among the lines.
    TooLong,
    /// The source is at its end.
    End,
    /// The source has a byte behind its most lines or its most bytes.
    Cut,
}

/// What comes next.
#[derive(Drop)]
pub enum Next {
    /// A line.
    Line(Line),
    /// A line that says nothing, and why. It counts among the lines.
    Bad(BadLine),
    /// The source is at its end.
    End,
    /// The source has a byte behind its most lines or its most bytes.
    Cut,
}

/// A read of the source failed, and its count of faults says so.
#[derive(Clone, Copy)]
pub struct ReadFault;
