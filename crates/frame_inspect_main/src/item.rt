//! What is looked at.
use line_reader::{BadLine, Line, read_line};
use outer_io::Memory;
use std::alloc::{AllocError, Global};
use std::marker::Model;

/// The bytes of a line, without its end.
#[derive(Drop)]
pub struct LineText {
    bytes: Vec<u8>,
}

impl Model for LineText {
    ghost use Rattle.std.specs.Prelude.{ℕ, List};

    ghost Value = { List ℕ };

    ghost view = { λ t. t.bytes.items };
}

impl LineText {
    ghost use Rattle.std.specs.Prelude.{◌≡◌, IfOk};

    /// A copy of these bytes.
    pub fn copied(alloc: Global, bytes: &[u8]) -> Result<LineText, AllocError>
        ensures { IfOk result (λ text. text ≡ bytes.now) }
    {
        let bytes = Vec::from_slice(alloc, bytes)?;
        Ok(LineText { bytes })
    }

    /// The bytes.
    pub fn bytes(&self) -> &[u8]
        ensures { result.now ≡ self.now }
    {
        self.bytes.as_slice()
    }
}

/// A line of a file of frames, as it was read: what it says is found by whoever looks at it.
#[derive(Drop)]
pub enum Item {
    /// A line of at most 1,024 bytes.
    Line(LineText),
    /// A longer line.
    TooLong,
}

impl Item {
    ghost use Rattle.std.specs.Prelude.{◌≡◌, IfOk};
    ghost use Rattle.frame_inspect_main.specs.Items.{said_by};

    /// A line of these bytes, if there is memory for them.
    pub fn of_text(alloc: Global, text: &[u8]) -> Result<Item, Memory>
        ensures { IfOk result (λ item. item ≡ Item.Line text.now) }
    {
        Ok(Item::Line(LineText::copied(alloc, text)?))
    }

    /// What it says, or its first fault.
    pub fn said(&self) -> Result<Line, BadLine>
        ensures { result ≡ said_by self.now }
    {
        match self {
            Item::Line(text) => read_line(text.bytes()),
            Item::TooLong => Err(BadLine::TooLong),
        }
    }
}
