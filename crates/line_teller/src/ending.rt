//! How lines end.

/// How lines that are told end.
#[derive(Clone, Copy)]
pub enum LinesEnd {
    /// The source is at its end, and all its lines were told.
    Done,
    /// A read failed.
    Read,
    /// The source goes past the limit of lines or bytes.
    Cut,
    /// A text can't be written.
    Write,
    /// There is no memory.
    Memory,
}

impl LinesEnd {
    ghost use Rattle.std.specs.Prelude.{◌≡◌};
    ghost use Rattle.line_teller.specs.Ending.{is_whole};

    /// Whether every line was told that could be read.
    pub fn is_whole(self) -> bool
        ensures { result ≡ is_whole self }
    {
        match self {
            LinesEnd::Done | LinesEnd::Read | LinesEnd::Cut => true,
            LinesEnd::Write | LinesEnd::Memory => false,
        }
    }
}
