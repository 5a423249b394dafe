//! How a run ended.

/// How a run ended: the first of these that applies, in this order, but for `Done` and `Memory`.
#[derive(Clone, Copy)]
pub enum InspectStatus {
    /// Status 0: the file was read to its end, and the text is written whole.
    Done,
    /// Status 2: there aren't two words, or the second is no plain number from 1 to 16.
    Words,
    /// Status 5: the file can't be read.
    Read,
    /// Status 8: the file goes past the limit of lines or bytes.
    Cut,
    /// Status 7: the text can't be written.
    Write,
    /// Status 10: there is no memory, in place of any but `Words`.
    Memory,
}

impl InspectStatus {
    ghost use Rattle.std.specs.Prelude.{◌≡◌};
    ghost use Rattle.frame_inspect_main.specs.Statuses.{code_of};

    /// The exit status of the program.
    pub fn code(self) -> u8
        ensures { result ≡ code_of self }
    {
        match self {
            InspectStatus::Done => 0,
            InspectStatus::Words => 2,
            InspectStatus::Read => 5,
            InspectStatus::Write => 7,
            InspectStatus::Cut => 8,
            InspectStatus::Memory => 10,
        }
    }
}
