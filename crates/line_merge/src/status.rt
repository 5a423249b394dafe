//! How a merge ends.

/// Why an input gives no next line, though it isn't at its end.
#[derive(Clone, Copy)]
pub enum InputFault {
    /// Status 5: a read failed.
    Read,
    /// Status 8: it goes past the limit of lines or bytes.
    Cut,
    /// Status 8: its next line has more than `LINE_LONGEST` bytes.
    Long,
}

/// An input that has a fault.
#[derive(Clone, Copy)]
pub struct FaultyInput {
    /// Its number, from 1.
    pub number: u64,
    /// Its fault.
    pub fault: InputFault,
}

/// How a merge ended.
#[derive(Clone, Copy)]
pub enum MergeStatus {
    /// Status 0: all lines of all inputs are written.
    Done,
    /// An input has a fault: the lines that come before its next one are written.
    Input(FaultyInput),
    /// Status 7: a line can't be written.
    Write,
}

impl InputFault {
    ghost use Rattle.std.specs.Prelude.{◌≡◌};
    ghost use Rattle.line_merge.specs.Statuses.{fault_code};

    // The exit status of the program.
    fn code(self) -> u8
        ensures { result ≡ fault_code self }
    {
        match self {
            InputFault::Read => 5,
            InputFault::Cut | InputFault::Long => 8,
        }
    }
}

impl MergeStatus {
    ghost use Rattle.std.specs.Prelude.{◌≡◌};
    ghost use Rattle.line_merge.specs.Statuses.{code_of};

    /// The exit status of the program.
    pub fn code(self) -> u8
        ensures { result ≡ code_of self }
    {
        match self {
            MergeStatus::Done => 0,
            MergeStatus::Input(faulty) => faulty.fault.code(),
            MergeStatus::Write => 7,
        }
    }
}
