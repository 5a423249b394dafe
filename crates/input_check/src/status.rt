//! How a check ends.
use crate::states::Stop;
use std::fmt;

/// How a check ended.
#[derive(Clone, Copy)]
pub enum CheckStatus {
    /// Status 0: nothing is faulty.
    Done,
    /// Status 1: some lines are, or a byte order mark stands in front.
    Found,
    /// Status 2: the words name no state.
    Words,
    /// Status 5, 7, 8 or 10: why not all could be checked.
    Stopped(Stop),
}

impl CheckStatus {
    ghost use Rattle.std.specs.Prelude.{◌≡◌};
    ghost use Rattle.input_check.specs.Exit.{code_of};

    /// The exit status of the program.
    pub fn code(self) -> u8
        ensures { result ≡ code_of self }
    {
        match self {
            CheckStatus::Done => 0,
            CheckStatus::Found => 1,
            CheckStatus::Words => 2,
            CheckStatus::Stopped(Stop::Read) => 5,
            CheckStatus::Stopped(Stop::Write) => 7,
            CheckStatus::Stopped(Stop::Cut) => 8,
            CheckStatus::Stopped(Stop::Memory) => 10,
        }
    }
}

impl fmt::Display for CheckStatus {
    fn fmt<W: fmt::Write>(&self, f: &mut fmt::Formatter<W>) -> fmt::Result {
        f.write_str(match self {
            CheckStatus::Done => "input_check: no line is faulty",
            CheckStatus::Found => "input_check: some lines are faulty",
            CheckStatus::Words =>
                "input_check: give a state or a roster, and files of receivers behind it",
            CheckStatus::Stopped(Stop::Read) => "input_check: a file can't be read",
            CheckStatus::Stopped(Stop::Write) => "input_check: cannot write the findings",
            CheckStatus::Stopped(Stop::Cut) => {
                "input_check: a file has more lines or bytes than are read"
            }
            CheckStatus::Stopped(Stop::Memory) => "input_check: no memory",
        })
    }
}
