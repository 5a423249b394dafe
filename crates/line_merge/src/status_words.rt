//! What a status means, in words.
use crate::status::{FaultyInput, InputFault, MergeStatus};
use std::fmt;

/// A status, said in words.
#[derive(Clone, Copy)]
pub(crate) struct Said {
    /// The status.
    pub status: MergeStatus,
}

// What is wrong with an input.
fn fault_words(fault: InputFault) -> &'static str {
    match fault {
        InputFault::Read => "can't be read",
        InputFault::Cut => "has more than 131,072 lines or 67,108,864 bytes",
        InputFault::Long => "has a line of more than 15,359 bytes",
    }
}

impl fmt::Display for Said {
    fn fmt<W: fmt::Write>(&self, f: &mut fmt::Formatter<W>) -> fmt::Result {
        match self.status {
            MergeStatus::Done => f.write_str("line_merge: all lines are written"),
            MergeStatus::Input(FaultyInput { number, fault }) => {
                let words = fault_words(fault);
                write!(
                    f,
                    "line_merge: input {number} {words}; the lines before are written"
                )
            }
            MergeStatus::Write => f.write_str("line_merge: cannot write a line"),
        }
    }
}

/// Why nothing can be merged.
#[derive(Clone, Copy)]
pub(crate) enum Stopped {
    /// The words ask for nothing.
    Words,
    /// There is no memory.
    Memory,
}

impl fmt::Display for Stopped {
    fn fmt<W: fmt::Write>(&self, f: &mut fmt::Formatter<W>) -> fmt::Result {
        f.write_str(match self {
            Stopped::Words => {
                "line_merge: give one to sixteen inputs, - for the standard input at most once, and --numbered before them for their numbers"
            }
            Stopped::Memory => "line_merge: no memory",
        })
    }
}
