//! What is said of a run with records.
use crate::status::RecordsStatus;
use state_file::roster_word;
use std::fmt;

/// A status, said by the program.
#[derive(Clone, Copy)]
pub(crate) struct Said {
    /// How the run ended.
    pub status: RecordsStatus,
}

/// The line for the standard error, without its end.
impl fmt::Display for Said {
    fn fmt<W: fmt::Write>(&self, f: &mut fmt::Formatter<W>) -> fmt::Result {
        match self.status {
            RecordsStatus::Roster(line, cause) => {
                let word = roster_word(cause);
                write!(f, "frame_inspect: roster line {line} {word}")
            }
            _ => {
                let code = self.status.code();
                write!(f, "frame_inspect: status {code}")
            }
        }
    }
}
