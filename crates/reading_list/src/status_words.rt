//! What a status means, in words.
use crate::status::ListStatus;
use std::fmt;

/// A status, said in words.
#[derive(Clone, Copy)]
pub(crate) struct Said {
    /// The status.
    pub status: ListStatus,
}

impl fmt::Display for Said {
    fn fmt<W: fmt::Write>(&self, f: &mut fmt::Formatter<W>) -> fmt::Result {
        f.write_str(match self.status {
            ListStatus::Done => "reading_list: all is listed",
            ListStatus::Noted => "reading_list: not all could be listed",
            ListStatus::Read =>
                "reading_list: the report can't be read; what was read of it is listed",
            ListStatus::Write => "reading_list: cannot write the list",
            ListStatus::Cut => {
                "reading_list: the report has more than 1,073,741,824 bytes; the lines before are listed"
            }
            ListStatus::Memory => "reading_list: no memory",
        })
    }
}

/// Words that ask for nothing.
#[derive(Clone, Copy)]
pub(crate) struct Stopped;

impl fmt::Display for Stopped {
    fn fmt<W: fmt::Write>(&self, f: &mut fmt::Formatter<W>) -> fmt::Result {
        f.write_str("reading_list: give one report, and --csv before it for comma separated values")
    }
}
