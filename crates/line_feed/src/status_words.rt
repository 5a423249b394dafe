//! What a status means, in words.
use crate::cutting::Unfit;
use crate::status::FeedStatus;
use std::fmt;

/// A status, said in words.
#[derive(Clone, Copy)]
pub(crate) struct Said {
    /// The status.
    pub status: FeedStatus,
}

impl fmt::Display for Said {
    fn fmt<W: fmt::Write>(&self, f: &mut fmt::Formatter<W>) -> fmt::Result {
        f.write_str(match self.status {
            FeedStatus::Done => "line_feed: every line was taken",
            FeedStatus::LeftOut => "line_feed: some lines weren't taken",
            FeedStatus::Read => "line_feed: the input can't be read; what was read of it is fed",
            FeedStatus::Write => "line_feed: cannot write a line",
            FeedStatus::Cut => {
                "line_feed: the input has more bytes than 64 bits count; those before are fed: start it again"
            }
            FeedStatus::Memory => "line_feed: no memory",
        })
    }
}

/// Words that ask for nothing.
#[derive(Clone, Copy)]
pub(crate) struct Stopped;

impl fmt::Display for Stopped {
    fn fmt<W: fmt::Write>(&self, f: &mut fmt::Formatter<W>) -> fmt::Result {
        f.write_str(
            "line_feed: give one format, cul, rtl_wmbus, rtl_433 or hex, and the receiver's lines on the standard input",
        )
    }
}

/// A file that can't be appended to.
#[derive(Clone, Copy)]
pub(crate) struct UnfitFile<'a> {
    /// Its name.
    pub name: &'a str,
    /// Why.
    pub reason: Unfit,
}

impl fmt::Display for UnfitFile<'_> {
    fn fmt<W: fmt::Write>(&self, f: &mut fmt::Formatter<W>) -> fmt::Result {
        let name = self.name;
        match self.reason {
            Unfit::Failed => write!(f, "line_feed: the end of {name} can't be read or cut off"),
            Unfit::NoLines => write!(
                f,
                "line_feed: the last 1,024 bytes of {name} have no newline, so it isn't a file of lines and is left as it is"
            ),
        }
    }
}
