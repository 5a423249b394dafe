//! How a feed ended.
use line_teller::LinesEnd;

/// How a feed ended.
#[derive(Clone, Copy)]
pub enum FeedStatus {
    /// Status 0: every line was a telegram, and was taken.
    Done,
    /// Status 1: some lines weren't taken, and all others were.
    LeftOut,
    /// Status 5: the input can't be read; the whole lines that were read are fed.
    Read,
    /// Status 8: the input has more bytes than 64 bits count; those before are fed.
    Cut,
    /// Status 7: a line can't be written.
    Write,
    /// Status 10: there is no memory.
    Memory,
}

impl FeedStatus {
    ghost use Rattle.std.specs.Prelude.{◌≡◌};
    ghost use Rattle.line_feed.specs.Run.{code_of, status_of};

    /// The exit status of the program.
    pub fn code(self) -> u8
        ensures { result ≡ code_of self }
    {
        match self {
            FeedStatus::Done => 0,
            FeedStatus::LeftOut => 1,
            FeedStatus::Read => 5,
            FeedStatus::Write => 7,
            FeedStatus::Cut => 8,
            FeedStatus::Memory => 10,
        }
    }

    // The status of lines that ended so, of which so many weren't taken.
    pub(crate) fn of_lines(end: LinesEnd, left_out: u64) -> FeedStatus
        ensures { result ≡ status_of end left_out }
    {
        match end {
            LinesEnd::Done => {
                if left_out == 0 {
                    FeedStatus::Done
                } else {
                    FeedStatus::LeftOut
                }
            }
            LinesEnd::Read => FeedStatus::Read,
            LinesEnd::Cut => FeedStatus::Cut,
            LinesEnd::Write => FeedStatus::Write,
            LinesEnd::Memory => FeedStatus::Memory,
        }
    }
}
