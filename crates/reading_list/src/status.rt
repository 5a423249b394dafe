//! How a run ended.
use line_teller::LinesEnd;

/// How a list of readings ended.
#[derive(Clone, Copy)]
pub enum ListStatus {
    /// Status 0: every reading of a whole report is listed.
    Done,
    /// Status 1: some lines couldn't be listed whole, or the report is cut off; all else is listed.
    Noted,
    /// Status 5: the report can't be read; the readings of the lines taken are listed.
    Read,
    /// Status 8: the report goes past the limit of bytes; the readings of the lines before are listed.
    Cut,
    /// Status 7: the list can't be written.
    Write,
    /// Status 10: there is no memory.
    Memory,
}

impl ListStatus {
    ghost use Rattle.std.specs.Prelude.{◌≡◌};
    ghost use Rattle.reading_list.specs.Run.{code_of, status_of};

    /// The exit status of the program.
    pub fn code(self) -> u8
        ensures { result ≡ code_of self }
    {
        match self {
            ListStatus::Done => 0,
            ListStatus::Noted => 1,
            ListStatus::Read => 5,
            ListStatus::Write => 7,
            ListStatus::Cut => 8,
            ListStatus::Memory => 10,
        }
    }

    // The status of lines that ended so, of a report that is faultless or isn't.
    pub(crate) fn of_lines(end: LinesEnd, faultless: bool) -> ListStatus
        ensures { result ≡ status_of end faultless }
    {
        match end {
            LinesEnd::Done => {
                if faultless {
                    ListStatus::Done
                } else {
                    ListStatus::Noted
                }
            }
            LinesEnd::Read => ListStatus::Read,
            LinesEnd::Cut => ListStatus::Cut,
            LinesEnd::Write => ListStatus::Write,
            LinesEnd::Memory => ListStatus::Memory,
        }
    }
}
