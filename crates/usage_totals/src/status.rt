//! How a run ended.

use line_teller::LinesEnd;

/// How a run ended: `Words` before all others, and else as the lines ended.
#[derive(Clone, Copy)]
pub enum TotalsStatus {
    /// Status 0: the edits were read to their end, and every answer is written.
    Done,
    /// Status 2: the words aren't one file of edits, with or without `--addressed` in front of it.
    Words,
    /// Status 5: the edits can't be read.
    Read,
    /// Status 8: the edits go past the limit of lines or bytes.
    Cut,
    /// Status 7: an answer can't be written.
    Write,
    /// Status 10: there is no memory for an edit or for an answer.
    Memory,
}

impl TotalsStatus {
    ghost use Rattle.std.specs.Prelude.{◌≡◌};
    ghost use Rattle.usage_totals.specs.Run.{code_of, status_of};

    // The status of a run whose lines ended so.
    pub(crate) fn of_lines(end: LinesEnd) -> TotalsStatus
        ensures { result ≡ status_of end }
    {
        match end {
            LinesEnd::Done => TotalsStatus::Done,
            LinesEnd::Read => TotalsStatus::Read,
            LinesEnd::Cut => TotalsStatus::Cut,
            LinesEnd::Write => TotalsStatus::Write,
            LinesEnd::Memory => TotalsStatus::Memory,
        }
    }

    /// The exit status of the program.
    pub fn code(self) -> u8
        ensures { result ≡ code_of self }
    {
        match self {
            TotalsStatus::Done => 0,
            TotalsStatus::Words => 2,
            TotalsStatus::Read => 5,
            TotalsStatus::Write => 7,
            TotalsStatus::Cut => 8,
            TotalsStatus::Memory => 10,
        }
    }
}
