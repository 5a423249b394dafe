//! How a run ended.
ghost use Rattle.std.specs.Prelude.{◌≡◌};
ghost use Rattle.frame_inspect.specs.Statuses.{code_of_end};

use line_teller::LinesEnd;
use roster_file::{LineCause, LoadFault};

/// How a run ended that shows frames with their records.
#[derive(Clone, Copy)]
pub enum RecordsStatus {
    /// Status 4: the roster can't be read.
    ReadRoster,
    /// Status 3: the first faulty line of the roster, and what is wrong with it.
    Roster(u32, LineCause),
    /// Status 10: there is no memory for the roster.
    Memory,
    /// The lines were shown as far as this end says: status 0, 5, 7, 8 or 10.
    Shown(LinesEnd),
}

// The exit status of lines that ended so.
fn code_of_end(end: LinesEnd) -> u8
    ensures { result ≡ code_of_end end }
{
    match end {
        LinesEnd::Done => 0,
        LinesEnd::Read => 5,
        LinesEnd::Write => 7,
        LinesEnd::Cut => 8,
        LinesEnd::Memory => 10,
    }
}

impl RecordsStatus {
    ghost use Rattle.std.specs.Prelude.{◌≡◌};
    ghost use Rattle.frame_inspect.specs.Statuses.{code_of, status_of};

    /// The exit status of the program.
    pub fn code(self) -> u8
        ensures { result ≡ code_of self }
    {
        match self {
            RecordsStatus::ReadRoster => 4,
            RecordsStatus::Roster(..) => 3,
            RecordsStatus::Memory => 10,
            RecordsStatus::Shown(end) => code_of_end(end),
        }
    }

    // The status of a roster that can't be loaded.
    pub(crate) fn of_fault(fault: LoadFault) -> RecordsStatus
        ensures { result ≡ status_of fault }
    {
        match fault {
            LoadFault::Read => RecordsStatus::ReadRoster,
            LoadFault::Line(line, cause) => RecordsStatus::Roster(line, cause),
            LoadFault::Memory => RecordsStatus::Memory,
        }
    }
}
