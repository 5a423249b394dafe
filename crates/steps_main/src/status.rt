//! How a run ended.
ghost use Rattle.std.specs.Prelude.{◌≡◌};
ghost use Rattle.steps_main.specs.Statuses.{status_of};

use line_teller::LinesEnd;
use roster_file::LineCause;
use state_file::FileCause;

/// How a run ended. A write that failed comes before an end of the lines: after `Done`, `Read` and `Cut` all that is written is whole.
#[derive(Clone, Copy)]
pub enum StepsStatus {
    /// Status 0: all of the receiver's lines were told.
    Done,
    /// Status 4: the state can't be read.
    ReadState,
    /// Status 3: what has not the head of a state is no roster either: its first faulty line, and what is wrong with it.
    Roster(u32, LineCause),
    /// Status 3: the first faulty line of the state, and what is wrong with it.
    State(u32, FileCause),
    /// Status 5: the receiver can't be read further. The lines that were taken are told.
    Read,
    /// Status 8: the receiver goes past the limit of lines or bytes. The lines within it are told.
    Cut,
    /// Status 7: what is left for the next session can't be written.
    WriteNext,
    /// Status 7: what is told can't be written.
    WriteSteps,
    /// Status 10: there is no memory.
    Memory,
}

impl StepsStatus {
    ghost use Rattle.std.specs.Prelude.{◌≡◌};
    ghost use Rattle.steps_main.specs.Statuses.{code_of};

    /// The exit status of the program.
    pub fn code(self) -> u8
        ensures { result ≡ code_of self }
    {
        match self {
            StepsStatus::Done => 0,
            StepsStatus::Roster(..) | StepsStatus::State(..) => 3,
            StepsStatus::ReadState => 4,
            StepsStatus::Read => 5,
            StepsStatus::WriteNext | StepsStatus::WriteSteps => 7,
            StepsStatus::Cut => 8,
            StepsStatus::Memory => 10,
        }
    }
}

/// The status of lines that ended so, where nothing behind them failed.
pub(crate) fn status_of(end: LinesEnd) -> StepsStatus
    ensures { result ≡ status_of end }
{
    match end {
        LinesEnd::Done => StepsStatus::Done,
        LinesEnd::Read => StepsStatus::Read,
        LinesEnd::Cut => StepsStatus::Cut,
        LinesEnd::Write => StepsStatus::WriteSteps,
        LinesEnd::Memory => StepsStatus::Memory,
    }
}
