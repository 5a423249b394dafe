//! How a change ends.
use meter_address::Address;
use roster_file::{LineCause, LoadFault};
use state_file::{FileCause, StateLoadFault};

/// How a change of a state ends: the first of these that applies, in this order, but for `Done` and `Memory`.
#[derive(Clone, Copy)]
pub enum ChangeStatus {
    /// Status 0: the next state is written.
    Done,
    /// Status 2: the words aren't those that the program wants.
    Words,
    /// Status 4: the state can't be read.
    ReadState,
    /// Status 3: the state is none, and no roster either: the roster's first faulty line, and what is wrong with it.
    StateRoster(u32, LineCause),
    /// Status 3: the first faulty line of the state, and what is wrong with it.
    State(u32, FileCause),
    /// Status 4: the roster can't be read.
    ReadRoster,
    /// Status 3: the first faulty line of the roster, and what is wrong with it.
    Roster(u32, LineCause),
    /// Status 12: the downlink counter of this meter would pass 2^32 - 1.
    Spent(Address),
    /// Status 7: the next state can't be written.
    Write,
    /// Status 10: there is no memory.
    Memory,
}

impl ChangeStatus {
    ghost use Rattle.std.specs.Prelude.{◌≡◌};
    ghost use Rattle.state_changes.specs.Statuses.{code_of, of_state, of_roster};

    /// The exit status of the program.
    pub fn code(self) -> u8
        ensures { result ≡ code_of self }
    {
        match self {
            ChangeStatus::Done => 0,
            ChangeStatus::Words => 2,
            ChangeStatus::StateRoster(..) => 3,
            ChangeStatus::State(..) => 3,
            ChangeStatus::Roster(..) => 3,
            ChangeStatus::ReadState => 4,
            ChangeStatus::ReadRoster => 4,
            ChangeStatus::Write => 7,
            ChangeStatus::Memory => 10,
            ChangeStatus::Spent(_) => 12,
        }
    }

    // The status of a state that can't be loaded.
    pub(crate) fn of_state(fault: StateLoadFault) -> ChangeStatus
        ensures { result ≡ of_state fault }
    {
        match fault {
            StateLoadFault::Read => ChangeStatus::ReadState,
            StateLoadFault::Roster(line, cause) => ChangeStatus::StateRoster(line, cause),
            StateLoadFault::Line(line, cause) => ChangeStatus::State(line, cause),
            StateLoadFault::Memory => ChangeStatus::Memory,
        }
    }

    // The status of a roster that can't be loaded.
    pub(crate) fn of_roster(fault: LoadFault) -> ChangeStatus
        ensures { result ≡ of_roster fault }
    {
        match fault {
            LoadFault::Read => ChangeStatus::ReadRoster,
            LoadFault::Line(line, cause) => ChangeStatus::Roster(line, cause),
            LoadFault::Memory => ChangeStatus::Memory,
        }
    }
}
