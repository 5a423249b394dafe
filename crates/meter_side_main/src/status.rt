//! How a run of the meter's side ended.
use roster_file::LineCause;
use state_file::FileCause;

/// How a run of the meter's side ended: the first of these that applies, in this order, but for `Done` and `Memory`.
#[derive(Clone, Copy)]
pub enum SideStatus {
    /// Status 0: the deliveries were heard to their end, and the output has its whole text.
    Done,
    /// Status 2: there aren't three words, or the second is no address.
    Words,
    /// Status 4: the roster, or the state, can't be read.
    ReadRoster,
    /// Status 3: the first faulty line of the roster, and what is wrong with it.
    Roster(u32, LineCause),
    /// Status 3: the first faulty line of the state, and what is wrong with it.
    State(u32, FileCause),
    /// Status 12: no meter of the roster, or of the state, has the address.
    Uncommissioned,
    /// Status 5: the deliveries can't be read.
    Read,
    /// Status 8: the deliveries go past the limit of lines or bytes.
    Cut,
    /// Status 7: the output can't be written.
    Write,
    /// Status 10: there is no memory for the roster or the state, in place of any but `Words`.
    Memory,
}

impl SideStatus {
    ghost use Rattle.std.specs.Prelude.{◌≡◌};
    ghost use Rattle.meter_side_main.specs.Statuses.{code_of};

    /// The exit status of the program.
    pub fn code(self) -> u8
        ensures { result ≡ code_of self }
    {
        match self {
            SideStatus::Done => 0,
            SideStatus::Words => 2,
            SideStatus::Roster(..) | SideStatus::State(..) => 3,
            SideStatus::ReadRoster => 4,
            SideStatus::Read => 5,
            SideStatus::Write => 7,
            SideStatus::Cut => 8,
            SideStatus::Memory => 10,
            SideStatus::Uncommissioned => 12,
        }
    }
}
