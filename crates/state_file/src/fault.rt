//! Why a text is no state.
use crate::cause::StateCause;
use roster_file::LineCause;

/// What is wrong with a line of a state.
#[derive(Clone, Copy)]
pub enum FileCause {
    /// What may also be wrong with a roster: its own line, a meter's line, or the end that is missing.
    Roster(LineCause),
    /// What may be wrong with a line below a meter's line.
    Meter(StateCause),
    /// No meter's line stands above it.
    Place,
    /// It stands behind the end.
    Behind,
}

/// Why a text gives no state.
#[derive(Clone, Copy)]
pub enum StateFault {
    /// The text has too many bytes, or not the head of a state, and is no roster either: the roster's first faulty line, counted from 1,
    /// and what is wrong with it.
    Roster(u32, LineCause),
    /// The first faulty line of a state, counted from 1, and what is wrong with it.
    Line(u32, FileCause),
    /// There is no memory for the state.
    Memory,
}
