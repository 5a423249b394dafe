//! What the audit answers.
use roster_file::LineCause;
use state_file::FileCause;

/// What the audit of a report answers.
#[derive(Clone, Copy)]
pub enum Verdict {
    /// The report is the text of a session of just what the inputs tell, in the orders that it prints, and the state that is judged,
    /// if one is, is what that session leaves.
    Yes,
    /// It isn't, for this cause.
    No(Cause),
}

/// Why a report isn't what it should be: the first of these that applies.
#[derive(Clone, Copy)]
pub enum Cause {
    /// The text that is to be a state hasn't the head of one and is no roster either, or has too many bytes: the roster's first faulty
    /// line, and what is wrong with it.
    Roster(u32, LineCause),
    /// The first faulty line of the state, and what is wrong with it.
    State(u32, FileCause),
    /// The first input, from 1, that goes past the limit of lines or bytes.
    Over(u32),
    /// The first line of the report, from 1, that is out of form: a meter's heading too many, a line outside its list, or one
    /// without two plain numbers below 2^32.
    Form(u32),
    /// The first list, from 0, that isn't the order of its lines: those of each meter, and behind them the strangers'.
    Order {
        /// The number of the list.
        list: u32,
        /// The first pair, from 0, that isn't the next line of its receiver, or the list's length where lines are missing.
        place: u32,
    },
    /// The first byte, from 0, at which the report differs from the text of the session.
    Text(usize),
    /// The first byte at which the state that is judged differs from the one that the session leaves.
    Next {
        /// Its line in the state that is judged, from 1.
        line: usize,
        /// Its place in all bytes of that state, from 0: their number where they end early.
        place: usize,
    },
}
