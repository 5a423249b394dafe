//! The cells of a session.
use book_cells::BookCell;
use meter_slots::SlotBook;
use stranger_ring::Strangers;

/// A slot behind its lock.
pub type SlotCell = BookCell<SlotBook>;

/// The strangers behind theirs.
pub type StrangerCell = BookCell<Strangers>;
