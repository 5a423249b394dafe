//! What a report is made of.
use meter_address::{Address, Mode};
use meter_slots::{Counts, Ended, SlotBook};
use stranger_ring::Strangers;

/// What a receiver's run came to.
#[derive(Clone, Copy)]
pub struct ReceiverEnd {
    /// Its lines, and how many of each class.
    pub counts: Counts,
    /// How it ended.
    pub ended: Ended,
}

/// What the line of a meter says.
#[derive(Clone, Copy)]
pub struct MeterLine {
    /// The meter.
    pub address: Address,
    /// How its messages are secured.
    pub mode: Mode,
    /// Its last counter or access number.
    pub last: Option<u32>,
    /// The last counter of a downlink.
    pub down: u32,
    /// How many steps its slot made.
    pub steps: usize,
    /// How many readings are stored.
    pub readings: usize,
}

/// A session, lent for its report.
#[derive(Drop)]
pub struct Session<'a> {
    /// The receivers' runs, in the order of the receivers.
    pub ends: &'a [ReceiverEnd],
    /// The slots, in the order of the roster.
    pub slots: &'a [SlotBook],
    /// The strangers.
    pub strangers: &'a Strangers,
}
