//! A step of the world, and where it lands.
use crate::entry::{Event, Outcome};
use meter_address::Address;

/// An event for a meter: the receiver and the line that it came from, and the address that it is for.
#[derive(Drop)]
pub struct Step {
    /// The receiver, from 1.
    pub source: u32,
    /// The number of the line there, from 1.
    pub line: u32,
    /// The meter.
    pub address: Address,
    /// What came.
    pub event: Event,
}

/// Where a step landed.
#[derive(Drop)]
pub enum Landed {
    /// In the slot at this place of the commissions, which answered so.
    Slot(u32, Outcome),
    /// With the strangers: no commission has the address.
    Stranger,
}
