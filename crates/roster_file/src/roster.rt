//! A roster, and why a text is none.
use meter_address::{Address, Commission};
use std::marker::Model;
use thiserror::Error;

/// What is wrong with a line of a roster: the first of these that applies.
#[derive(Clone, Copy, Debug)]
pub enum LineCause {
    /// The text has more bytes than a roster may have. It has line number 0 and comes before all others.
    TooLong,
    /// The first line is neither `wmbus-roster 1` nor `wmbus-roster 2`.
    Head,
    /// The line after the head isn't `own` and an address.
    Own,
    /// The first field isn't `meter`.
    Kind,
    /// The line hasn't as many fields as the head's version asks for: seven in version 1, eight in version 2.
    Fields,
    /// The second field is no address.
    Address,
    /// The mode is neither `5` nor `7`.
    Mode,
    /// The key isn't 32 hexadecimal digits.
    Key,
    /// The second key is neither `-` nor 32 hexadecimal digits; in mode 5 it isn't `-`.
    Other,
    /// The last counter is neither `-` nor a plain number of the mode's range.
    Last,
    /// The last downlink counter is no plain number below 2^32.
    Down,
    /// The last command id is no plain number below 2^32.
    Ids,
    /// An earlier meter has this address.
    Same,
    /// It is one meter more than a roster may have.
    TooMany,
    /// The head or the own line is missing at the end. It has the number after that of the last line.
    Missing,
}

/// Why a text gives no roster.
#[derive(Clone, Copy, Debug, Error)]
pub enum RosterFault {
    /// The first faulty line, counted from 1, and what is wrong with it.
    #[error("roster line")]
    Line(u32, LineCause),
    /// There is no memory for the roster.
    #[error("no memory")]
    Memory,
}

/// The collector's own address and the commissioned meters, in the order of their lines.
#[derive(Drop)]
pub struct Roster {
    own: Address,
    meters: Vec<Commission>,
}

impl Model for Roster {
    ghost use Rattle.roster_file.specs.Roster.{Enrolled};

    ghost Value = { Enrolled };

    ghost view = { λ r. record { own = r.own; meters = r.meters.items } };
}

impl Roster {
    ghost use Rattle.std.specs.Prelude.{◌≡◌};

    /// The roster of these meters.
    pub fn new(own: Address, meters: Vec<Commission>) -> Self
        ensures { result ≡ record { own = own; meters = meters.items } }
    {
        Roster { own, meters }
    }

    /// The collector's own address.
    pub fn own(&self) -> Address
        ensures { result ≡ self.now.own }
    {
        self.own
    }

    /// The meters, in the order of their lines.
    pub fn meters(&self) -> &[Commission]
        ensures { result.now ≡ self.now.meters }
    {
        self.meters.as_slice()
    }

    /// Gives the meters back, in the order of their lines.
    pub fn into_meters(self) -> Vec<Commission>
        ensures { result.items ≡ self.meters }
    {
        self.meters
    }
}
