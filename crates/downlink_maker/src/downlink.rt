//! A downlink as it is sent.
ghost use Rattle.std.specs.Prelude.{◌≡◌, ◌≤◌, length};

use std::marker::Model;

/// The most bytes that there is room for. The longest downlink has 155.
pub const DOWNLINK_MAX: usize = 160;

/// A downlink as it is sent. What stands in the array behind its bytes counts nowhere.
#[derive(Drop)]
pub struct Downlink {
    pub(crate) bytes: [u8; DOWNLINK_MAX],
    pub(crate) len: u8,
    pub(crate) id: u32,
    pub(crate) down: u32,
}

impl Model for Downlink {
    ghost use Rattle.std.specs.Prelude.{◌≤◌, take};
    ghost use Rattle.downlink_maker.specs.Sent.{Sent};
    ghost use Rattle.downlink_maker.specs.declared.downlink.TheConstants.{DOWNLINK_MAX};

    ghost Value = { Sent };

    ghost view = { λ d. record { bytes = take d.len d.bytes; id = d.id; down = d.down } };

    ghost invariant = { λ d. d.len ≤ DOWNLINK_MAX };
}

impl Downlink {
    /// The bytes of its frame of format A.
    pub fn bytes(&self) -> &[u8]
        ensures bytes { result.now ≡ self.now.bytes }
        ensures most { length self.now.bytes ≤ DOWNLINK_MAX }
    {
        &self.bytes[..self.len as usize]
    }

    /// The id of the command that it carries.
    pub fn id(&self) -> u32
        ensures { result ≡ self.now.id }
    {
        self.id
    }

    /// Its counter.
    pub fn down(&self) -> u32
        ensures { result ≡ self.now.down }
    {
        self.down
    }

    /// The same downlink again.
    pub fn copied(&self) -> Downlink
        ensures { result ≡ self.now }
    {
        Downlink {
            bytes: self.bytes,
            len: self.len,
            id: self.id,
            down: self.down,
        }
    }
}
