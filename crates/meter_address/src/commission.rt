//! What is commissioned of a meter.
ghost use Rattle.std.specs.Prelude.{◌≡◌};
ghost use Rattle.meter_address.specs.Commission.{key_of, most_last};

use crate::address::Address;
use std::marker::Model;

/// The security mode of a meter's messages (OMS Volume 2).
#[derive(Clone, Copy)]
pub enum Mode {
    /// Mode 5: AES-128-CBC under the meter's key.
    Five,
    /// Mode 7: AES-128-CBC and a CMAC, under keys derived from the meter's key.
    Seven,
}

impl Mode {
    /// The greatest `last` of a meter of this mode: an access number has one byte, a counter has four.
    pub fn most_last(self) -> u32
        ensures { result ≡ most_last self }
    {
        match self {
            Mode::Five => 255,
            Mode::Seven => u32::MAX,
        }
    }
}

/// The key of a text: 32 hexadecimal digits of either case.
pub fn read_key(text: &[u8]) -> Option<[u8; 16]>
    ensures { result ≡ key_of text.now }
{
    let mut key = [0; 16];
    match hex::decode_to_slice(text, &mut key) {
        Ok(()) => Some(key),
        Err(_) => None,
    }
}

/// What is known of a meter when it is commissioned, or when it is written to the next roster. It can't be shown, for a
/// key is no text of a log.
#[derive(Clone, Copy)]
pub struct Commission {
    /// The meter.
    pub address: Address,
    /// How its messages are secured.
    pub mode: Mode,
    /// Its key: in mode 7 the first one.
    pub key: [u8; 16],
    /// Its second key, where it has one. In mode 5 there is none.
    pub other: Option<[u8; 16]>,
    /// The last stored counter in mode 7, the last stored access number in mode 5.
    pub last: Option<u32>,
    /// The last counter of a downlink.
    pub down: u32,
    /// The last id of a command.
    pub ids: u32,
}

impl Model for Commission {
    ghost use Rattle.meter_address.specs.Commission.{Commissioned, FitsMode};

    ghost Value = { Commissioned };

    ghost view = { λ c. record {
      address = c.address;
      mode = c.mode;
      key = c.key;
      other = c.other;
      last = c.last;
      down = c.down;
      ids = c.ids;
    } };

    ghost invariant = { λ c. FitsMode c.mode c.other c.last };

    ghost inverse = { λ v. record {
      address = v.address;
      mode = v.mode;
      key = v.key;
      other = v.other;
      last = v.last;
      down = v.down;
      ids = v.ids;
    } };
}
