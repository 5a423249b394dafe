//! A meter's keys, made ready.
ghost use Rattle.std.specs.Prelude.{◌≡◌, Some};
ghost use Rattle.message_check.specs.Keys.{key_among, keys_of};

use key_derivation::MeterKey;
use meter_address::Commission;
use std::marker::Model;
use tpl_headers::Tpl;

/// A meter's keys, made ready for use: where many messages of a meter are opened, this saves making them ready for each.
#[derive(Drop)]
pub struct MeterKeys {
    first: MeterKey,
    other: Option<MeterKey>,
}

// A contract sees the two keys alone.
impl Model for MeterKeys {
    ghost use Rattle.message_check.specs.Keys.{TwoKeys};

    ghost Value = { TwoKeys };

    ghost view = { λ k. record { first = k.first; other = k.other } };
}

impl MeterKeys {
    /// Makes the keys of a commission ready.
    pub fn new(commission: &Commission) -> MeterKeys
        ensures { result ≡ keys_of commission.now }
    {
        MeterKeys {
            first: MeterKey::new(&commission.key),
            other: made_ready(commission.other),
        }
    }

    /// Makes this the second key, whether there was one before or not.
    pub fn renew_other(&mut self, key: &[u8; 16])
        ensures { self.new ≡ record self.old { other = Some key.now } }
    {
        self.other = Some(MeterKey::new(key));
    }

    /// The first key, which secures what is sent to the meter and every message of security mode 5.
    pub fn first(&self) -> &MeterKey
        ensures { result.now ≡ self.now.first }
    {
        &self.first
    }

    // The key of a message with this header: the second one for the key id 1, where there is a second one.
    pub(crate) fn of_message(&self, tpl: &Tpl) -> &MeterKey
        ensures { result.now ≡ key_among self.now tpl.now }
    {
        match &self.other {
            Some(other) if tpl.key_id().unwrap_or(0) == 1 => other,
            _ => &self.first,
        }
    }
}

// The key made ready, where there is one.
fn made_ready(key: Option<[u8; 16]>) -> Option<MeterKey>
    ensures { result ≡ key }
{
    match key {
        None => None,
        Some(key) => Some(MeterKey::new(&key)),
    }
}
