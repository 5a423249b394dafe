//! The meters of a made session, ready to send.
ghost use Rattle.std.specs.Prelude.{◌≡◌, map, take, IfOk};
ghost use Rattle.meter_address.specs.Address.{bytes_of, identification_of};
ghost use Rattle.key_derivation.specs.Derivation.{derived};

use key_derivation::{KeyUse, MeterKey};
use meter_address::Commission;
use outer_io::Memory;
use std::alloc::Global;
use std::marker::Model;

/// A meter that sends, its key made ready once for all its telegrams.
#[derive(Drop)]
pub(crate) struct Sender {
    meter: Commission,
    key: MeterKey,
}

// A contract sees what is commissioned alone.
impl Model for Sender {
    ghost use Rattle.std.specs.Prelude.{◌≡◌};
    ghost use Rattle.meter_address.specs.Commission.{Commissioned};

    ghost Value = { Commissioned };

    ghost view = { λ s. s.meter };

    ghost invariant = { λ s. s.key ≡ s.meter.key };
}

impl Sender {
    /// Makes a meter ready.
    pub(crate) fn new(meter: Commission) -> Sender
        ensures { result ≡ meter }
    {
        let key = MeterKey::new(&meter.key);
        Sender { meter, key }
    }

    /// The address as it is sent.
    pub(crate) fn address_bytes(&self) -> [u8; 8]
        ensures { result ≡ bytes_of self.now.address }
    {
        self.meter.address.to_bytes()
    }

    /// The key of a message with this counter, for a use.
    pub(crate) fn derive(&self, purpose: KeyUse, n: u32) -> [u8; 16]
        ensures { result ≡ derived self.now.key purpose n (identification_of self.now.address) }
    {
        self.key
            .derive(purpose, n, self.meter.address.identification())
    }
}

/// Meters, ready to send.
pub(crate) fn senders(alloc: Global, meters: &[Commission]) -> Result<Vec<Sender>, Memory>
    ensures { IfOk result (λ senders. senders.items ≡ meters.now) }
{
    let mut senders = Vec::with_capacity(alloc, meters.len())?;
    for meter in meters {
        senders.push(Sender::new(*meter))?;
    }
    Ok(senders)
}
