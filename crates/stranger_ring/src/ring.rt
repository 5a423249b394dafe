//! The ring of the last addresses.
use circular_buffer::HeapCircularBuffer;
use meter_address::Address;
use outer_io::Memory;
use std::alloc::Global;
use std::marker::Model;

/// How many of the last strangers the ring has.
pub const RING_MAX: usize = 256;

/// The last 256 of the addresses that were pushed. Its buffer is made when the first one comes.
#[derive(Drop)]
pub(crate) struct Ring {
    alloc: Global,
    buffer: Option<HeapCircularBuffer<Address>>,
}

impl Model for Ring {
    ghost use Rattle.std.specs.Prelude.{◌≡◌, List, IfSome};
    ghost use Rattle.meter_address.specs.declared.address.Address.{Address};
    ghost use Rattle.stranger_ring.specs.Ring.{kept_in};

    ghost Value = { List Address };

    ghost view = { λ r. kept_in r.buffer };

    ghost invariant = { λ r. IfSome r.buffer (λ b. b.capacity ≡ 256) };
}

impl Ring {
    ghost use Rattle.std.specs.Prelude.{◌≡◌, ◌≤◌, [], ◌∷◌, ◌++◌, length, slice_get, OnOk, OnErr};
    ghost use Rattle.circular_buffer.specs.Buffer.{keep_last};

    /// No address yet.
    pub(crate) fn new(alloc: Global) -> Ring
        ensures { result ≡ [] }
    {
        Ring {
            alloc,
            buffer: None,
        }
    }

    /// Puts an address behind the others. Where the ring is full the oldest one leaves it. For want of memory nothing changes.
    pub(crate) fn push(&mut self, address: Address) -> Result<(), Memory>
        ensures ok { OnOk result (self.new ≡ keep_last 256 (self.old ++ address ∷ [])) }
        ensures err { OnErr result (self.new ≡ self.old) }
    {
        if let Some(buffer) = &mut self.buffer {
            buffer.push_back(address);
            return Ok(());
        }
        let mut buffer = HeapCircularBuffer::with_capacity(self.alloc, RING_MAX)?;
        buffer.push_back(address);
        self.buffer = Some(buffer);
        Ok(())
    }

    /// How many addresses it has.
    pub(crate) fn len(&self) -> usize
        ensures count { result ≡ length self.now }
        ensures few { result ≤ 256 }
    {
        match &self.buffer {
            Some(buffer) => buffer.len(),
            None => 0,
        }
    }

    /// The address at a place, the oldest one first: none exactly where there is no such place.
    pub(crate) fn get(&self, place: usize) -> Option<Address>
        ensures { result ≡ slice_get self.now place }
    {
        match &self.buffer {
            Some(buffer) => buffer.get(place).copied(),
            None => None,
        }
    }
}
