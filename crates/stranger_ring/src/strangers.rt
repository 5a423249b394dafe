//! The book of strangers.
use crate::ring::Ring;
use meter_address::Address;
use outer_io::Memory;
use std::alloc::Global;
use std::marker::Model;

/// A line of a stranger: its receiver, its number there, and the address.
#[derive(Clone, Copy)]
pub struct Heard {
    /// The receiver, from 1.
    pub source: u32,
    /// The number of the line, from 1.
    pub line: u32,
    /// The stranger.
    pub address: Address,
}

/// All lines of strangers in the order in which they came, and a ring of the last 256 addresses.
#[derive(Drop)]
pub struct Strangers {
    heard: Vec<Heard>,
    ring: Ring,
}

impl Model for Strangers {
    ghost use Rattle.std.specs.Prelude.{◌≡◌, List};
    ghost use Rattle.stranger_ring.specs.declared.strangers.Heard.{Heard};
    ghost use Rattle.stranger_ring.specs.Ring.{ring_of};

    ghost Value = { List Heard };

    ghost view = { λ s. s.heard.items };

    ghost invariant = { λ s. s.ring ≡ ring_of s.heard.items };
}

impl Strangers {
    ghost use Rattle.std.specs.Prelude.{◌≡◌, ◌≤◌, [], ◌∷◌, ◌++◌, length, slice_get, OnOk, OnErr};
    ghost use Rattle.stranger_ring.specs.Ring.{ring_of};

    /// No stranger yet.
    pub fn new(alloc: Global) -> Strangers
        ensures { result ≡ [] }
    {
        Strangers {
            heard: Vec::new(alloc),
            ring: Ring::new(alloc),
        }
    }

    /// Notes a line of a stranger. Where the ring is full its oldest address leaves it. For want of memory nothing changes.
    pub fn note(&mut self, source: u32, line: u32, address: Address) -> Result<(), Memory>
        ensures ok { OnOk result (self.new ≡ self.old ++ record { source = source; line = line; address = address } ∷ []) }
        ensures err { OnErr result (self.new ≡ self.old) }
    {
        self.heard.reserve(1)?;
        self.ring.push(address)?;
        self.heard.push_reserved(Heard {
            source,
            line,
            address,
        });
        Ok(())
    }

    /// All lines of strangers, the first one first.
    pub fn heard(&self) -> &[Heard]
        ensures { result.now ≡ self.now }
    {
        self.heard.as_slice()
    }

    /// How many addresses the ring has: all, or 256 where there are more.
    pub fn ring_len(&self) -> usize
        ensures count { result ≡ length (ring_of self.now) }
        ensures few { result ≤ 256 }
    {
        self.ring.len()
    }

    /// The address at a place of the ring, the oldest one first: none exactly where there is no such place.
    pub fn ring_at(&self, place: usize) -> Option<Address>
        ensures { result ≡ slice_get (ring_of self.now) place }
    {
        self.ring.get(place)
    }
}
