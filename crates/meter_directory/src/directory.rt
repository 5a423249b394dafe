//! Where each meter's slot stands.
use indexmap::IndexSet;
use meter_address::Address;
use outer_io::Memory;
use std::alloc::Global;
use std::marker::Model;

/// The places of addresses in a list, found in constant time.
#[derive(Drop)]
pub struct Directory {
    places: IndexSet<Address>,
}

impl Model for Directory {
    ghost use Rattle.std.specs.Prelude.{◌<◌, ◌^◌, List, length};
    ghost use Rattle.meter_address.specs.declared.address.Address.{Address};

    ghost Value = { List Address };

    ghost view = { λ d. d.places.keys };

    ghost invariant = { λ d. length d.places.keys < 2 ^ 32 };
}

impl Directory {
    ghost use Rattle.std.specs.Prelude.{◌≡◌, ◌==◌, ◌<◌, ◌^◌, length, position, IfOk};
    ghost use Rattle.meter_address.specs.Address.{AreApart};

    /// The directory of addresses that differ.
    pub fn new(alloc: Global, addresses: &[Address]) -> Result<Directory, Memory>
        requires apart { AreApart addresses.now }
        requires few { length addresses.now < 2 ^ 32 }
        ensures { IfOk result (λ directory. directory ≡ addresses.now) }
    {
        let mut places = IndexSet::with_capacity(alloc, addresses.len())?;
        for address in addresses {
            places.insert(*address)?;
        }
        Ok(Directory { places })
    }

    /// The place of an address: none exactly where it isn't in the list.
    pub fn find(&self, address: Address) -> Option<u32>
        ensures { result ≡ position (λ a. a.0 == address.0) self.now }
    {
        match self.places.get_index_of(&address) {
            Some(place) => Some(place as u32),
            None => None,
        }
    }
}
