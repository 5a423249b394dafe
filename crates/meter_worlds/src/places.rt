//! Where each meter's slot stands.
ghost use Rattle.std.specs.Prelude.{◌≡◌, ◌<◌, ◌^◌, IfOk, length, map};
ghost use Rattle.meter_address.specs.Address.{AreApart};

use meter_directory::Directory;
use meter_slots::{MeterStart, addresses_of};
use outer_io::Memory;
use std::alloc::Global;

/// Where each meter's slot stands.
pub(crate) fn directory_of(alloc: Global, starts: &[MeterStart]) -> Result<Directory, Memory>
    requires apart { AreApart (map (λ c. c.address) starts.now) }
    requires few { length starts.now < 2 ^ 32 }
    ensures { IfOk result (λ directory. directory ≡ map (λ c. c.address) starts.now) }
{
    let addresses = addresses_of(alloc, starts)?;
    Directory::new(alloc, addresses.as_slice())
}
