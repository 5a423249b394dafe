//! The meters of a made session.
ghost use Rattle.std.specs.Prelude.{◌≡◌, ◌+◌, ◌<◌, ◌≤◌, ◌^◌, IfOk};
ghost use Rattle.made_input.specs.Meters.{bcd_byte, bcd, address_at, meters_of};

use crate::draws::Draws;
use meter_address::{Address, Commission, Mode};
use outer_io::Memory;
use std::alloc::Global;

fn bcd_byte(n: u32) -> u8
    ensures { result ≡ bcd_byte n }
{
    (n / 10 % 10 * 16 + n % 10) as u8
}

/// The last eight decimal digits of a number, two in a byte, the low byte first.
#[tactic(auto, unfolding(crate::specs::Meters::bcd))]
pub(crate) fn bcd(n: u32) -> [u8; 4]
    ensures { result ≡ bcd n }
{
    [
        bcd_byte(n),
        bcd_byte(n / 100),
        bcd_byte(n / 10_000),
        bcd_byte(n / 1_000_000),
    ]
}

fn address_at(place: u32) -> Address
    requires { place < 2 ^ 31 }
    ensures { result ≡ address_at place }
{
    let [i, j, k, l] = bcd(place + 1);
    Address::from_bytes([0x93, 0x15, i, j, k, l, 0x01, 0x07])
}

/// So many meters, whose keys are drawn from a number.
pub(crate) fn drawn_meters(
    alloc: Global,
    count: u32,
    number: u64,
) -> Result<Vec<Commission>, Memory>
    requires { count ≤ 1024 }
    ensures { IfOk result (λ meters. meters.items ≡ meters_of count number) }
{
    let mut draws = Draws { state: number };
    let mut meters = Vec::new(alloc);
    for place in 0..count {
        meters.push(Commission {
            address: address_at(place),
            mode: Mode::Seven,
            key: draws.key(),
            other: None,
            last: None,
            down: 0,
            ids: 0,
        })?;
    }
    Ok(meters)
}
