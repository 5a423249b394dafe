//! The rows of all meters.

ghost use Rattle.std.specs.Prelude.{◌≡◌, ◌<◌, ◌^◌, length, IfSome, OnOk, OnErr};
ghost use Rattle.usage_totals.specs.Amounts.{IsWithin};
ghost use Rattle.usage_totals.specs.Usage.{usage_at};
ghost use Rattle.usage_totals.specs.Table.{rows_at, added, replaced, removed};

use crate::amounts::Amounts;
use crate::key::UsageKey;
use crate::meter::Meter;
use indexmap::IndexMap;
use meter_address::Address;
use outer_io::Memory;
use std::alloc::Global;

/// Adds a row as the last one of an address.
pub fn put(
    alloc: Global,
    meters: &mut IndexMap<Address, Meter>,
    address: Address,
    row: Amounts,
) -> Result<(), Memory>
    ensures ok { OnOk result (meters.new.entries ≡ added meters.old.entries address row) }
    ensures err { OnErr result (meters.new.entries ≡ meters.old.entries) }
{
    if let Some(meter) = meters.get_mut(&address) {
        return meter.push(row);
    }
    let mut meter = Meter::new(alloc);
    meter.push(row)?;
    meters.insert(address, meter)?;
    Ok(())
}

/// Replaces the row of an address at a place. For want of memory no row changes.
pub fn swap(
    meters: &mut IndexMap<Address, Meter>,
    address: Address,
    place: usize,
    row: Amounts,
) -> Result<(), Memory>
    requires { place < length (rows_at address meters.old.entries) }
    ensures ok { OnOk result (meters.new.entries ≡ replaced meters.old.entries address place row) }
    ensures err { OnErr result (meters.new.entries ≡ meters.old.entries) }
{
    if let Some(meter) = meters.get_mut(&address) {
        return meter.replace(place, row);
    }
    Ok(())
}

/// How many rows an address has.
pub fn count(meters: &IndexMap<Address, Meter>, address: Address) -> usize
    ensures { result ≡ length (rows_at address meters.now.entries) }
{
    match meters.get(&address) {
        Some(meter) => meter.count(),
        None => 0,
    }
}

/// What an address used by its rows.
pub fn usage_of(meters: &IndexMap<Address, Meter>, address: Address, key: &UsageKey) -> Option<i128>
    ensures is { result ≡ usage_at key.now (rows_at address meters.now.entries) }
    ensures small { IfSome result (IsWithin (2 ^ 81)) }
{
    match meters.get(&address) {
        Some(meter) => meter.usage(key),
        None => None,
    }
}

/// Removes the row of an address at a place.
pub fn take(meters: &mut IndexMap<Address, Meter>, address: Address, place: usize)
    requires { place < length (rows_at address meters.old.entries) }
    ensures { meters.new.entries ≡ removed meters.old.entries address place }
{
    if count(meters, address) == 1 {
        meters.shift_remove(&address);
        return;
    }
    if let Some(meter) = meters.get_mut(&address) {
        meter.remove(place);
    }
}
