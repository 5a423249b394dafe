//! Edits of the rows of all meters, with their running sums.

ghost use Rattle.std.specs.Prelude.{◌≡◌, ◌<◌, [], length, OnOk, OnErr};
ghost use Rattle.usage_totals.specs.Amounts.{row_of};
ghost use Rattle.usage_totals.specs.Table.{rows_at, added, replaced, removed, IsKept};

use crate::amounts::Amounts;
use crate::key::UsageKey;
use crate::mending::{make_room, mend_at};
use crate::meter::Meter;
use crate::meters::{count, put, swap, take};
use crate::sums::Sum;
use indexmap::IndexMap;
use meter_address::Address;
use outer_io::Memory;
use std::alloc::Global;
use std::collections::BTreeMap;

/// Adds a payload's row as the last one of an address. For want of memory no row changes.
pub fn add_row(
    alloc: Global,
    meters: &mut IndexMap<Address, Meter>,
    sums: &mut BTreeMap<UsageKey, Sum>,
    address: Address,
    payload: &[u8],
) -> Result<(), Memory>
    requires kept { IsKept meters.old.entries sums.old.entries }
    requires few { rows_at address meters.old.entries ≡ [] → length meters.old.entries < 4096 }
    ensures ok { OnOk result (meters.new.entries ≡ added meters.old.entries address (row_of payload.now)) }
    ensures err { OnErr result (meters.new.entries ≡ meters.old.entries) }
    ensures kept { IsKept meters.new.entries sums.new.entries }
{
    let row = Amounts::of_payload(alloc, payload)?;
    make_room(sums, &row)?;
    let place = count(meters, address);
    put(alloc, meters, address, row)?;
    mend_at(sums, meters, address, place, true);
    Ok(())
}

/// Removes the row of an address at a place.
pub fn remove_row(
    meters: &mut IndexMap<Address, Meter>,
    sums: &mut BTreeMap<UsageKey, Sum>,
    address: Address,
    place: usize,
)
    requires kept { IsKept meters.old.entries sums.old.entries }
    requires place { place < length (rows_at address meters.old.entries) }
    ensures removed { meters.new.entries ≡ removed meters.old.entries address place }
    ensures kept { IsKept meters.new.entries sums.new.entries }
{
    mend_at(sums, meters, address, place, false);
    take(meters, address, place);
}

/// Replaces the row of an address at a place by a payload's. For want of memory no row changes.
pub fn replace_row(
    alloc: Global,
    meters: &mut IndexMap<Address, Meter>,
    sums: &mut BTreeMap<UsageKey, Sum>,
    address: Address,
    place: usize,
    payload: &[u8],
) -> Result<(), Memory>
    requires kept { IsKept meters.old.entries sums.old.entries }
    requires place { place < length (rows_at address meters.old.entries) }
    ensures ok { OnOk result (meters.new.entries ≡ replaced meters.old.entries address place (row_of payload.now)) }
    ensures err { OnErr result (meters.new.entries ≡ meters.old.entries) }
    ensures kept { IsKept meters.new.entries sums.new.entries }
{
    let row = Amounts::of_payload(alloc, payload)?;
    make_room(sums, &row)?;
    mend_at(sums, meters, address, place, false);
    let swapped = swap(meters, address, place, row);
    mend_at(sums, meters, address, place, true);
    swapped
}
