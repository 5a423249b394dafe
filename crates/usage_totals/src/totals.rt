//! The usages of all meters, with their totals.

ghost use Rattle.std.specs.Prelude.{◌≡◌, [], ◌∷◌, ◌++◌, IfOk, OnOk};
ghost use Rattle.std.specs.List.Sorted.{IsStrictlySortedBy};
ghost use Rattle.std.specs.Map.{keys_of};
ghost use Rattle.usage_totals.specs.Keys.{key_cmp};
ghost use Rattle.usage_totals.specs.Sums.{as_pair, used_keys};
ghost use Rattle.usage_totals.specs.Faults.{add_fault, place_fault};

use crate::edits::{add_row, remove_row, replace_row};
use crate::fault::TotalsFault;
use crate::key::UsageKey;
use crate::meter::Meter;
use crate::meters::{count, usage_of};
use crate::sums::Sum;
use indexmap::IndexMap;
use meter_address::Address;
use outer_io::Memory;
use std::alloc::Global;
use std::collections::BTreeMap;
use std::marker::Model;

/// The rows of all meters, and running sums of their usages that each edit mends.
#[derive(Drop)]
pub struct Totals {
    alloc: Global,
    meters: IndexMap<Address, Meter>,
    sums: BTreeMap<UsageKey, Sum>,
}

impl Model for Totals {
    ghost use Rattle.usage_totals.specs.Amounts.{Row};
    ghost use Rattle.usage_totals.specs.Table.{Table, IsKept};

    ghost Value = { Table Row };

    ghost view = { λ t. t.meters.entries };

    ghost invariant = { λ t. IsKept t.meters.entries t.sums.entries };
}

/// At most so many addresses have rows.
const MOST_METERS: usize = 4096;

/// An address has at most so many rows.
const MOST_ROWS: usize = 65536;

// Why no row may be added.
fn add_fault(meters: &IndexMap<Address, Meter>, address: Address) -> Option<TotalsFault>
    ensures { result ≡ add_fault address meters.now.entries }
{
    let rows = count(meters, address);
    if rows == 0 && meters.len() == MOST_METERS {
        Some(TotalsFault::Meters)
    } else if rows == MOST_ROWS {
        Some(TotalsFault::Rows)
    } else {
        None
    }
}

// Why there is no row at a place.
fn place_fault(
    meters: &IndexMap<Address, Meter>,
    address: Address,
    place: u32,
) -> Option<TotalsFault>
    ensures { result ≡ place_fault address place meters.now.entries }
{
    if (place as usize) < count(meters, address) {
        None
    } else {
        Some(TotalsFault::NoSuch(place))
    }
}

// The two numbers of a sum.
fn pair_of(sum: Sum) -> (u32, i128)
    ensures { result ≡ as_pair sum }
{
    (sum.meters, sum.amount)
}

// Notes a key whose sum some meter has a part in.
fn note_used(used: &mut Vec<UsageKey>, key: &UsageKey, sum: &Sum) -> Result<(), Memory>
    ensures { OnOk result (used.new.items ≡ used.old.items ++ used_keys ((key.now, sum.now) ∷ [])) }
{
    if sum.meters > 0 {
        used.push(*key)?;
    }
    Ok(())
}

// The keys whose sums some meter has a part in.
fn used_keys(alloc: Global, sums: &BTreeMap<UsageKey, Sum>) -> Result<Vec<UsageKey>, Memory>
    ensures is { IfOk result (λ keys. keys.items ≡ used_keys sums.now.entries) }
    ensures ordered { IsStrictlySortedBy key_cmp (keys_of sums.now.entries) }
{
    let mut used = Vec::new(alloc);
    for (key, sum) in sums.iter() {
        note_used(&mut used, key, sum)?;
    }
    Ok(used)
}

impl Totals {
    ghost use Rattle.std.specs.Prelude.{◌≡◌, ◌≢◌, ◌^◌, [], List, Err, IfOk, IfSome};
    ghost use Rattle.usage_totals.specs.declared.fault.TotalsFault.{TotalsFault};
    ghost use Rattle.usage_totals.specs.Amounts.{IsWithin};
    ghost use Rattle.usage_totals.specs.Usage.{usage, usage_at};
    ghost use Rattle.usage_totals.specs.Sums.{total, total_at, as_pair, keys_in};
    ghost use Rattle.usage_totals.specs.Table.{rows_at};
    ghost use Rattle.usage_totals.specs.Edits.{Edit, addition, replacement, removal, rows_after, StandsFor, IsAnswered};

    /// No meter has a row.
    pub fn new(alloc: Global) -> Totals
        ensures { StandsFor [] result }
    {
        Totals {
            alloc,
            meters: IndexMap::new(alloc),
            sums: BTreeMap::new(alloc),
        }
    }

    /// What a meter used: the last amount that its rows have of this key less the first one, none where no row has one.
    pub fn usage(&self, address: Address, key: &UsageKey) -> Option<i128>
        ensures usage { (edits : List Edit) → StandsFor edits self.now → result ≡ usage (rows_at address (rows_after edits)) key.now }
        ensures kept { result ≡ usage_at key.now (rows_at address self.now) }
        ensures below { IfSome result (IsWithin (2 ^ 81)) }
    {
        usage_of(&self.meters, address, key)
    }

    /// Adds a payload's row as the last one of an address. After a fault nothing has changed.
    ///
    /// It is `Meters` exactly where the address has no row and 4,096 addresses have one, and `Rows` exactly where it has
    /// 65,536 rows; otherwise only memory may be wanting.
    pub fn add(&mut self, address: Address, payload: &[u8]) -> Result<(), TotalsFault>
        ensures { IsAnswered (addition address payload.now) self.old result self.new }
    {
        if let Some(fault) = add_fault(&self.meters, address) {
            return Err(fault);
        }
        match add_row(
            self.alloc,
            &mut self.meters,
            &mut self.sums,
            address,
            payload,
        ) {
            Ok(()) => Ok(()),
            Err(_memory) => Err(TotalsFault::Memory),
        }
    }

    /// Puts a payload's row in the place of another one. After a fault nothing has changed.
    ///
    /// It is `NoSuch` exactly where the address has no row at this place, from 0 on; otherwise only memory may be wanting.
    pub fn replace(
        &mut self,
        address: Address,
        place: u32,
        payload: &[u8],
    ) -> Result<(), TotalsFault>
        ensures { IsAnswered (replacement address place payload.now) self.old result self.new }
    {
        if let Some(fault) = place_fault(&self.meters, address, place) {
            return Err(fault);
        }
        match replace_row(
            self.alloc,
            &mut self.meters,
            &mut self.sums,
            address,
            place as usize,
            payload,
        ) {
            Ok(()) => Ok(()),
            Err(_memory) => Err(TotalsFault::Memory),
        }
    }

    /// Removes the row of an address at a place; those behind it move up. After a fault nothing has changed.
    ///
    /// It is `NoSuch` exactly where the address has no row at this place, from 0 on, and no other fault comes.
    pub fn remove(&mut self, address: Address, place: u32) -> Result<(), TotalsFault>
        ensures answered { IsAnswered (removal address place) self.old result self.new }
        ensures sure { result ≢ Err TotalsFault.Memory }
    {
        if let Some(fault) = place_fault(&self.meters, address, place) {
            return Err(fault);
        }
        remove_row(&mut self.meters, &mut self.sums, address, place as usize);
        Ok(())
    }

    // The sum of a key.
    fn sum(&self, key: &UsageKey) -> Sum
        ensures is { result ≡ total_at key.now self.now }
        ensures below { IsWithin (2 ^ 93) result.amount }
    {
        match self.sums.get(key) {
            Some(sum) => *sum,
            None => Sum {
                meters: 0,
                amount: 0,
            },
        }
    }

    /// How many meters have a usage of this key, and what these usages come to.
    pub fn total(&self, key: &UsageKey) -> (u32, i128)
        ensures total { (edits : List Edit) → StandsFor edits self.now → result ≡ as_pair (total (rows_after edits) key.now) }
        ensures kept { result ≡ as_pair (total_at key.now self.now) }
        ensures below { IsWithin (2 ^ 93) result.1 }
    {
        pair_of(self.sum(key))
    }

    /// The keys of which some meter has a usage, in order, each once.
    pub fn keys(&self) -> Result<Vec<UsageKey>, Memory>
        ensures { (edits : List Edit) → StandsFor edits self.now → IfOk result (λ keys. keys.items ≡ keys_in (rows_after edits)) }
    {
        used_keys(self.alloc, &self.sums)
    }
}
