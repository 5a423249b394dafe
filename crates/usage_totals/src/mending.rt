//! Running sums, mended where a meter's usage changes.

ghost use Rattle.std.specs.Prelude.{◌≡◌, ◌^◌, ◌<◌, true, false, length, remove, slice_index_or, is_some, IfSome, OnOk};
ghost use Rattle.std.specs.Ordering.{is_eq};
ghost use Rattle.usage_totals.specs.declared.key.UsageKey.{UsageKey};
ghost use Rattle.usage_totals.specs.declared.sums.Sum.{Sum};
ghost use Rattle.usage_totals.specs.Keys.{key_cmp};
ghost use Rattle.usage_totals.specs.Amounts.{IsWithin, Row, amount_at};
ghost use Rattle.usage_totals.specs.Usage.{side, usage_at};
ghost use Rattle.usage_totals.specs.Sums.{with_usage, sum_at, find_sum, has_sum, total_at, IsFitting};
ghost use Rattle.usage_totals.specs.Table.{rows_at, with_rows};

use crate::amounts::Amounts;
use crate::key::UsageKey;
use crate::meter::Meter;
use crate::sums::Sum;
use indexmap::IndexMap;
use meter_address::Address;
use outer_io::Memory;
use std::collections::BTreeMap;

// The sum without a meter's usage.
fn without_usage(sum: Sum, used: Option<i128>) -> Sum
    requires fitting { IsFitting (2 ^ 100) sum }
    requires small { IfSome used (IsWithin (2 ^ 81)) }
    requires counted { (rest : Sum) × (sum ≡ with_usage used rest) }
    ensures is { (rest : Sum) → sum ≡ with_usage used rest → result ≡ rest }
    ensures fitting { IsFitting (2 ^ 101) result }
{
    match used {
        None => sum,
        Some(used) => Sum {
            meters: sum.meters - 1,
            amount: sum.amount - used,
        },
    }
}

// The sum with one more meter's usage.
fn with_usage(sum: Sum, used: Option<i128>) -> Sum
    requires fitting { IsFitting (2 ^ 101) sum }
    requires small { IfSome used (IsWithin (2 ^ 81)) }
    ensures { result ≡ with_usage used sum }
{
    match used {
        None => sum,
        Some(used) => Sum {
            meters: sum.meters + 1,
            amount: sum.amount + used,
        },
    }
}

// The sum after a meter's usage changed.
fn changed(sum: Sum, before: Option<i128>, after: Option<i128>) -> Sum
    requires fitting { IsFitting (2 ^ 100) sum }
    requires before { IfSome before (IsWithin (2 ^ 81)) }
    requires after { IfSome after (IsWithin (2 ^ 81)) }
    requires counted { (rest : Sum) × (sum ≡ with_usage before rest) }
    ensures { (rest : Sum) → sum ≡ with_usage before rest → result ≡ with_usage after rest }
{
    with_usage(without_usage(sum, before), after)
}

// The sum of one key changes.
fn change_at(
    sums: &mut BTreeMap<UsageKey, Sum>,
    key: &UsageKey,
    before: Option<i128>,
    after: Option<i128>,
)
    requires there { has_sum key.now sums.old.entries ≡ true }
    requires fitting { IsFitting (2 ^ 100) (sum_at key.now sums.old.entries) }
    requires before { IfSome before (IsWithin (2 ^ 81)) }
    requires after { IfSome after (IsWithin (2 ^ 81)) }
    requires counted { (rest : Sum) × (sum_at key.now sums.old.entries ≡ with_usage before rest) }
    ensures here { (rest : Sum) → sum_at key.now sums.old.entries ≡ with_usage before rest
        → sum_at key.now sums.new.entries ≡ with_usage after rest }
    ensures others { (q : UsageKey) → is_eq (key_cmp key.now q) ≡ false
        → find_sum q sums.new.entries ≡ find_sum q sums.old.entries }
    ensures stays { has_sum key.now sums.new.entries ≡ true }
{
    if let Some(sum) = sums.get_mut(key) {
        *sum = changed(*sum, before, after);
    }
}

// What was used before the row at a place comes and after it, or before it goes and after it.
fn usages(meter: &Meter, place: usize, key: &UsageKey, comes: bool) -> (Option<i128>, Option<i128>)
    requires { place < length meter.now }
    ensures before { result.0 ≡ usage_at key.now (side comes (remove meter.now place) meter.now) }
    ensures after { result.1 ≡ usage_at key.now (side comes meter.now (remove meter.now place)) }
    ensures small_before { IfSome result.0 (IsWithin (2 ^ 81)) }
    ensures small_after { IfSome result.1 (IsWithin (2 ^ 81)) }
{
    let with = meter.usage(key);
    let without = meter.usage_without(place, key);
    if comes {
        (without, with)
    } else {
        (with, without)
    }
}

/// Mends the sums where the row at a place comes to a meter, or is to go from it.
pub fn mend(sums: &mut BTreeMap<UsageKey, Sum>, meter: &Meter, place: usize, comes: bool)
    requires place { place < length meter.now }
    requires there { (q : UsageKey) (d : Row)
        → is_some (amount_at q (slice_index_or meter.now place d)) ≡ true → has_sum q sums.old.entries ≡ true }
    requires fitting { (q : UsageKey) → IsFitting (2 ^ 100) (sum_at q sums.old.entries) }
    requires counted { (q : UsageKey) → (rest : Sum)
        × (sum_at q sums.old.entries ≡ with_usage (usage_at q (side comes (remove meter.now place) meter.now)) rest) }
    ensures stays { (q : UsageKey) → has_sum q sums.old.entries ≡ true → has_sum q sums.new.entries ≡ true }
    ensures mended { (q : UsageKey) (rest : Sum)
        → sum_at q sums.old.entries ≡ with_usage (usage_at q (side comes (remove meter.now place) meter.now)) rest
        → sum_at q sums.new.entries ≡ with_usage (usage_at q (side comes meter.now (remove meter.now place))) rest }
{
    let row = meter.row(place);
    for key in row.keys() {
        let (before, after) = usages(meter, place, key, comes);
        change_at(sums, key, before, after);
    }
}

// Makes room for one key's sum.
fn room_at(sums: &mut BTreeMap<UsageKey, Sum>, key: &UsageKey) -> Result<(), Memory>
    ensures same { (q : UsageKey) → sum_at q sums.new.entries ≡ sum_at q sums.old.entries }
    ensures stays { (q : UsageKey) → has_sum q sums.old.entries ≡ true → has_sum q sums.new.entries ≡ true }
    ensures here { OnOk result (has_sum key.now sums.new.entries ≡ true) }
{
    if !sums.contains_key(key) {
        sums.insert(
            *key,
            Sum {
                meters: 0,
                amount: 0,
            },
        )?;
    }
    Ok(())
}

/// Makes room for the sums of all that a row has amounts of. No sum changes.
pub fn make_room(sums: &mut BTreeMap<UsageKey, Sum>, row: &Amounts) -> Result<(), Memory>
    ensures same { (q : UsageKey) → sum_at q sums.new.entries ≡ sum_at q sums.old.entries }
    ensures there { OnOk result ((q : UsageKey) → is_some (amount_at q row.now) ≡ true → has_sum q sums.new.entries ≡ true) }
{
    for key in row.keys() {
        room_at(sums, key)?;
    }
    Ok(())
}

/// Mends the sums where the row of an address at a place comes, or is to go.
pub fn mend_at(
    sums: &mut BTreeMap<UsageKey, Sum>,
    meters: &IndexMap<Address, Meter>,
    address: Address,
    place: usize,
    comes: bool,
)
    requires place { place < length (rows_at address meters.now.entries) }
    requires there { (q : UsageKey) (d : Row)
        → is_some (amount_at q (slice_index_or (rows_at address meters.now.entries) place d)) ≡ true
        → has_sum q sums.old.entries ≡ true }
    requires fitting { (q : UsageKey) → IsFitting (2 ^ 100) (sum_at q sums.old.entries) }
    requires totals { (q : UsageKey) → sum_at q sums.old.entries ≡ total_at q (with_rows meters.now.entries address
        (side comes (remove (rows_at address meters.now.entries) place) (rows_at address meters.now.entries))) }
    ensures stays { (q : UsageKey) → has_sum q sums.old.entries ≡ true → has_sum q sums.new.entries ≡ true }
    ensures totals { (q : UsageKey) → sum_at q sums.new.entries ≡ total_at q (with_rows meters.now.entries address
        (side comes (rows_at address meters.now.entries) (remove (rows_at address meters.now.entries) place))) }
{
    let Some(meter) = meters.get(&address) else {
        return;
    };
    mend(sums, meter, place, comes);
}
