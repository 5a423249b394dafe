//! The amounts of one payload.

ghost use Rattle.std.specs.Prelude.{◌≡◌, OnOk};
ghost use Rattle.dif_vif.specs.Spans.{IsSpanOf};
ghost use Rattle.usage_totals.specs.Amounts.{is_small, whole, key_of, given, noted_if};

use crate::key::UsageKey;
use dif_vif::{RecordSpan, next_record};
use outer_io::Memory;
use record_values::{Value, unit_of, value_of};
use std::alloc::Global;
use std::collections::BTreeMap;
use std::collections::btree_map::Keys;
use std::marker::Model;

/// Amounts lie strictly between this number's negative and this number.
const LIMIT: i128 = 1 << 80;

fn is_small(amount: i128) -> bool
    ensures { result ≡ is_small amount }
{
    -LIMIT < amount && amount < LIMIT
}

fn whole(value: Value) -> Option<i128>
    ensures { result ≡ whole value }
{
    match value {
        Value::Whole(amount) => { if is_small(amount) { Some(amount) } else { None } }
        _ => None,
    }
}

#[tactic(auto, unfolding(crate::specs::Amounts::key_of))]
fn key_of(payload: &[u8], span: &RecordSpan) -> UsageKey
    requires { IsSpanOf payload.now span.now }
    ensures { result ≡ key_of payload.now span.now }
{
    let unit = unit_of(payload, span);
    UsageKey {
        storage: span.storage,
        tariff: span.tariff,
        subunit: span.subunit,
        quantity: unit.quantity,
        name: unit.name,
        exponent: unit.exponent,
    }
}

#[tactic(auto, unfolding(crate::specs::Amounts::given), using(crate::proofs::Records::not_instantaneous))]
fn given(payload: &[u8], span: &RecordSpan) -> Option<(UsageKey, i128)>
    requires { IsSpanOf payload.now span.now }
    ensures { result ≡ given payload.now span.now }
{
    if span.function == 0 {
        let amount = whole(value_of(payload, span))?;
        Some((key_of(payload, span), amount))
    } else {
        None
    }
}

/// The amounts of a payload, in the order of what they are of.
#[derive(Drop)]
pub struct Amounts {
    entries: BTreeMap<UsageKey, i128>,
}

impl Model for Amounts {
    ghost use Rattle.usage_totals.specs.Amounts.{Row, AreSmall};

    ghost Value = { Row };

    ghost view = { λ a. a.entries.entries };

    ghost invariant = { λ a. AreSmall a.entries.entries };
}

// Notes what a record gives.
fn note(
    entries: &mut BTreeMap<UsageKey, i128>,
    found: Option<(UsageKey, i128)>,
) -> Result<(), Memory>
    ensures { OnOk result (entries.new.entries ≡ noted_if entries.old.entries found) }
{
    if let Some((key, amount)) = found {
        if !entries.contains_key(&key) {
            entries.insert(key, amount)?;
        }
    }
    Ok(())
}

impl Amounts {
    ghost use Rattle.std.specs.Prelude.{◌≡◌, ◌^◌, [], IfOk, IfSome};
    ghost use Rattle.std.specs.List.Sorted.{IsStrictlySortedBy};
    ghost use Rattle.std.specs.Map.{keys_of};
    ghost use Rattle.usage_totals.specs.Keys.{key_cmp};
    ghost use Rattle.usage_totals.specs.Amounts.{row_of, amount_at, IsWithin};

    /// No amount.
    pub fn nothing(alloc: Global) -> Amounts
        ensures { result ≡ [] }
    {
        Amounts {
            entries: BTreeMap::new(alloc),
        }
    }

    /// The amounts of a payload. Only want of memory is answered otherwise.
    pub fn of_payload(alloc: Global, payload: &[u8]) -> Result<Amounts, Memory>
        ensures { IfOk result (λ row. row ≡ row_of payload.now) }
    {
        let mut entries = BTreeMap::new(alloc);
        let mut from = 0usize;
        'records: loop {
            match next_record(payload, from) {
                Err(_fault) => break,
                Ok(None) => break,
                Ok(Some(span)) => {
                    note(&mut entries, given(payload, &span))?;
                    from = span.end;
                }
            }
        }
        Ok(Amounts { entries })
    }

    /// What these are amounts of, in order.
    pub fn keys(&self) -> Keys<'_, UsageKey, i128>
        ensures rest { result ≡ keys_of self.now }
        ensures ordered { IsStrictlySortedBy key_cmp (keys_of self.now) }
    {
        self.entries.keys()
    }

    /// The amount of this key.
    pub fn amount(&self, key: &UsageKey) -> Option<i128>
        ensures is { result ≡ amount_at key.now self.now }
        ensures small { IfSome result (IsWithin (2 ^ 80)) }
    {
        self.entries.get(key).copied()
    }
}
