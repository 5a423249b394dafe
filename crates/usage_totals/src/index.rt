//! The amounts of a meter's rows by key.

use crate::amounts::Amounts;
use crate::key::UsageKey;
use crate::series::Series;
use outer_io::Memory;
use std::alloc::Global;
use std::collections::BTreeMap;
use std::marker::Model;

/// The amounts of a meter's rows by key, those of a key by the numbers of the rows.
#[derive(Drop)]
pub struct Index {
    alloc: Global,
    by_key: BTreeMap<UsageKey, Series>,
}

impl Model for Index {
    ghost use Rattle.std.specs.Prelude.{List};
    ghost use Rattle.usage_totals.specs.declared.key.UsageKey.{UsageKey};
    ghost use Rattle.usage_totals.specs.Indexed.{Numbered};

    ghost Value = { List (UsageKey × Numbered) };

    ghost view = { λ i. i.by_key.entries };
}

impl Index {
    ghost use Rattle.std.specs.Prelude.{◌≡◌, ◌⊎◌, ◌^◌, cond, [], true, false, None, Some, is_some, IfSome, OnOk, OnErr};
    ghost use Rattle.std.specs.Ordering.{is_eq};
    ghost use Rattle.std.specs.Map.{lookup};
    ghost use Rattle.std.specs.BTreeMap.{is_at};
    ghost use Rattle.usage_totals.specs.declared.key.UsageKey.{UsageKey};
    ghost use Rattle.usage_totals.specs.Keys.{key_cmp};
    ghost use Rattle.usage_totals.specs.Amounts.{IsWithin, amount_at};
    ghost use Rattle.usage_totals.specs.Indexed.{without, with_put, with_set, with_amount, StandsAt, used, indexed};

    /// No amount.
    pub fn new(alloc: Global) -> Index
        ensures { result ≡ [] }
    {
        Index {
            alloc,
            by_key: BTreeMap::new(alloc),
        }
    }

    // Puts an amount of one key at a number, if there is one.
    fn put(&mut self, key: &UsageKey, number: u64, amount: Option<i128>) -> Result<(), Memory>
        requires { IfSome amount (IsWithin (2 ^ 80)) }
        ensures ok { OnOk result (indexed key.now self.new ≡ with_put number amount (indexed key.now self.old)) }
        ensures err { OnErr result (indexed key.now self.new ≡ indexed key.now self.old) }
        ensures others { (q : UsageKey) → is_eq (key_cmp key.now q) ≡ false → indexed q self.new ≡ indexed q self.old }
    {
        let Some(amount) = amount else {
            return Ok(());
        };
        if let Some(series) = self.by_key.get_mut(key) {
            return series.put(number, amount);
        }
        let mut series = Series::new(self.alloc);
        series.put(number, amount)?;
        self.by_key.insert(*key, series)?;
        Ok(())
    }

    // Puts the amounts of a row at a number. For want of memory those of some keys are put.
    fn put_all(&mut self, number: u64, row: &Amounts) -> Result<(), Memory>
        ensures ok { OnOk result ((q : UsageKey)
            → indexed q self.new ≡ with_put number (amount_at q row.now) (indexed q self.old)) }
        ensures err { OnErr result ((q : UsageKey) → (indexed q self.new ≡ indexed q self.old)
            ⊎ (indexed q self.new ≡ with_put number (amount_at q row.now) (indexed q self.old))) }
    {
        for key in row.keys() {
            self.put(key, number, row.amount(key))?;
        }
        Ok(())
    }

    // Sets the amount of one key at a number if there is one, or takes it away.
    fn set(&mut self, key: &UsageKey, number: u64, amount: Option<i128>)
        requires { IfSome amount (IsWithin (2 ^ 80)) }
        ensures here { indexed key.now self.new ≡ with_set number amount (indexed key.now self.old) }
        ensures others { (q : UsageKey) → is_eq (key_cmp key.now q) ≡ false → indexed q self.new ≡ indexed q self.old }
    {
        if let Some(series) = self.by_key.get_mut(key) {
            series.set(number, amount);
        }
    }

    // Whether a key is kept without an amount.
    fn is_bare(&self, key: &UsageKey) -> bool
        ensures { result ≡ true → lookup (is_at (key_cmp key.now)) self.now ≡ Some [] }
    {
        match self.by_key.get(key) {
            Some(series) => series.is_empty(),
            None => false,
        }
    }

    // Forgets a key that has no amount.
    fn tidy(&mut self, key: &UsageKey)
        ensures { (q : UsageKey) → indexed q self.new ≡ indexed q self.old }
    {
        if self.is_bare(key) {
            self.by_key.remove(key);
        }
    }

    // Gives the keys of one row the amounts of another one at a number, where they have any.
    fn set_all(&mut self, number: u64, keys: &Amounts, row: &Amounts)
        ensures { (q : UsageKey) → indexed q self.new
            ≡ cond (is_some (amount_at q keys.now)) (with_set number (amount_at q row.now) (indexed q self.old)) (indexed q self.old) }
    {
        for key in keys.keys() {
            self.set(key, number, row.amount(key));
            self.tidy(key);
        }
    }

    /// Has the amounts of a new row at the number of an old one. For want of memory no key's amounts change.
    pub fn change(&mut self, number: u64, old: &Amounts, new: &Amounts) -> Result<(), Memory>
        requires { (q : UsageKey) → StandsAt number (amount_at q old.now) (indexed q self.old) }
        ensures ok { OnOk result ((q : UsageKey)
            → indexed q self.new ≡ with_amount number (amount_at q new.now) (indexed q self.old)) }
        ensures err { OnErr result ((q : UsageKey) → indexed q self.new ≡ indexed q self.old) }
    {
        match self.put_all(number, new) {
            Ok(()) => {
                self.set_all(number, old, new);
                return Ok(());
            }
            Err(memory) => {
                self.set_all(number, new, old);
                return Err(memory);
            }
        }
    }

    /// Has the amounts of a row at a number that has none yet. For want of memory no key's amounts change.
    pub fn add(&mut self, number: u64, row: &Amounts) -> Result<(), Memory>
        requires { (q : UsageKey) → StandsAt number None (indexed q self.old) }
        ensures ok { OnOk result ((q : UsageKey)
            → indexed q self.new ≡ with_amount number (amount_at q row.now) (indexed q self.old)) }
        ensures err { OnErr result ((q : UsageKey) → indexed q self.new ≡ indexed q self.old) }
    {
        self.change(number, &Amounts::nothing(self.alloc), row)
    }

    /// Has no longer the amounts of a row at its number.
    pub fn remove(&mut self, number: u64, row: &Amounts)
        requires { (q : UsageKey) → StandsAt number (amount_at q row.now) (indexed q self.old) }
        ensures { (q : UsageKey) → indexed q self.new ≡ without number (indexed q self.old) }
    {
        self.set_all(number, row, &Amounts::nothing(self.alloc));
    }

    /// What was used by the amounts of a key.
    pub fn usage(&self, key: &UsageKey) -> Option<i128>
        ensures is { result ≡ used (indexed key.now self.now) }
        ensures small { IfSome result (IsWithin (2 ^ 81)) }
    {
        match self.by_key.get(key) {
            Some(series) => series.usage(),
            None => None,
        }
    }

    /// What was used by the amounts of a key but the one at a number.
    pub fn usage_without(&self, number: u64, key: &UsageKey) -> Option<i128>
        ensures is { result ≡ used (without number (indexed key.now self.now)) }
        ensures small { IfSome result (IsWithin (2 ^ 81)) }
    {
        match self.by_key.get(key) {
            Some(series) => series.usage_without(number),
            None => None,
        }
    }
}
