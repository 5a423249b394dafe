//! The amounts of one key, and what was used by them.

ghost use Rattle.std.specs.Prelude.{◌≡◌, ◌^◌, false, IfSome, option_map};
ghost use Rattle.std.specs.Option.{unwrap_or};
ghost use Rattle.std.specs.Ordering.{nat_cmp};
ghost use Rattle.std.specs.BTreeMap.{is_at};
ghost use Rattle.usage_totals.specs.Amounts.{IsWithin};
ghost use Rattle.usage_totals.specs.Usage.{less};

use outer_io::Memory;
use std::alloc::Global;
use std::collections::BTreeMap;
use std::marker::Model;

/// The amounts of one key by the numbers of their rows.
#[derive(Drop)]
pub struct Series {
    amounts: BTreeMap<u64, i128>,
}

impl Model for Series {
    ghost use Rattle.usage_totals.specs.Amounts.{AreSmall};
    ghost use Rattle.usage_totals.specs.Indexed.{Numbered};

    ghost Value = { Numbered };

    ghost view = { λ s. s.amounts.entries };

    ghost invariant = { λ s. AreSmall s.amounts.entries };
}

// The amount of an entry.
fn amount_of(entry: Option<(&u64, &i128)>) -> Option<i128>
    ensures { result ≡ option_map (λ e. e.1.now) entry.entry }
{
    match entry {
        Some((_, amount)) => Some(*amount),
        None => None,
    }
}

// Whether an entry stands at a number.
fn is_of(entry: Option<(&u64, &i128)>, number: u64) -> bool
    ensures { result ≡ unwrap_or (option_map (λ e. is_at (nat_cmp number) e.0.now) entry.entry) false }
{
    match entry {
        Some((other, _)) => number.cmp(other).is_eq(),
        None => false,
    }
}

fn less(end: Option<i128>, start: Option<i128>) -> Option<i128>
    requires end { IfSome end (IsWithin (2 ^ 80)) }
    requires start { IfSome start (IsWithin (2 ^ 80)) }
    ensures is { result ≡ less end start }
    ensures small { IfSome result (IsWithin (2 ^ 81)) }
{
    match (end, start) {
        (Some(end), Some(start)) => Some(end - start),
        _ => None,
    }
}

impl Series {
    ghost use Rattle.std.specs.Prelude.{◌≡◌, ◌^◌, Bool, Some, IsTrue, ◌↔◌, [], IfSome, OnOk, OnErr};
    ghost use Rattle.std.specs.Ordering.{nat_cmp};
    ghost use Rattle.std.specs.BTreeMap.{insert_entry};
    ghost use Rattle.usage_totals.specs.Amounts.{IsWithin};
    ghost use Rattle.usage_totals.specs.Usage.{first, last};
    ghost use Rattle.usage_totals.specs.Indexed.{without, with_set, used};

    /// No amount.
    pub fn new(alloc: Global) -> Series
        ensures { result ≡ [] }
    {
        Series {
            amounts: BTreeMap::new(alloc),
        }
    }

    /// Whether there is no amount.
    pub fn is_empty(&self) -> bool
        ensures { IsTrue result ↔ (self.now ≡ []) }
    {
        self.amounts.is_empty()
    }

    /// Puts an amount at a number.
    pub fn put(&mut self, number: u64, amount: i128) -> Result<(), Memory>
        requires { IsWithin (2 ^ 80) amount }
        ensures ok { OnOk result (self.new ≡ insert_entry nat_cmp self.old number amount) }
        ensures err { OnErr result (self.new ≡ self.old) }
    {
        self.amounts.insert(number, amount)?;
        Ok(())
    }

    // Sets the amount at a number, if there is one.
    fn overwrite(&mut self, number: u64, amount: i128)
        requires { IsWithin (2 ^ 80) amount }
        ensures { self.new ≡ with_set number (Some amount) self.old }
    {
        let Some(place) = self.amounts.get_mut(&number) else {
            return;
        };
        *place = amount;
    }

    // Takes the amount at a number away, if there is one.
    fn take(&mut self, number: u64)
        ensures { self.new ≡ without number self.old }
    {
        self.amounts.remove(&number);
    }

    /// Sets the amount at a number if there is one, or takes it away.
    pub fn set(&mut self, number: u64, amount: Option<i128>)
        requires { IfSome amount (IsWithin (2 ^ 80)) }
        ensures { self.new ≡ with_set number amount self.old }
    {
        match amount {
            None => self.take(number),
            Some(amount) => self.overwrite(number, amount),
        }
    }

    // The first amount.
    fn first(&self) -> Option<i128>
        ensures is { result ≡ first (λ entry. Some entry.1) self.now }
        ensures small { IfSome result (IsWithin (2 ^ 80)) }
    {
        amount_of(self.amounts.iter().next())
    }

    // The last amount.
    fn last(&self) -> Option<i128>
        ensures is { result ≡ last (λ entry. Some entry.1) self.now }
        ensures small { IfSome result (IsWithin (2 ^ 80)) }
    {
        amount_of(self.amounts.iter().next_back())
    }

    // The first amount but the one at a number.
    fn first_without(&self, number: u64) -> Option<i128>
        ensures is { result ≡ first (λ entry. Some entry.1) (without number self.now) }
        ensures small { IfSome result (IsWithin (2 ^ 80)) }
    {
        let mut entries = self.amounts.iter();
        let first = entries.next();
        if is_of(first, number) {
            return amount_of(entries.next());
        }
        amount_of(first)
    }

    // The last amount but the one at a number.
    fn last_without(&self, number: u64) -> Option<i128>
        ensures is { result ≡ last (λ entry. Some entry.1) (without number self.now) }
        ensures small { IfSome result (IsWithin (2 ^ 80)) }
    {
        let mut entries = self.amounts.iter();
        let last = entries.next_back();
        if is_of(last, number) {
            return amount_of(entries.next_back());
        }
        amount_of(last)
    }

    /// What was used by the amounts: the last one less the first one.
    pub fn usage(&self) -> Option<i128>
        ensures is { result ≡ used self.now }
        ensures small { IfSome result (IsWithin (2 ^ 81)) }
    {
        less(self.last(), self.first())
    }

    /// What was used by all amounts but the one at a number.
    pub fn usage_without(&self, number: u64) -> Option<i128>
        ensures is { result ≡ used (without number self.now) }
        ensures small { IfSome result (IsWithin (2 ^ 81)) }
    {
        less(self.last_without(number), self.first_without(number))
    }
}
