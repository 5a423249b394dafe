//! The rows of one meter, and what it used by them.

use crate::amounts::Amounts;
use crate::index::Index;
use crate::key::UsageKey;
use crate::rows::NumberedRow;
use outer_io::Memory;
use std::alloc::Global;
use std::marker::Model;

/// The rows of one meter in order, and their amounts by key.
#[derive(Drop)]
pub struct Meter {
    rows: Vec<NumberedRow>,
    next: u64,
    index: Index,
}

impl Model for Meter {
    ghost use Rattle.std.specs.Prelude.{List, map};
    ghost use Rattle.usage_totals.specs.Amounts.{Row};
    ghost use Rattle.usage_totals.specs.Indexed.{IsIndexed};

    ghost Value = { List Row };

    ghost view = { λ m. map (λ row. row.amounts) m.rows.items };

    ghost invariant = { λ m. IsIndexed m.rows.items m.next m.index };
}

impl Meter {
    ghost use Rattle.std.specs.Prelude.{◌≡◌, ◌<◌, ◌^◌, ◌++◌, ◌∷◌, [], length, remove, slice_set, slice_index_or, IfSome, OnOk, OnErr};
    ghost use Rattle.usage_totals.specs.Amounts.{Row, IsWithin};
    ghost use Rattle.usage_totals.specs.Usage.{usage_at};

    /// No row.
    pub fn new(alloc: Global) -> Meter
        ensures { result ≡ [] }
    {
        Meter {
            rows: Vec::new(alloc),
            next: 0,
            index: Index::new(alloc),
        }
    }

    /// How many rows there are.
    pub fn count(&self) -> usize
        ensures { result ≡ length self.now }
    {
        self.rows.len()
    }

    /// The row at a place.
    pub fn row(&self, place: usize) -> &Amounts
        requires { place < length self.now }
        ensures { (d : Row) → result.now ≡ slice_index_or self.now place d }
    {
        &self.rows[place].amounts
    }

    /// Adds a row as the last one. A meter that has had 2^64 - 1 rows takes none more, as for want of memory.
    pub fn push(&mut self, row: Amounts) -> Result<(), Memory>
        ensures ok { OnOk result (self.new ≡ self.old ++ row ∷ []) }
        ensures err { OnErr result (self.new ≡ self.old) }
    {
        let number = self.next;
        if number == u64::MAX {
            return Err(Memory);
        }
        self.rows.reserve(1)?;
        self.index.add(number, &row)?;
        self.rows.push_reserved(NumberedRow {
            number,
            amounts: row,
        });
        self.next = number + 1;
        Ok(())
    }

    /// Replaces the row at a place.
    pub fn replace(&mut self, place: usize, row: Amounts) -> Result<(), Memory>
        requires { place < length self.old }
        ensures ok { OnOk result (self.new ≡ slice_set self.old place row) }
        ensures err { OnErr result (self.new ≡ self.old) }
    {
        let old = &self.rows[place];
        let number = old.number;
        self.index.change(number, &old.amounts, &row)?;
        self.rows[place] = NumberedRow {
            number,
            amounts: row,
        };
        Ok(())
    }

    /// Removes the row at a place; those behind it move up.
    pub fn remove(&mut self, place: usize)
        requires { place < length self.old }
        ensures { self.new ≡ remove self.old place }
    {
        let gone = self.rows.remove(place);
        self.index.remove(gone.number, &gone.amounts);
    }

    /// What was used by the rows: the last amount that is there less the first one.
    pub fn usage(&self, key: &UsageKey) -> Option<i128>
        ensures is { result ≡ usage_at key.now self.now }
        ensures small { IfSome result (IsWithin (2 ^ 81)) }
    {
        self.index.usage(key)
    }

    /// What was used by all rows but the one at a place.
    pub fn usage_without(&self, place: usize, key: &UsageKey) -> Option<i128>
        requires { place < length self.now }
        ensures is { result ≡ usage_at key.now (remove self.now place) }
        ensures small { IfSome result (IsWithin (2 ^ 81)) }
    {
        self.index.usage_without(self.rows[place].number, key)
    }
}
