//! What usages are counted by.

ghost use Rattle.std.specs.Prelude.{Some, refl};
ghost use Rattle.std.specs.Ordering.{eq_by_cmp};
ghost use Rattle.std.specs.Cmp.{eq_by_cmp_equiv, partial_equiv_from_equiv, po};

use record_text::{name_word, quantity_word};
use record_values::{Quantity, UnitName};
use std::cmp::Ordering;

/// What an amount is of: two amounts count together where all of these are the same.
#[derive(Clone, Copy)]
pub struct UsageKey {
    /// The storage number.
    pub storage: u64,
    /// The tariff.
    pub tariff: u32,
    /// The subunit.
    pub subunit: u16,
    /// What is measured.
    pub quantity: Quantity,
    /// In which unit.
    pub name: UnitName,
    /// The power of ten by which an amount is multiplied.
    pub exponent: i8,
}

impl PartialEq for UsageKey {
    ghost use Rattle.usage_totals.specs.Keys.{key_cmp, key_cmp_total};

    ghost eq = { eq_by_cmp key_cmp };

    ghost laws = { partial_equiv_from_equiv (eq_by_cmp_equiv key_cmp_total) };

    fn eq(&self, other: &UsageKey) -> bool {
        self.cmp(other).is_eq()
    }
}

impl Eq for UsageKey {
    ghost use Rattle.usage_totals.specs.Keys.{key_cmp_total};

    ghost laws = { eq_by_cmp_equiv key_cmp_total };
}

impl PartialOrd for UsageKey {
    ghost use Rattle.usage_totals.specs.Keys.{key_cmp, key_cmp_total};

    ghost partial_cmp = { λ x y. Some (key_cmp x y) };

    ghost laws = { po key_cmp_total (λ x y. refl) };

    fn partial_cmp(&self, other: &UsageKey) -> Option<Ordering> {
        Some(self.cmp(other))
    }
}

impl Ord for UsageKey {
    ghost use Rattle.usage_totals.specs.Keys.{key_cmp, key_cmp_total};

    ghost cmp = { key_cmp };

    ghost total = { key_cmp_total };

    ghost matches_partial_cmp = { λ x y. refl };

    ghost matches_eq = { λ x y. refl };

    fn cmp(&self, other: &UsageKey) -> Ordering {
        let numbers = self
            .storage
            .cmp(&other.storage)
            .then(self.tariff.cmp(&other.tariff))
            .then(self.subunit.cmp(&other.subunit));
        numbers
            .then_with(|| quantity_word(self.quantity).cmp(quantity_word(other.quantity)))
            .then_with(|| name_word(self.name).cmp(name_word(other.name)))
            .then(self.exponent.cmp(&other.exponent))
    }
}
