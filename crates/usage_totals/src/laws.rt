//! What holds of all keys and payloads.

ghost use Rattle.std.specs.Prelude.{◌≡◌, ◌++◌, ◌∷◌, [], ℕ, List, Option, Some, length, slice_get};
ghost use Rattle.std.specs.List.{filter_map};
ghost use Rattle.dif_vif.specs.declared.fault.RecordFault.{RecordFault};
ghost use Rattle.dif_vif.specs.declared.span.RecordSpan.{RecordSpan};
ghost use Rattle.dif_vif.specs.Listing.{IsListing};
ghost use Rattle.std.specs.declared.cmp.Ordering.TheVariants.{Equal};
ghost use Rattle.usage_totals.specs.declared.key.UsageKey.{UsageKey};
ghost use Rattle.meter_address.specs.declared.address.Address.{Address};
ghost use Rattle.usage_totals.specs.Keys.{key_cmp};
ghost use Rattle.std.specs.List.Sorted.{IsStrictlySortedBy};
ghost use Rattle.lists.specs.Each.{Each};
ghost use Rattle.usage_totals.specs.Sums.{total, usages_in, sum_of, keys_in, is_among, is_used};
ghost use Rattle.usage_totals.specs.Table.{rows_at};
ghost use Rattle.usage_totals.specs.Edits.{Edit, addition, replacement, removal, rows_after};
ghost use Rattle.usage_totals.specs.Amounts.{given, amount_at, amount};

/// Two keys compare as equal only where they are the same.
pub fn keys_are_told_apart()
    ensures { (a b : UsageKey) → key_cmp a b ≡ Equal → a ≡ b }
{}

/// The amount of a payload is the first one of its listed records, those before the first fault.
pub fn amounts_are_of_the_listing()
    ensures { (payload : List ℕ) (spans : List RecordSpan) (ending : Option RecordFault) (key : UsageKey)
        → IsListing payload 0 spans ending → amount payload key ≡ amount_at key (filter_map (given payload) spans) }
{}

/// Edits that change nothing: a row replaced by itself, and a row that is added and then removed.
pub fn edits_that_change_nothing()
    ensures itself { (edits : List Edit) (address : Address) (place : ℕ) (payload : List ℕ)
        → slice_get (rows_at address (rows_after edits)) place ≡ Some payload
        → rows_after (edits ++ replacement address place payload ∷ []) ≡ rows_after edits }
    ensures again { (edits : List Edit) (address : Address) (payload : List ℕ)
        → rows_after (edits ++ addition address payload ∷ removal address (length (rows_at address (rows_after edits))) ∷ [])
        ≡ rows_after edits }
{}

/// The total of a key is over all meters: how many have a usage, and the sum of these. Each meter stands once among
/// them, with the rows of its address.
pub fn totals_are_sums_over_meters()
    ensures meters { (edits : List Edit) (key : UsageKey)
        → (total (rows_after edits) key).meters ≡ length (usages_in (rows_after edits) key) }
    ensures amount { (edits : List Edit) (key : UsageKey)
        → (total (rows_after edits) key).amount ≡ sum_of (usages_in (rows_after edits) key) }
    ensures once { (edits : List Edit)
        → Each (λ meter. rows_at meter.0 (rows_after edits) ≡ meter.1) (rows_after edits) }
{}

/// The keys that are told are in order, each once, and just those of which some meter has a usage.
pub fn keys_are_those_used()
    ensures ordered { (edits : List Edit) → IsStrictlySortedBy key_cmp (keys_in (rows_after edits)) }
    ensures used { (edits : List Edit) (key : UsageKey)
        → is_among key (keys_in (rows_after edits)) ≡ is_used (rows_after edits) key }
{}
