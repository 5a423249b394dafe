//! What holds of the values of all compact profiles.

ghost use Rattle.std.specs.Prelude.{◌≡◌, ◌≢◌, ℕ, suc, ◌+◌, ◌*◌, List, length, drop, Option, Some, slice_get, ℤ, ◌+ℤ◌};
ghost use Rattle.dif_vif.specs.declared.span.RecordSpan.{RecordSpan};
ghost use Rattle.record_values.specs.Values.{data_of};
ghost use Rattle.compact_profiles.specs.declared.kinds.ProfileKind.TheVariants.{Inverse};
ghost use Rattle.compact_profiles.specs.declared.profiles.IncrementMode.TheVariants.{Absolute};
ghost use Rattle.compact_profiles.specs.declared.profiles.Profile.{Profile};
ghost use Rattle.compact_profiles.specs.declared.values.ProfileValue.{ProfileValue};
ghost use Rattle.compact_profiles.specs.Profiles.{profile};
ghost use Rattle.compact_profiles.specs.SentValues.{signed_value};
ghost use Rattle.compact_profiles.specs.Values.{number_behind, values_from, values_of};
ghost use Rattle.compact_profiles.specs.Sums.{increments, sent_at, IsMoved};

/// A profile has the values for which its data have room behind spacing control and spacing value, and no rest of
/// bytes is left.
pub fn values_are_counted()
    ensures { (bytes : List ℕ) (span : RecordSpan) (base : Option ℤ) (p : Profile) → profile bytes span ≡ Some p
        → (length (values_of bytes span base) ≡ p.count) × (length (data_of bytes span) ≡ p.count * p.width + 2) }
{}

/// The first value has the storage number after the record's, each other one that after the value before it, where
/// values have storage numbers.
pub fn numbers_are_places()
    ensures { (bytes : List ℕ) (span : RecordSpan) (base : Option ℤ) (p : Profile) (place : ℕ) (v : ProfileValue)
        → profile bytes span ≡ Some p → slice_get (values_of bytes span base) place ≡ Some v
        → v.storage ≡ number_behind p.kind (span.storage + suc place) }
{}

/// A whole value is the number of its own bytes.
pub fn whole_values_are_sent()
    ensures { (bytes : List ℕ) (span : RecordSpan) (base : Option ℤ) (p : Profile) (place : ℕ) (v : ProfileValue)
        → profile bytes span ≡ Some p → p.mode ≡ Absolute → slice_get (values_of bytes span base) place ≡ Some v
        → v.value ≡ signed_value p.field (sent_at p (drop 2 (data_of bytes span)) place) }
{}

/// A value that is known by increments is the base value and the sum of all increments up to its own, or the base value
/// less that sum: each of them is known.
pub fn increments_sum_up()
    ensures { (bytes : List ℕ) (span : RecordSpan) (base : Option ℤ) (p : Profile) (place : ℕ) (v : ProfileValue) (value : ℤ)
        → profile bytes span ≡ Some p → p.mode ≢ Absolute → slice_get (values_of bytes span base) place ≡ Some v → v.value ≡ Some value
        → IsMoved p base (increments p (suc place) (drop 2 (data_of bytes span))) value }
{}

/// What lies back in time by increments is as far below the base value as the same increments lead above it.
pub fn inverse_takes_away()
    ensures { (p : Profile) (storage : ℕ) (base : ℤ) (count : ℕ) (values : List ℕ) (place : ℕ) (v w : ProfileValue) (forward backward : ℤ)
        → p.mode ≢ Absolute → p.kind ≢ Inverse
        → slice_get (values_from p storage (Some base) count values) place ≡ Some v → v.value ≡ Some forward
        → slice_get (values_from (record p { kind = Inverse }) storage (Some base) count values) place ≡ Some w → w.value ≡ Some backward
        → forward +ℤ backward ≡ base +ℤ base }
{}
