//! What holds of all records.

ghost use Rattle.std.specs.Prelude.{◌≡◌, ◌≢◌, IsTrue, List, [], ℕ, false};
ghost use Rattle.dif_vif.specs.declared.span.RecordSpan.{RecordSpan};
ghost use Rattle.dif_vif.specs.Spans.{IsSpanOf};
ghost use Rattle.record_values.specs.declared.units.Quantity.TheVariants.{Unknown, ErrorFlags};
ghost use Rattle.record_values.specs.Units.{unit};
ghost use Rattle.record_values.specs.Values.{value};
ghost use Rattle.full_records.specs.Measures.{ascends, as_profile, further_fb, further_fd, measure};
ghost use Rattle.full_records.specs.Qualifiers.{codes_ascend, combinable};
ghost use Rattle.full_records.specs.Records.{full_qualifiers, full_value, unqualified_value, Agrees};

/// No code is in two rows of a table, so that each row holds as it stands there.
pub fn no_code_in_two_rows()
    ensures after_fd { IsTrue (ascends 0 further_fd) }
    ensures after_fb { IsTrue (ascends 0 further_fb) }
    ensures combinable { IsTrue (codes_ascend 0 combinable) }
{}

/// Where the profile names a quantity, the whole standard names the same one, with the same unit and power of ten.
pub fn quantities_are_the_profiles()
    ensures { (bytes : List ℕ) (span : RecordSpan)
        → (unit bytes span).quantity ≢ Unknown → measure bytes span ≡ as_profile (unit bytes span) }
{}

/// Where the profile gives a number, a date or a text, the value before any qualifier is that one; error flags are bits.
pub fn values_are_the_profiles()
    ensures { (bytes : List ℕ) (span : RecordSpan)
        → IsSpanOf bytes span → (unit bytes span).quantity ≢ Unknown → (unit bytes span).quantity ≢ ErrorFlags
        → Agrees (value bytes span) (unit bytes span).exponent (unqualified_value bytes span) }
{}

/// A record without qualifiers has the value that its data have before any.
pub fn values_without_qualifiers()
    ensures { (bytes : List ℕ) (span : RecordSpan)
        → full_qualifiers bytes span ≡ [] → full_value bytes span ≡ unqualified_value bytes span }
{}
