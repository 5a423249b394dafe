//! What holds of all records and payloads.

ghost use Rattle.std.specs.Prelude.{◌≡◌, ◌++◌, ◌∷◌, [], List, ℕ, Option, reverse};
ghost use Rattle.std.specs.Int.Digits.{number_from_digits};
ghost use Rattle.dif_vif.specs.declared.fault.RecordFault.{RecordFault};
ghost use Rattle.dif_vif.specs.declared.span.RecordSpan.{RecordSpan};
ghost use Rattle.dif_vif.specs.Numbers.{low_first};
ghost use Rattle.dif_vif.specs.Spelling.{DataRecord, IsRecord, spelling};
ghost use Rattle.dif_vif.specs.Spans.{IsSpanOf};
ghost use Rattle.dif_vif.specs.Listing.{IsListing, Listing, answer_of_ending, spans_of};
ghost use Rattle.dif_vif.specs.Reading.{next_of};

/// No spelling of a record begins another one, so that a record ends where it does whatever follows it.
pub fn no_record_begins_another()
    ensures { (a b : DataRecord) (x y : List ℕ)
        → IsRecord a → IsRecord b → spelling a ++ x ≡ spelling b ++ y → (a ≡ b) × (x ≡ y) }
{}

/// One span at most stands at a place, of a record or of manufacturer data.
pub fn one_span_at_a_place()
    ensures { (bytes : List ℕ) (s t : RecordSpan)
        → IsSpanOf bytes s → IsSpanOf bytes t → s.start ≡ t.start → s ≡ t }
{}

/// Each payload has one listing, and no other.
pub fn one_listing()
    ensures some { (bytes : List ℕ) → Listing bytes 0 }
    ensures only { (bytes : List ℕ) (ss ts : List RecordSpan) (e f : Option RecordFault)
        → IsListing bytes 0 ss e → IsListing bytes 0 ts f → (ss ≡ ts) × (e ≡ f) }
{}

/// Reading on from a place finds the first record of the listing from there on, or how the listing ends.
pub fn listing_is_read()
    ensures begins { (bytes : List ℕ) (from : ℕ) (span : RecordSpan) (spans : List RecordSpan) (ending : Option RecordFault)
        → IsListing bytes from (span ∷ spans) ending → next_of bytes from ≡ Ok (Some span) }
    ensures ends { (bytes : List ℕ) (from : ℕ) (ending : Option RecordFault)
        → IsListing bytes from [] ending → next_of bytes from ≡ answer_of_ending ending }
{}

/// The records that are found one after another before the first fault are those of the payload's listing.
pub fn records_are_listed()
    ensures { (bytes : List ℕ) (spans : List RecordSpan) (ending : Option RecordFault)
        → IsListing bytes 0 spans ending → spans_of bytes ≡ spans }
{}

/// Digits that stand lowest first are a number's digits in reverse.
pub fn digits_in_reverse()
    ensures { (base : ℕ) (digits : List ℕ)
        → low_first base digits ≡ number_from_digits base (reverse digits) }
{}
