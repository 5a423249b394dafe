//! What holds of the lines of every payload.

ghost use Rattle.std.specs.Prelude.{◌≡◌, ℕ, List, Option};
ghost use Rattle.dif_vif.specs.declared.fault.RecordFault.{RecordFault};
ghost use Rattle.dif_vif.specs.declared.span.RecordSpan.{RecordSpan};
ghost use Rattle.dif_vif.specs.Listing.{IsListing};
ghost use Rattle.record_text.specs.RecordText.{listing_text, records_text};

/// The text of a payload is that of its one listing: the lines of its first 256 records, then `more` where another
/// record or a fault follows, else the fault's line where there is one.
pub fn records_are_listed()
    ensures { (payload : List ℕ) (spans : List RecordSpan) (ending : Option RecordFault)
        → IsListing payload 0 spans ending → records_text payload ≡ listing_text payload spans ending }
{}
