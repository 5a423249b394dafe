//! Laws of every record: a function's contract is a law.
ghost use Rattle.record_objects.specs.ReadBack.{RecordsAreReadBack, PayloadsAreReadBack};

/// A reader of JSON gets the object of a record back from its text.
#[tactic(auto, using(crate::proofs::Shown::records_are_read_back))]
pub fn records_are_read_back()
    ensures { RecordsAreReadBack }
{}

/// A reader of JSON gets the array of a payload's records back from its text.
#[tactic(auto, using(crate::proofs::Shown::payloads_are_read_back))]
pub fn payloads_are_read_back()
    ensures { PayloadsAreReadBack }
{}
