//! How the listing of a payload's records ends.
ghost use Rattle.std.specs.Prelude.{◌≡◌, true, false};
ghost use Rattle.report_text.specs.Readings.{listed, next_listed, is_full, fault_behind, more_behind};

use dif_vif::{RecordFault, RecordSpan, next_record};

/// How many records and manufacturer data are listed at most.
pub(crate) const MOST: usize = 256;

/// What comes behind the records of a payload that are listed.
#[derive(Clone, Copy)]
pub struct Ending {
    /// The fault that ends them before there are 256.
    pub fault: Option<RecordFault>,
    /// Whether a record or a fault follows 256 of them.
    pub more: bool,
}

// The records end with the payload, or with a fault.
fn ended_by(fault: Option<RecordFault>) -> Ending
    ensures fault { result.fault ≡ fault }
    ensures more { result.more ≡ false }
{
    Ending { fault, more: false }
}

// Whether anything but fillers follows 256 records.
fn follows(next: Result<Option<RecordSpan>, RecordFault>) -> bool
    ensures { result ≡ more_behind true next }
{
    !matches!(next, Ok(None))
}

/// What comes behind the records of a payload that are listed: 256 at most, up to the first fault.
pub fn ending_of(payload: &[u8]) -> Ending
    ensures fault { result.fault ≡ fault_behind (is_full (listed payload.now)) (next_listed payload.now) }
    ensures more { result.more ≡ more_behind (is_full (listed payload.now)) (next_listed payload.now) }
{
    let mut from = 0usize;
    let mut left = MOST;
    'records: while left > 0 {
        match next_record(payload, from) {
            Ok(Some(span)) => {
                from = span.end;
                left -= 1;
            }
            Ok(None) => return ended_by(None),
            Err(fault) => return ended_by(Some(fault)),
        }
    }
    Ending {
        fault: None,
        more: follows(next_record(payload, from)),
    }
}
