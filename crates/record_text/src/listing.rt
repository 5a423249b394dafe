//! The listing of the records of a payload.

ghost use Rattle.std.specs.Prelude.{◌≡◌, ◌++◌, ◌≤◌, length};
ghost use Rattle.dif_vif.specs.Reading.{next_of};
ghost use Rattle.paper.specs.Puts.{Puts};
ghost use Rattle.record_text.specs.RecordText.{more_text, records_text};

use crate::lines::{put_fault, put_span};
use dif_vif::next_record;
use paper::{Paper, put_text};

/// How many records and manufacturer data are listed at most.
const MOST: usize = 256;

#[tactic(auto, using(paper::proofs::Calls::none))]
fn put_more<P: Paper>(paper: &mut P, payload: &[u8], from: usize)
    requires { from ≤ length payload.now }
    ensures { Puts P.takes paper.old (more_text (next_of payload.now from)) paper.new }
{
    match next_record(payload, from) {
        Ok(None) => {}
        Ok(Some(_)) | Err(_) => put_text(paper, "more\n"),
    }
}

/// Writes a line for each data record of a payload, in their order (EN 13757-3, clause 6): at most 256,
/// and then `more` where anything but fillers follows. A fault has a line too, and ends the listing.
pub fn put_records<P: Paper>(paper: &mut P, payload: &[u8])
    ensures { Puts P.takes paper.old (records_text payload.now) paper.new }
{
    let mut from = 0usize;
    let mut left = MOST;
    'records: while left > 0 {
        match next_record(payload, from) {
            Err(fault) => {
                put_fault(paper, fault);
                return;
            }
            Ok(None) => return,
            Ok(Some(span)) => {
                put_span(paper, payload, &span);
                from = span.end;
                left -= 1;
            }
        }
    }
    put_more(paper, payload, from);
}
