//! The records of a payload as trees of JSON, and as comma separated values.
ghost use Rattle.std.specs.Prelude.{◌≡◌, ◌<◌};
ghost use Rattle.paper.specs.Puts.{Puts};
ghost use Rattle.full_spans.specs.Long.{IsFullSpan};
ghost use Rattle.record_objects.specs.Trees.{inside, cells, compact};
ghost use Rattle.record_objects.specs.Records.{record_members, record_objects, fault_of};
ghost use Rattle.record_objects.specs.Words.{comma_before, item_words, items_words};

use crate::forms::Form;
use crate::words::put_record;
use dif_vif::{RecordFault, RecordSpan};
use full_spans::next_full_record;
use paper::{Paper, put_text};

// That the DIF is a byte.
fn show_dif(dif: u8)
    ensures { dif < 256 }
{}

/// Puts the members of a data record as they stand inside an object of JSON: without its brackets, so that others may
/// stand in front of them. The record's number in its step counts from 1.
pub fn put_record_members<P: Paper>(paper: &mut P, number: u64, bytes: &[u8], span: &RecordSpan)
    requires { IsFullSpan bytes.now span.now }
    ensures { Puts P.takes paper.old (inside (record_members number bytes.now span.now)) paper.new }
{
    show_dif(span.dif);
    put_record(paper, Form::Json, number, bytes, span);
}

/// Puts the same members between commas, with nothing for one that the record lacks.
pub fn put_record_cells<P: Paper>(paper: &mut P, number: u64, bytes: &[u8], span: &RecordSpan)
    requires { IsFullSpan bytes.now span.now }
    ensures { Puts P.takes paper.old (cells (record_members number bytes.now span.now)) paper.new }
{
    put_record(paper, Form::Csv, number, bytes, span);
}

// A comma in front of every record but the first.
#[tactic(auto, using(paper::proofs::Calls::none))]
fn put_comma_before<P: Paper>(paper: &mut P, number: u64)
    ensures { Puts P.takes paper.old (comma_before number) paper.new }
{
    if number > 1 {
        put_text(paper, ",");
    }
}

#[tactic(auto, unfolding(crate::specs::Words::item_words), using(paper::proofs::Calls::four_make))]
fn put_item<P: Paper>(paper: &mut P, payload: &[u8], number: u64, span: &RecordSpan)
    requires { IsFullSpan payload.now span.now }
    ensures { Puts P.takes paper.old (item_words payload.now (number, span.now)) paper.new }
{
    put_comma_before(paper, number);
    put_text(paper, "{");
    put_record_members(paper, number, payload, span);
    put_text(paper, "}");
}

// Puts the records, and answers the fault that ends them.
fn put_items<P: Paper>(paper: &mut P, payload: &[u8]) -> Option<RecordFault>
    ensures text { Puts P.takes paper.old (items_words payload.now) paper.new }
    ensures fault { result ≡ fault_of payload.now }
{
    let mut from = 0usize;
    let mut listed = 0usize;
    let mut left = payload.len();
    'records: while left > 0 {
        match next_full_record(payload, from) {
            Err(fault) => return Some(fault),
            Ok(None) => return None,
            Ok(Some(span)) => {
                put_item(paper, payload, listed as u64 + 1, &span);
                from = span.end;
                listed += 1;
                left -= 1;
            }
        }
    }
    None
}

/// Puts all records of a payload as an array of JSON, an object each, up to the first fault, which is answered.
pub fn put_record_objects<P: Paper>(paper: &mut P, payload: &[u8]) -> Option<RecordFault>
    ensures text { Puts P.takes paper.old (compact (record_objects payload.now)) paper.new }
    ensures fault { result ≡ fault_of payload.now }
{
    put_text(paper, "[");
    let fault = put_items(paper, payload);
    put_text(paper, "]");
    fault
}
