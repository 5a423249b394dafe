//! The data records of a payload, a line each.
ghost use Rattle.std.specs.Prelude.{◌≡◌, ◌≤◌, ◌+◌, length};
ghost use Rattle.paper.specs.Puts.{Puts};
ghost use Rattle.full_spans.specs.Long.{IsFullSpan};
ghost use Rattle.frame_inspect.specs.RecordLines.{seen, place_words, value_words, record_line, fault_line, records_text};

use crate::names::{put_name, put_unit};
use dif_vif::{RecordFault, RecordSpan};
use full_records::{DataType, FullUnitName, FullValue, full_record_of};
use full_spans::next_full_record;
use full_text::put_full_value;
use paper::{Paper, put_labelled, put_text};
use record_text::{bytes_at, put_bytes, put_fault_words};

// The data as they are seen.
fn seen(data_type: DataType, sent: &[u8]) -> &[u8]
    ensures { result.now ≡ seen data_type sent.now }
{
    match data_type {
        DataType::Withheld => &[],
        _ => sent,
    }
}

#[tactic(auto, unfolding(crate::specs::RecordLines::place_words), using(paper::proofs::Calls::four_make))]
fn put_place<P: Paper>(paper: &mut P, number: u64, shown: &[u8])
    ensures { Puts P.takes paper.old (place_words number shown.now) paper.new }
{
    put_labelled(paper, "  ", number);
    put_text(paper, " ");
    put_bytes(paper, shown);
    put_text(paper, " ");
}

#[tactic(auto, unfolding(crate::specs::RecordLines::value_words), using(paper::proofs::Calls::four_make))]
fn put_value<P: Paper>(paper: &mut P, value: FullValue, unit: FullUnitName, sent: &[u8])
    ensures { Puts P.takes paper.old (value_words value unit sent.now) paper.new }
{
    put_text(paper, ": ");
    put_full_value(paper, value, sent);
    put_unit(paper, unit);
    put_text(paper, "\n");
}

// Puts the line of a record, with its number.
fn put_record<P: Paper>(paper: &mut P, payload: &[u8], number: u64, span: &RecordSpan)
    requires { IsFullSpan payload.now span.now }
    ensures { Puts P.takes paper.old (record_line payload.now (number, span.now)) paper.new }
{
    let record = full_record_of(payload, span);
    let qualifiers = record.qualifiers.as_slice();
    let sent = bytes_at(payload, span.data_at, span.data_len);
    put_place(paper, number, seen(record.data_type, sent));
    put_name(paper, record.quantity, qualifiers, record.unset, span);
    put_value(paper, record.value, record.unit, sent);
}

#[tactic(auto, unfolding(crate::specs::RecordLines::fault_line), using(paper::proofs::Calls::three_make))]
fn put_fault<P: Paper>(paper: &mut P, fault: RecordFault)
    ensures { Puts P.takes paper.old (fault_line fault) paper.new }
{
    put_text(paper, "  fault ");
    put_fault_words(paper, fault);
    put_text(paper, "\n");
}

/// Puts a line for each data record of a payload, and behind them one for the fault that ends them, if one does.
pub fn put_records<P: Paper>(paper: &mut P, payload: &[u8])
    ensures { Puts P.takes paper.old (records_text payload.now) paper.new }
{
    let mut from = 0usize;
    let mut listed = 0usize;
    let mut left = payload.len();
    'records: while left > 0 {
        match next_full_record(payload, from) {
            Err(fault) => {
                put_fault(paper, fault);
                return;
            }
            Ok(None) => return,
            Ok(Some(span)) => {
                put_record(paper, payload, listed as u64 + 1, &span);
                from = span.end;
                listed += 1;
                left -= 1;
            }
        }
    }
}
