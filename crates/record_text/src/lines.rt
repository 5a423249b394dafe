//! The line of a data record, of manufacturer data and of a fault.

ghost use Rattle.std.specs.Prelude.{◌≡◌};
ghost use Rattle.paper.specs.Puts.{Puts};
ghost use Rattle.dif_vif.specs.Spans.{IsSpanOf};
ghost use Rattle.record_text.specs.Lines.{bytes_at, place_text, measure_text, data_text};
ghost use Rattle.record_text.specs.Lines.{record_line, maker_line, span_line, fault_text, fault_line};

use crate::pieces::{put_register, put_unit};
use crate::value_text::{put_bytes, put_value};
use crate::words::function_word;
use dif_vif::{RecordFault, RecordSpan};
use paper::{Paper, put_labelled, put_labelled_bytes, put_text};
use record_values::{Unit, Value, unit_of, value_of};

/// So many bytes from a place on, or those of them that there are.
pub fn bytes_at(bytes: &[u8], place: usize, count: usize) -> &[u8]
    ensures { result.now ≡ bytes_at bytes.now place count }
{
    let (_, rest) = bytes.split_at(place.min(bytes.len()));
    let (found, _) = rest.split_at(count.min(rest.len()));
    found
}

#[tactic(auto, unfolding(crate::specs::Lines::place_text), using(paper::proofs::Calls::two_make))]
fn put_place<P: Paper>(paper: &mut P, span: &RecordSpan)
    ensures { Puts P.takes paper.old (place_text span.now) paper.new }
{
    put_text(paper, function_word(span.function));
    put_register(paper, span.storage, span.tariff, span.subunit);
}

fn put_measure<P: Paper>(paper: &mut P, unit: Unit)
    ensures { Puts P.takes paper.old (measure_text unit) paper.new }
{
    put_unit(paper, unit.quantity, unit.name, unit.exponent);
}

#[tactic(auto, unfolding(crate::specs::Lines::data_text), using(paper::proofs::Calls::six_make))]
fn put_data<P: Paper>(paper: &mut P, modifiers: &[u8], value: Value, sent: &[u8])
    ensures { Puts P.takes paper.old (data_text modifiers.now value sent.now) paper.new }
{
    put_text(paper, " ");
    put_bytes(paper, modifiers);
    put_text(paper, " ");
    put_value(paper, value);
    put_text(paper, " ");
    put_bytes(paper, sent);
}

#[tactic(auto, unfolding(crate::specs::Lines::record_line), using(paper::proofs::Calls::five_make))]
fn put_record<P: Paper>(paper: &mut P, bytes: &[u8], span: &RecordSpan)
    requires { IsSpanOf bytes.now span.now }
    ensures { Puts P.takes paper.old (record_line bytes.now span.now) paper.new }
{
    let unit = unit_of(bytes, span);
    let value = value_of(bytes, span);
    let modifiers = bytes_at(bytes, unit.modifiers_at, unit.modifiers);
    let sent = bytes_at(bytes, span.data_at, span.data_len);
    put_text(paper, "record ");
    put_place(paper, span);
    put_measure(paper, unit);
    put_data(paper, modifiers, value, sent);
    put_text(paper, "\n");
}

#[tactic(auto, unfolding(crate::specs::Lines::maker_line), using(paper::proofs::Calls::four_make))]
fn put_maker<P: Paper>(paper: &mut P, bytes: &[u8], span: &RecordSpan)
    ensures { Puts P.takes paper.old (maker_line bytes.now span.now) paper.new }
{
    let sent = bytes_at(bytes, span.data_at, span.data_len);
    put_labelled_bytes(paper, "maker ", &[span.dif]);
    put_text(paper, " ");
    put_bytes(paper, sent);
    put_text(paper, "\n");
}

/// The line of a span of these bytes.
pub fn put_span<P: Paper>(paper: &mut P, bytes: &[u8], span: &RecordSpan)
    requires { IsSpanOf bytes.now span.now }
    ensures { Puts P.takes paper.old (span_line bytes.now span.now) paper.new }
{
    if span.maker {
        put_maker(paper, bytes, span)
    } else {
        put_record(paper, bytes, span)
    }
}

/// The words of a fault.
pub fn put_fault_words<P: Paper>(paper: &mut P, fault: RecordFault)
    ensures { Puts P.takes paper.old (fault_text fault) paper.new }
{
    match fault {
        RecordFault::Truncated(place) => put_labelled(paper, "truncated ", place as u64),
        RecordFault::TooManyExtensions(place) => put_labelled(paper, "extensions ", place as u64),
        RecordFault::Lvar(lvar) => put_labelled_bytes(paper, "lvar ", &[lvar]),
        RecordFault::Selection(place) => put_labelled(paper, "selection ", place as u64),
        RecordFault::Special(dif) => put_labelled_bytes(paper, "special ", &[dif]),
    }
}

/// The line of a fault.
#[tactic(auto, unfolding(crate::specs::Lines::fault_line), using(paper::proofs::Calls::three_make))]
pub fn put_fault<P: Paper>(paper: &mut P, fault: RecordFault)
    ensures { Puts P.takes paper.old (fault_line fault) paper.new }
{
    put_text(paper, "fault ");
    put_fault_words(paper, fault);
    put_text(paper, "\n");
}
