//! Data records as JSON.
ghost use Rattle.std.specs.Prelude.{map, false, option_map};
ghost use Rattle.hex.specs.Hex.{encode_lower};
ghost use Rattle.json.specs.Print.{escape};
ghost use Rattle.serde_json.specs.Data.{number, string, object};
ghost use Rattle.serde_json.specs.Find.{of_integer};
ghost use Rattle.serde_json.specs.View.{items_of};
ghost use Rattle.serde_json.specs.Written.{comma_if, compact_text, items_text};
ghost use Rattle.paper.specs.Puts.{Puts};
ghost use Rattle.dif_vif.specs.Spans.{IsSpanOf};
ghost use Rattle.record_text.specs.Lines.{bytes_at, fault_text};
ghost use Rattle.report_text.specs.Readings.{listed, members, list_tree, or_null, record_members, maker_tree, span_tree, NamesByte};

use crate::listing::MOST;
use dif_vif::{RecordFault, RecordSpan, next_record};
use paper::{Paper, put_hex, put_number, put_signed, put_text};
use record_text::{bytes_at, function_word, name_word, put_fault_words, put_value, quantity_word};
use record_values::{Unit, Value, unit_of, value_of};

/// Puts bytes in hexadecimal, as they stand inside a string of JSON.
pub fn put_digits<P: Paper>(paper: &mut P, bytes: &[u8])
    ensures { Puts P.takes paper.old (escape (encode_lower bytes.now)) paper.new }
{
    put_hex(paper, bytes);
}

// So many bytes of a payload, from a place on.
fn put_part<P: Paper>(paper: &mut P, payload: &[u8], place: usize, count: usize)
    ensures { Puts P.takes paper.old (escape (encode_lower (bytes_at payload.now place count))) paper.new }
{
    put_digits(paper, bytes_at(payload, place, count));
}

// The power of ten of a unit.
fn put_exponent<P: Paper>(paper: &mut P, unit: Unit)
    ensures { Puts P.takes paper.old (compact_text (number (of_integer unit.exponent))) paper.new }
{
    put_signed(paper, i128::from(unit.exponent));
}

// A data record of this unit and value.
fn put_record<P: Paper>(paper: &mut P, payload: &[u8], span: &RecordSpan, unit: Unit, value: Value)
    ensures { Puts P.takes paper.old (compact_text (object (members (record_members payload.now span.now unit value)))) paper.new }
{
    put_text(paper, "{\"exponent\":");
    put_exponent(paper, unit);
    put_text(paper, ",\"function\":\"");
    put_text(paper, function_word(span.function));
    put_text(paper, "\",\"modifiers\":\"");
    put_part(paper, payload, unit.modifiers_at, unit.modifiers);
    put_text(paper, "\",\"quantity\":\"");
    put_text(paper, quantity_word(unit.quantity));
    put_text(paper, "\",\"raw\":\"");
    put_part(paper, payload, span.data_at, span.data_len);
    put_text(paper, "\",\"storage\":");
    put_number(paper, span.storage);
    put_text(paper, ",\"subunit\":");
    put_number(paper, span.subunit as u64);
    put_text(paper, ",\"tariff\":");
    put_number(paper, span.tariff as u64);
    put_text(paper, ",\"unit\":\"");
    put_text(paper, name_word(unit.name));
    put_text(paper, "\",\"value\":\"");
    put_value(paper, value);
    put_text(paper, "\"}");
}

// Manufacturer data.
fn put_maker<P: Paper>(paper: &mut P, payload: &[u8], span: &RecordSpan)
    ensures { Puts P.takes paper.old (compact_text (maker_tree payload.now span.now)) paper.new }
{
    put_text(paper, "{\"maker\":\"");
    put_digits(paper, &[span.dif]);
    put_text(paper, "\",\"raw\":\"");
    put_part(paper, payload, span.data_at, span.data_len);
    put_text(paper, "\"}");
}

fn put_span<P: Paper>(paper: &mut P, payload: &[u8], span: &RecordSpan)
    requires { IsSpanOf payload.now span.now }
    ensures { Puts P.takes paper.old (compact_text (span_tree payload.now span.now)) paper.new }
{
    if span.maker {
        put_maker(paper, payload, span)
    } else {
        put_record(
            paper,
            payload,
            span,
            unit_of(payload, span),
            value_of(payload, span),
        )
    }
}

/// Puts a comma, where something stands before.
#[tactic(auto, using(paper::proofs::Calls::none))]
pub fn put_comma<P: Paper>(paper: &mut P, later: bool)
    ensures { Puts P.takes paper.old (comma_if later) paper.new }
{
    if later {
        put_text(paper, ",");
    }
}

// The records of a payload that are listed, and the closing bracket.
fn put_items<P: Paper>(paper: &mut P, payload: &[u8])
    ensures { Puts P.takes paper.old (items_text false (items_of (map (span_tree payload.now) (listed payload.now)))) paper.new }
{
    let mut from = 0usize;
    let mut left = MOST;
    let mut later = false;
    'records: while left > 0 {
        match next_record(payload, from) {
            Ok(Some(span)) => {
                put_comma(paper, later);
                put_span(paper, payload, &span);
                from = span.end;
                left -= 1;
                later = true;
            }
            Ok(None) => return put_text(paper, "]"),
            Err(_) => return put_text(paper, "]"),
        }
    }
    put_text(paper, "]");
}

/// Puts the records of a payload that are listed, as an array of JSON: 256 at most, up to the first fault.
#[tactic(auto, using(paper::proofs::Calls::two_make))]
pub fn put_entries<P: Paper>(paper: &mut P, payload: &[u8])
    ensures { Puts P.takes paper.old (compact_text (list_tree (map (span_tree payload.now) (listed payload.now)))) paper.new }
{
    put_text(paper, "[");
    put_items(paper, payload);
}

// That the byte which a fault names is one.
fn show_byte(fault: RecordFault)
    ensures { NamesByte fault }
{
    match fault {
        RecordFault::Lvar(_byte) | RecordFault::Special(_byte) => {}
        _ => {}
    }
}

// The words of a fault, as a string.
fn put_words<P: Paper>(paper: &mut P, fault: RecordFault)
    ensures { Puts P.takes paper.old (compact_text (string (fault_text fault))) paper.new }
{
    show_byte(fault);
    put_text(paper, "\"");
    put_fault_words(paper, fault);
    put_text(paper, "\"");
}

/// Puts the words of the fault that ends the records of a payload as a string of JSON, or `null` for none.
pub fn put_fault<P: Paper>(paper: &mut P, fault: Option<RecordFault>)
    ensures { Puts P.takes paper.old (compact_text (or_null (option_map (λ f. string (fault_text f)) fault))) paper.new }
{
    match fault {
        None => put_text(paper, "null"),
        Some(fault) => put_words(paper, fault),
    }
}
