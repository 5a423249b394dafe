//! Data records as values of `serde_json`.
ghost use Rattle.std.specs.Prelude.{◌≡◌, map, IfOk, OnOk, option_map};
ghost use Rattle.serde_json.specs.Data.{string, object, put as with_member};
ghost use Rattle.serde_json.specs.View.{view, members_view};
ghost use Rattle.dif_vif.specs.Spans.{IsSpanOf};
ghost use Rattle.record_text.specs.Lines.{fault_text};
ghost use Rattle.report_text.specs.Readings.{hex_tree, listed, list_tree, maker_tree, members, or_null, record_members, span_tree};

use crate::listing::MOST;
use dif_vif::{RecordFault, RecordSpan, next_record};
use outer_io::Memory;
use paper::{Paper, Printed, written};
use record_text::{bytes_at, function_word, name_word, put_fault_words, put_value, quantity_word};
use record_values::{Unit, Value, unit_of, value_of};
use serde_json::{Map, Value as Json, put};
use std::alloc::Global;

// A value of a record, to be printed.
#[derive(Drop)]
struct ValueText {
    value: Value,
}

impl Printed for ValueText {
    ghost use Rattle.record_text.specs.Values.{value_text};

    ghost text = { λ t. value_text t.value };

    fn print<P: Paper>(&self, paper: &mut P) {
        put_value(paper, self.value);
    }
}

// A fault, to be printed.
#[derive(Drop)]
struct FaultText {
    fault: RecordFault,
}

impl Printed for FaultText {
    ghost use Rattle.record_text.specs.Lines.{fault_text};

    ghost text = { λ t. fault_text t.fault };

    fn print<P: Paper>(&self, paper: &mut P) {
        put_fault_words(paper, self.fault);
    }
}

// What is printed of a thing, as a string. All that is printed here is ASCII, so that no text is refused.
fn text_value<T: Printed>(alloc: Global, thing: &T) -> Result<Json, Memory>
    ensures { IfOk result (λ v. view v ≡ string (T.text thing.now)) }
{
    match String::from_utf8(written(alloc, thing)?) {
        Ok(text) => Ok(Json::from(text)),
        Err(_) => Err(Memory),
    }
}

// Bytes in hexadecimal, as a string.
fn hex_value(alloc: Global, bytes: &[u8]) -> Result<Json, Memory>
    ensures { IfOk result (λ v. view v ≡ hex_tree bytes.now) }
{
    Ok(Json::from(hex::encode(alloc, bytes)?))
}

// Puts a word into an object, under a name.
fn put_word(
    object: &mut Map<String, Json>,
    alloc: Global,
    name: &str,
    word: &str,
) -> Result<(), Memory>
    ensures { OnOk result (members_view object.new.entries
        ≡ with_member name.now (string word.now) (members_view object.old.entries)) }
{
    Ok(put(object, alloc, name, Json::try_from_str(alloc, word)?)?)
}

/// Puts bytes in hexadecimal into an object, under a name.
pub(crate) fn put_bytes(
    object: &mut Map<String, Json>,
    alloc: Global,
    name: &str,
    bytes: &[u8],
) -> Result<(), Memory>
    ensures { OnOk result (members_view object.new.entries
        ≡ with_member name.now (hex_tree bytes.now) (members_view object.old.entries)) }
{
    Ok(put(object, alloc, name, hex_value(alloc, bytes)?)?)
}

// A data record of this unit and value.
fn record_value(
    alloc: Global,
    payload: &[u8],
    span: &RecordSpan,
    unit: Unit,
    value: Value,
) -> Result<Json, Memory>
    ensures { IfOk result (λ v. view v ≡ object (members (record_members payload.now span.now unit value))) }
{
    let modifiers = bytes_at(payload, unit.modifiers_at, unit.modifiers);
    let raw = bytes_at(payload, span.data_at, span.data_len);
    let mut record = Map::new(alloc);
    put(&mut record, alloc, "exponent", Json::from(unit.exponent))?;
    put_word(&mut record, alloc, "function", function_word(span.function))?;
    put_bytes(&mut record, alloc, "modifiers", modifiers)?;
    put_word(&mut record, alloc, "quantity", quantity_word(unit.quantity))?;
    put_bytes(&mut record, alloc, "raw", raw)?;
    put(&mut record, alloc, "storage", Json::from(span.storage))?;
    put(&mut record, alloc, "subunit", Json::from(span.subunit))?;
    put(&mut record, alloc, "tariff", Json::from(span.tariff))?;
    put_word(&mut record, alloc, "unit", name_word(unit.name))?;
    put(
        &mut record,
        alloc,
        "value",
        text_value(alloc, &ValueText { value })?,
    )?;
    Ok(Json::from(record))
}

// Manufacturer data.
fn maker_value(alloc: Global, payload: &[u8], span: &RecordSpan) -> Result<Json, Memory>
    ensures { IfOk result (λ v. view v ≡ maker_tree payload.now span.now) }
{
    let raw = bytes_at(payload, span.data_at, span.data_len);
    let mut record = Map::new(alloc);
    put_bytes(&mut record, alloc, "maker", &[span.dif])?;
    put_bytes(&mut record, alloc, "raw", raw)?;
    Ok(Json::from(record))
}

fn span_value(alloc: Global, payload: &[u8], span: &RecordSpan) -> Result<Json, Memory>
    requires { IsSpanOf payload.now span.now }
    ensures { IfOk result (λ v. view v ≡ span_tree payload.now span.now) }
{
    if span.maker {
        maker_value(alloc, payload, span)
    } else {
        record_value(
            alloc,
            payload,
            span,
            unit_of(payload, span),
            value_of(payload, span),
        )
    }
}

/// The records of a payload that are listed, as an array: 256 at most, up to the first fault.
pub(crate) fn records_value(alloc: Global, payload: &[u8]) -> Result<Json, Memory>
    ensures { IfOk result (λ v. view v ≡ list_tree (map (span_tree payload.now) (listed payload.now))) }
{
    let mut records = Vec::new(alloc);
    let mut from = 0usize;
    let mut left = MOST;
    'records: while left > 0 {
        match next_record(payload, from) {
            Ok(Some(span)) => {
                records.push(span_value(alloc, payload, &span)?)?;
                from = span.end;
                left -= 1;
            }
            Ok(None) => return Ok(Json::from(records)),
            Err(_) => return Ok(Json::from(records)),
        }
    }
    Ok(Json::from(records))
}

/// The words of the fault that ends the records of a payload as a string, or null for none.
pub(crate) fn fault_value(alloc: Global, fault: Option<RecordFault>) -> Result<Json, Memory>
    ensures { IfOk result (λ v. view v ≡ or_null (option_map (λ f. string (fault_text f)) fault)) }
{
    match fault {
        None => Ok(Json::Null),
        Some(fault) => text_value(alloc, &FaultText { fault }),
    }
}
