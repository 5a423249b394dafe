//! A data record, as the whole standard reads it.

ghost use Rattle.std.specs.Prelude.{◌≡◌, ◌+◌, ◌≤◌, ◌%◌, length, unsigned_abs};
ghost use Rattle.full_spans.specs.Long.{IsFullSpan};
ghost use Rattle.full_records.specs.Measures.{measure};
ghost use Rattle.full_records.specs.Powers.{power_in};
ghost use Rattle.full_records.specs.MakersOwn.{plain_behind};
ghost use Rattle.full_records.specs.Readings.{data_type, kind_of};
ghost use Rattle.full_records.specs.Records.{full_data_type, full_plain, full_qualifiers, full_reading, full_unset, full_value, further_vifes, part, plain_value};

use crate::makers_own::{PlainValue, are_makers_own, told_plain};
use crate::measures::{code_behind, measure_of};
use crate::powers::value_after;
use crate::qualifiers::{Qualifier, Qualifiers, first_place, qualifiers_of};
use crate::quantities::{FullQuantity, FullUnitName, Measure};
use crate::readings::{DataType, data_type_of, kind_of, reading_of};
use crate::values::{FullValue, is_long, is_unset, long_value, unread, value_as};
use dif_vif::RecordSpan;

/// What a data record says.
#[derive(Drop)]
pub struct FullRecord {
    /// What is measured or stated, as the VIF says; the qualifiers say more of it.
    pub quantity: FullQuantity,
    /// The unit in which the value counts.
    pub unit: FullUnitName,
    /// The type of the data.
    pub data_type: DataType,
    /// The value, exactly.
    pub value: FullValue,
    /// Whether the data stand for no value: the lowest integer, or all bits of digits or of a date set.
    pub unset: bool,
    /// The further VIFEs, in their order.
    pub qualifiers: Qualifiers,
    /// What the VIF alone makes of data that are the manufacturer's own, where it makes something of them.
    pub plain: Option<PlainValue>,
}

/// So many bytes from a place on.
fn part(bytes: &[u8], place: usize, count: usize) -> &[u8]
    requires { place + count ≤ length bytes.now }
    ensures { result.now ≡ part bytes.now place count }
{
    let (_, rest) = bytes.split_at(place);
    let (found, _) = rest.split_at(count);
    found
}

/// The VIFEs behind the code.
fn further_vifes<'a>(bytes: &'a [u8], span: &RecordSpan) -> &'a [u8]
    requires { IsFullSpan bytes.now span.now }
    ensures value { result.now ≡ further_vifes bytes.now span.now }
    ensures few { length result.now ≤ 10 }
{
    let vifes = part(bytes, span.vifes_at, span.vifes);
    match code_behind(bytes, span) {
        None => vifes,
        Some(_) => {
            let (_, further) = vifes.split_at(1);
            further
        }
    }
}

fn plain_value(bytes: &[u8], span: &RecordSpan, data_type: DataType, exponent: i8) -> FullValue
    requires { IsFullSpan bytes.now span.now }
    ensures exact { result ≡ plain_value bytes.now span.now data_type exponent }
    ensures small { unsigned_abs (power_in result) ≤ 128 }
{
    let sent = part(bytes, span.data_at, span.data_len);
    if span.maker {
        return unread(sent);
    }
    if is_long(span.lvar) {
        return long_value(data_type, sent);
    }
    value_as(data_type, exponent, span.dif, span.lvar, sent)
}

/// What the VIF alone makes of the data, where the further VIFEs say that they are the manufacturer's own.
fn plain_of(
    bytes: &[u8],
    span: &RecordSpan,
    measure: Measure,
    qualifiers: &[Qualifier],
) -> Option<PlainValue>
    requires { IsFullSpan bytes.now span.now }
    ensures { result ≡ plain_behind qualifiers.now
        (plain_value bytes.now span.now (data_type (kind_of measure.quantity) (span.now.dif % 16) span.now.lvar) measure.exponent)
        measure.unit }
{
    if !are_makers_own(qualifiers) {
        return None;
    }
    let data_type = data_type_of(kind_of(measure.quantity), span.dif % 16, span.lvar);
    let value = plain_value(bytes, span, data_type, measure.exponent);
    told_plain(value, measure.unit)
}

/// What a data record of these bytes says, by the whole standard (EN 13757-3, clause 6 and annex A).
pub fn full_record_of(bytes: &[u8], span: &RecordSpan) -> FullRecord
    requires { IsFullSpan bytes.now span.now }
    // The quantity is that of the VIF, or of its first VIFE, and the unit that in which the value counts.
    ensures quantity { result.quantity ≡ (measure bytes.now span.now).quantity }
    ensures unit { result.unit ≡ (full_reading bytes.now span.now).unit }
    // The value is that of the data's type, behind all factors and constants.
    ensures data_type { result.data_type ≡ full_data_type bytes.now span.now }
    ensures value { result.value ≡ full_value bytes.now span.now }
    ensures unset { result.unset ≡ full_unset bytes.now span.now }
    // Each further VIFE is named, in its order.
    ensures qualifiers { result.qualifiers ≡ full_qualifiers bytes.now span.now }
    // What the VIF alone makes of the manufacturer's own data is told beside the value, which is raw.
    ensures plain { result.plain ≡ full_plain bytes.now span.now }
{
    let measure = measure_of(bytes, span);
    let qualifiers = qualifiers_of(first_place(span.vif), further_vifes(bytes, span));
    let reading = reading_of(measure, qualifiers.as_slice());
    let data_type = data_type_of(reading.kind, span.dif % 16, span.lvar);
    let unchanged = plain_value(bytes, span, data_type, reading.exponent);
    let value = value_after(unchanged, qualifiers.as_slice());
    let plain = plain_of(bytes, span, measure, qualifiers.as_slice());
    let unset = is_unset(data_type, part(bytes, span.data_at, span.data_len));
    FullRecord {
        quantity: measure.quantity,
        unit: reading.unit,
        data_type,
        value,
        unset,
        qualifiers,
        plain,
    }
}
