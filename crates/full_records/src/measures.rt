//! What a record measures, before any qualifier.

ghost use Rattle.std.specs.Prelude.{◌≡◌, Some};
ghost use Rattle.full_spans.specs.Long.{IsFullSpan};
ghost use Rattle.full_records.specs.Measures.{announces_code, as_profile, code_behind, measure, measure_in, measured, named_or, rows_behind};

use crate::further_tables::{FURTHER_FB, FURTHER_FD, measure_in};
use crate::profile_units::full_unit_of;
use crate::quantities::{FullQuantity, FullUnitName, Measure};
use dif_vif::RecordSpan;
use record_values::{Quantity, Unit};

/// The VIFs whose code stands in the first VIFE (EN 13757-3, 6.4).
const VIF_FB: u8 = 0xfb;

const VIF_FD: u8 = 0xfd;

/// What the profile says, in the words of the whole standard.
fn as_profile(unit: Unit) -> Measure
    ensures { result ≡ as_profile unit }
{
    Measure {
        quantity: FullQuantity::Profile(unit.quantity),
        unit: FullUnitName::Profile(unit.name),
        exponent: unit.exponent,
    }
}

fn named_or(quantity: Quantity, named: Measure, further: Measure) -> Measure
    ensures { result ≡ named_or quantity named further }
{
    match quantity {
        Quantity::Unknown => further,
        _ => named,
    }
}

/// Whether the code stands in the first VIFE.
pub fn announces_code(vif: u8) -> bool
    ensures { result ≡ announces_code vif }
{
    vif == VIF_FB || vif == VIF_FD
}

/// The code in the first VIFE, which FB and FD announce.
pub fn code_behind(bytes: &[u8], span: &RecordSpan) -> Option<u8>
    requires { IsFullSpan bytes.now span.now }
    ensures { result ≡ code_behind bytes.now span.now }
{
    if span.maker {
        return None;
    }
    if !announces_code(span.vif) {
        return None;
    }
    Some(bytes[span.vifes_at] % 128)
}

fn further_measure(vif: u8, code: u8) -> Measure
    ensures { result ≡ measure_in (rows_behind vif) code }
{
    if vif == VIF_FB {
        return measure_in(&FURTHER_FB, code);
    }
    measure_in(&FURTHER_FD, code)
}

fn measured_behind(unit: Unit, vif: u8, code: u8) -> Measure
    ensures { result ≡ measured unit (rows_behind vif) (Some code) }
{
    let further = further_measure(vif, code);
    named_or(unit.quantity, as_profile(unit), further)
}

/// What a record of these bytes measures, and in which unit, as its VIF says (EN 13757-3, 6.4).
pub fn measure_of(bytes: &[u8], span: &RecordSpan) -> Measure
    requires { IsFullSpan bytes.now span.now }
    ensures { result ≡ measure bytes.now span.now }
{
    let unit = full_unit_of(bytes, span);
    match code_behind(bytes, span) {
        None => as_profile(unit),
        Some(code) => measured_behind(unit, span.vif, code),
    }
}
