//! The records of a payload, one after another.

ghost use Rattle.std.specs.Prelude.{◌≡◌, ◌+◌, ◌^◌, ◌<◌, ◌≤◌, length, drop, Option, ◌↔◌, Ok, Err, IfOk, IfSome};
ghost use Rattle.dif_vif.specs.declared.fault.RecordFault.{RecordFault};
ghost use Rattle.dif_vif.specs.declared.fault.RecordFault.TheVariants.{Lvar};
ghost use Rattle.dif_vif.specs.declared.span.RecordSpan.{RecordSpan};
ghost use Rattle.dif_vif.specs.Spans.{LiesWithin};
ghost use Rattle.dif_vif.specs.Stops.{EndsBy};
ghost use Rattle.full_spans.specs.Long.{long_width, EndsFullyBy, IsFullNext};
ghost use Rattle.full_spans.specs.Walk.{behind_fillers, long_at, long_or_fault, next_full_of, stretched};

use crate::heads::{head_span, long_width};
use dif_vif::{RecordFault, RecordSpan, next_record};

/// What stands in a DIF's place and is passed over (EN 13757-3, 6.3).
const FILLER: u8 = 0x2f;

/// The place of the first byte from a place on that is no filler.
fn behind_fillers(bytes: &[u8], from: usize) -> usize
    requires { from ≤ length bytes.now }
    ensures value { result ≡ behind_fillers from (drop from bytes.now) }
    ensures within { result ≤ length bytes.now }
{
    for place in from..bytes.len() {
        if bytes[place] != FILLER {
            return place;
        }
    }
    bytes.len()
}

/// The span of a long record by that of its blocks, or that the bytes from its DIF on, so many, end inside its data.
fn stretched(
    start: usize,
    left: usize,
    dif: u8,
    lvar: u8,
    width: usize,
    next: Result<Option<RecordSpan>, RecordFault>,
) -> Result<Option<RecordSpan>, RecordFault>
    requires fits { start + left < 2 ^ 64 }
    requires text { IfOk next (λ next. IfSome next (λ head. head.text_at ≤ head.end)) }
    requires vifes { IfOk next (λ next. IfSome next (λ head. head.vifes_at ≤ head.end)) }
    requires short { IfOk next (λ next. IfSome next (λ head. head.end ≤ 278)) }
    requires few { width ≤ 64 }
    ensures { result ≡ stretched start left dif lvar width next }
{
    let Ok(Some(head)) = next else {
        return Err(RecordFault::Lvar(lvar));
    };
    if left < head.end + 1 + width {
        return Err(RecordFault::Truncated(start));
    }
    Ok(Some(RecordSpan {
        start,
        end: start + (head.end + 1 + width),
        maker: false,
        dif,
        function: head.function,
        storage: head.storage,
        tariff: head.tariff,
        subunit: head.subunit,
        vif: head.vif,
        text_at: start + head.text_at,
        text_len: head.text_len,
        vifes_at: start + head.vifes_at,
        vifes: head.vifes,
        lvar: Some(lvar),
        data_at: start + (head.end + 1),
        data_len: width,
    }))
}

/// The record behind the fillers, whose LVAR `dif_vif` doesn't read.
fn long_record(bytes: &[u8], from: usize, lvar: u8) -> Result<Option<RecordSpan>, RecordFault>
    requires from { from ≤ length bytes.now }
    requires ends { EndsBy bytes.now from (Lvar lvar) }
    ensures { result ≡ long_or_fault bytes.now (behind_fillers from (drop from bytes.now)) lvar (long_width lvar) }
{
    let Some(width) = long_width(lvar) else {
        return Err(RecordFault::Lvar(lvar));
    };
    let start = behind_fillers(bytes, from);
    let (_, whole) = bytes.split_at(start);
    match whole {
        [] => Err(RecordFault::Lvar(lvar)),
        [dif, rest @ ..] => stretched(start, whole.len(), *dif, lvar, width, head_span(*dif, rest)),
    }
}

fn next_span(bytes: &[u8], from: usize) -> Result<Option<RecordSpan>, RecordFault>
    requires { from ≤ length bytes.now }
    ensures { result ≡ next_full_of bytes.now from }
{
    match next_record(bytes, from) {
        Ok(next) => Ok(next),
        Err(fault) => match fault {
            RecordFault::Lvar(lvar) => long_record(bytes, from, lvar),
            _ => Err(fault),
        },
    }
}

/// The next record from a place on, a long one too, or the first fault on the way through it. Fillers are passed over.
pub fn next_full_record(bytes: &[u8], from: usize) -> Result<Option<RecordSpan>, RecordFault>
    requires { from ≤ length bytes.now }
    // What is answered comes next: a span after fillers, or none after fillers alone.
    ensures found { IfOk result (λ next. IsFullNext bytes.now from next) }
    // What comes next is answered.
    ensures only { (next : Option RecordSpan) → IsFullNext bytes.now from next → result ≡ Ok next }
    // Each fault comes exactly where its cause stands after the fillers.
    ensures cause { (fault : RecordFault) → (result ≡ Err fault) ↔ EndsFullyBy bytes.now from fault }
    // All of it as a function.
    ensures exact { result ≡ next_full_of bytes.now from }
    // A span's places are inside the bytes.
    ensures within { IfOk result (λ next. IfSome next (LiesWithin bytes.now)) }
{
    next_span(bytes, from)
}
