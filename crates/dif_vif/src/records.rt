//! The records of a payload, one after another.

ghost use Rattle.std.specs.Prelude.{◌≡◌, ◌+◌, ◌^◌, ◌<◌, ◌≤◌, length, drop, Option, ◌↔◌, Ok, Err, IsErr, IfOk, IfSome};
ghost use Rattle.dif_vif.specs.declared.span.RecordSpan.{RecordSpan};
ghost use Rattle.dif_vif.specs.Spelling.{IsRecord, spelling};
ghost use Rattle.dif_vif.specs.Spans.{span_of, maker_span, LiesWithin, IsNext, NoneBegins};
ghost use Rattle.dif_vif.specs.Stops.{EndsBy};
ghost use Rattle.dif_vif.specs.Reading.{span_at, next_of};
ghost use Rattle.dif_vif.specs.declared.fault.RecordFault.{RecordFault};
ghost use Rattle.dif_vif.specs.Views.{data_record};

use crate::fault::RecordFault;
use crate::numbers::{storage_of, subunit_of, tariff_of};
use crate::parts::{RecordParts, record_of};
use crate::span::RecordSpan;

/// What stands in a DIF's place and is passed over (EN 13757-3, 6.3).
const FILLER: u8 = 0x2f;

/// The DIFs of manufacturer data: the second says that more follow in the next message (EN 13757-3, 6.3).
const MAKER: u8 = 0x0f;

const MAKER_AND_MORE: u8 = 0x1f;

fn span_of(start: usize, found: &RecordParts<'_>) -> RecordSpan
    requires is_record { IsRecord (data_record found.now) }
    requires fits { start + length (spelling (data_record found.now)) < 2 ^ 64 }
    ensures { result ≡ span_of start (data_record found.now) }
{
    let RecordParts { dib, vib, contents } = *found;
    let vifes_at = start + 1 + dib.difes.len() + 1 + vib.text.len();
    let text_len = vib.text.len().saturating_sub(1);
    let data_at = vifes_at + vib.vifes.len() + usize::from(contents.lvar.is_some());
    RecordSpan {
        start,
        end: data_at + contents.sent.len(),
        maker: false,
        dif: dib.dif,
        function: dib.dif / 16 % 4,
        storage: storage_of(dib.dif, dib.difes),
        tariff: tariff_of(dib.difes),
        subunit: subunit_of(dib.difes),
        vif: vib.vif,
        text_at: vifes_at - text_len,
        text_len,
        vifes_at,
        vifes: vib.vifes.len(),
        lvar: contents.lvar,
        data_at,
        data_len: contents.sent.len(),
    }
}

fn maker_span(start: usize, dif: u8, len: usize) -> RecordSpan
    requires { start < len }
    ensures { result ≡ maker_span start dif len }
{
    RecordSpan {
        start,
        end: len,
        maker: true,
        dif,
        function: 0,
        storage: 0,
        tariff: 0,
        subunit: 0,
        vif: 0,
        text_at: 0,
        text_len: 0,
        vifes_at: 0,
        vifes: 0,
        lvar: None,
        data_at: start + 1,
        data_len: len - (start + 1),
    }
}

#[tactic(auto, unfolding(crate::specs::Reading::span_at))]
fn span_at(bytes: &[u8], start: usize) -> Result<RecordSpan, RecordFault>
    requires { start < length bytes.now }
    ensures { result ≡ span_at (length bytes.now) start (drop start bytes.now) }
{
    let dif = bytes[start];
    if dif == MAKER || dif == MAKER_AND_MORE {
        return Ok(maker_span(start, dif, bytes.len()));
    }
    let (_, rest) = bytes.split_at(start);
    let (found, _) = record_of(start, rest)?;
    Ok(span_of(start, &found))
}

fn next_span(bytes: &[u8], from: usize) -> Result<Option<RecordSpan>, RecordFault>
    requires { from ≤ length bytes.now }
    ensures { result ≡ next_of bytes.now from }
{
    for start in from..bytes.len() {
        if bytes[start] != FILLER {
            return Ok(Some(span_at(bytes, start)?));
        }
    }
    Ok(None)
}

/// The next record from a place on, or the first fault on the way through it. Fillers are passed over.
pub fn next_record(bytes: &[u8], from: usize) -> Result<Option<RecordSpan>, RecordFault>
    requires { from ≤ length bytes.now }
    // What is answered comes next: a span after fillers, or none after fillers alone.
    ensures found { IfOk result (λ next. IsNext bytes.now from next) }
    // What comes next is answered.
    ensures only { (next : Option RecordSpan) → IsNext bytes.now from next → result ≡ Ok next }
    // A fault comes exactly where no record begins after the fillers.
    ensures refused { IsErr result ↔ NoneBegins bytes.now from }
    // Each fault comes exactly where its cause stands after the fillers.
    ensures cause { (fault : RecordFault) → (result ≡ Err fault) ↔ EndsBy bytes.now from fault }
    // All of it as a function that reads from left to right.
    ensures exact { result ≡ next_of bytes.now from }
    // A span begins no earlier, and its places are inside the bytes.
    ensures onward { IfOk result (λ next. IfSome next (λ span. from ≤ span.start)) }
    ensures within { IfOk result (λ next. IfSome next (LiesWithin bytes.now)) }
{
    next_span(bytes, from)
}
