//! The blocks of a record with a long number: DIF, DIFEs, VIF, text and VIFEs.

ghost use Rattle.std.specs.Prelude.{◌≡◌, ◌≤◌, ◌<◌, ◌+◌, ◌∷◌, length, ℕ, IfOk, IfSome};
ghost use Rattle.dif_vif.specs.Stops.{HasUnusedLvar};
ghost use Rattle.dif_vif.specs.Reading.{next_of};
ghost use Rattle.full_spans.specs.Long.{long_width};
ghost use Rattle.full_spans.specs.Walk.{bare};

use dif_vif::{RecordFault, RecordSpan, next_record};

/// How many bytes an LVAR announces that stands for a long binary number (EN 13757-3, 6.3).
pub fn long_width(lvar: u8) -> Option<usize>
    ensures value { result ≡ long_width lvar }
    ensures few { IfSome result (λ width. width ≤ 64) }
{
    match lvar {
        0xf0..=0xf4 => Some(4 * usize::from(lvar - 0xec)),
        0xf5 => Some(48),
        0xf6 => Some(64),
        _ => None,
    }
}

/// How long the blocks of a record are at most: a DIF, ten DIFEs, a VIF, a text of 255 letters behind its length, and
/// ten VIFEs (EN 13757-3, 6.3 and 6.4).
const HEAD_MAX: usize = 278;

/// The span of the record's blocks, from the DIF on, of a record that has an LVAR behind them. With the data field 0
/// in the DIF they are a record without data, which is read by itself.
pub fn head_span(dif: u8, rest: &[u8]) -> Result<Option<RecordSpan>, RecordFault>
    ensures exact { (lvar : ℕ) → HasUnusedLvar (dif ∷ rest.now) lvar → result ≡ next_of (bare dif rest.now) 0 }
    ensures text { IfOk result (λ next. IfSome next (λ head. head.text_at ≤ head.end)) }
    ensures vifes { IfOk result (λ next. IfSome next (λ head. head.vifes_at ≤ head.end)) }
    ensures short { IfOk result (λ next. IfSome next (λ head. head.end ≤ 278)) }
{
    let mut head = [0; HEAD_MAX];
    let count = rest.len().min(HEAD_MAX - 1);
    head[0] = dif / 16 * 16;
    head[1..1 + count].copy_from_slice(&rest[..count]);
    next_record(&head[..1 + count], 0)
}
