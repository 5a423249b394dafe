//! The lines of fragments.
ghost use Rattle.std.specs.Prelude.{◌≡◌, ◌≤◌, length, Some, None, Ok, OnOk, OnErr, IfOk, IfErr, MatchOption};
ghost use Rattle.state_file.specs.State.{fragment_of, part_of, with_part_in, with_tick};
ghost use Rattle.state_file.specs.Reading.{IsRefusedFor};

use crate::bytes::decode;
use crate::cause::{LineFault, StateCause};
use afl_fragments::{PART_MAX, PARTS_MAX, Part};
use afl_layer::{AFL_CI, read_afl};
use meter_slots::MeterStart;
use plain_text::Fields;
use std::alloc::Global;

#[tactic(auto, unfolding(crate::specs::State::fragment_of))]
fn read_fragment(bytes: &[u8]) -> Option<Part>
    ensures { MatchOption result (fragment_of bytes.now ≡ None) (λ part. fragment_of bytes.now ≡ Some part) }
{
    let [ci, ..] = bytes else {
        return None;
    };
    if *ci != AFL_CI {
        return None;
    }
    let Ok(afl) = read_afl(bytes) else {
        return None;
    };
    if !afl.is_fragment() || afl.fid > PARTS_MAX {
        return None;
    }
    let piece = &bytes[afl.len..];
    if piece.len() > PART_MAX {
        return None;
    }
    Some(Part::new(afl, piece))
}

#[tactic(auto, unfolding(crate::specs::State::part_of))]
fn read_part(alloc: Global, fields: &mut Fields<'_>) -> Result<Part, LineFault>
    ensures found { IfOk result (λ part. part_of fields.old ≡ Ok part) }
    ensures fault { IfErr result (λ fault. IsRefusedFor (part_of fields.old) fault) }
{
    let (Some(text), None) = (fields.next(), fields.next()) else {
        return Err(LineFault::Cause(StateCause::Fields));
    };
    let Ok(bytes) = decode(alloc, text) else {
        return Err(LineFault::Memory);
    };
    let Some(bytes) = bytes else {
        return Err(LineFault::Cause(StateCause::Part));
    };
    match read_fragment(bytes.as_slice()) {
        Some(part) => Ok(part),
        None => Err(LineFault::Cause(StateCause::Part)),
    }
}

/// Reads the fields of a fragment that is held.
pub(crate) fn add_part(
    alloc: Global,
    start: &mut MeterStart,
    fields: &mut Fields<'_>,
) -> Result<(), LineFault>
    ensures ok { OnOk result (with_part_in start.old fields.old ≡ Ok start.new) }
    ensures fault { IfErr result (λ fault. IsRefusedFor (with_part_in start.old fields.old) fault) }
    ensures left { OnErr result (start.new ≡ start.old) }
{
    let part = read_part(alloc, fields)?;
    match start.hold(alloc, part) {
        Ok(()) => Ok(()),
        Err(_) => Err(LineFault::Memory),
    }
}

/// Reads the fields of a tick, of which there are none.
pub(crate) fn add_tick(start: &mut MeterStart, fields: &mut Fields<'_>) -> Result<(), LineFault>
    ensures ok { OnOk result (with_tick start.old fields.old ≡ Ok start.new) }
    ensures fault { IfErr result (λ fault. IsRefusedFor (with_tick start.old fields.old) fault) }
    ensures left { OnErr result (start.new ≡ start.old) }
{
    if fields.next().is_some() {
        return Err(LineFault::Cause(StateCause::Fields));
    }
    start.tick();
    Ok(())
}
