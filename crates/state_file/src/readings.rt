//! The line of a reading.
ghost use Rattle.std.specs.Prelude.{◌≡◌, ◌≤◌, length, Some, Ok, OnOk, OnErr, IfOk, IfErr};
ghost use Rattle.state_file.specs.State.{reading_of, with_reading_in};
ghost use Rattle.state_file.specs.Reading.{IsRefusedFor};

use crate::bytes::decode_or_dash;
use crate::cause::{LineFault, StateCause};
use meter_slots::MeterStart;
use plain_text::{Fields, read_number};
use std::alloc::Global;

// The most bytes of a reading's payload.
const PAYLOAD_MOST: usize = 4_096;

// What the fields of a reading say.
#[derive(Drop)]
struct Read {
    at: u64,
    counter: u32,
    payload: Vec<u8>,
}

#[tactic(auto, unfolding(crate::specs::State::reading_of))]
fn read_reading(alloc: Global, fields: &mut Fields<'_>) -> Result<Read, LineFault>
    ensures most { IfOk result (λ r. length r.payload.items ≤ 4096) }
    ensures found { IfOk result (λ r.
        reading_of fields.old ≡ Ok (record { at = r.at; counter = r.counter; payload = r.payload.items })) }
    ensures fault { IfErr result (λ fault. IsRefusedFor (reading_of fields.old) fault) }
{
    let (Some(at), Some(counter), Some(payload), None) = (
        fields.next(),
        fields.next(),
        fields.next(),
        fields.next(),
    ) else {
        return Err(LineFault::Cause(StateCause::Fields));
    };
    let Some(at) = read_number(at, u64::MAX) else {
        return Err(LineFault::Cause(StateCause::At));
    };
    let Some(counter) = read_number(counter, u64::from(u32::MAX)) else {
        return Err(LineFault::Cause(StateCause::Counter));
    };
    let Ok(bytes) = decode_or_dash(alloc, payload) else {
        return Err(LineFault::Memory);
    };
    let Some(payload) = bytes else {
        return Err(LineFault::Cause(StateCause::Payload));
    };
    if payload.len() > PAYLOAD_MOST {
        return Err(LineFault::Cause(StateCause::Payload));
    }
    Ok(Read {
        at,
        counter: counter as u32,
        payload,
    })
}

/// Reads the fields of a reading, which is the meter's first one.
pub(crate) fn add_reading(
    alloc: Global,
    start: &mut MeterStart,
    fields: &mut Fields<'_>,
) -> Result<(), LineFault>
    ensures ok { OnOk result (with_reading_in start.old start.old.reading fields.old ≡ Ok start.new) }
    ensures fault { IfErr result (λ fault. IsRefusedFor (with_reading_in start.old start.old.reading fields.old) fault) }
    ensures left { OnErr result (start.new ≡ start.old) }
{
    if start.reading().is_some() {
        return Err(LineFault::Cause(StateCause::Twice));
    }
    let read = read_reading(alloc, fields)?;
    match start.keep(alloc, read.at, read.counter, read.payload.as_slice()) {
        Ok(()) => Ok(()),
        Err(_) => Err(LineFault::Memory),
    }
}
