//! A meter with its last reading, as a value of `serde_json` and as the text that it prints.
ghost use Rattle.std.specs.Prelude.{◌≡◌, IfOk, string_bytes, option_copied, option_map};
ghost use Rattle.serde_json.specs.Data.{number, object, unsigned};
ghost use Rattle.serde_json.specs.View.{view};
ghost use Rattle.serde_json.specs.Written.{compact_text};
ghost use Rattle.report_text.specs.Readings.{or_null, mode_number, payload_of, members, meter_members, meter_tree};

use crate::listing::ending_of;
use crate::record_trees::{fault_value, put_bytes, records_value};
use meter_address::{Address, Mode};
use meter_slots::{Reading, SlotBook};
use outer_io::Memory;
use serde_json::{Map, Value as Json, put};
use std::alloc::Global;

fn mode_value(mode: Mode) -> Json
    ensures { view result ≡ number (unsigned (mode_number mode)) }
{
    match mode {
        Mode::Five => Json::from(5u8),
        Mode::Seven => Json::from(7u8),
    }
}

fn at_value(reading: Option<&Reading>) -> Json
    ensures { view result ≡ or_null (option_map (λ r. number (unsigned r.at)) (option_copied reading.entry)) }
{
    match reading {
        None => Json::Null,
        Some(reading) => Json::from(reading.at),
    }
}

fn counter_value(reading: Option<&Reading>) -> Json
    ensures { view result ≡ or_null (option_map (λ r. number (unsigned r.counter)) (option_copied reading.entry)) }
{
    match reading {
        None => Json::Null,
        Some(reading) => Json::from(reading.counter),
    }
}

/// The payload of a reading, or no bytes where there is no reading.
pub(crate) fn payload_of(reading: Option<&Reading>) -> &[u8]
    ensures { result.now ≡ payload_of (option_copied reading.entry) }
{
    match reading {
        None => &[],
        Some(reading) => reading.payload.bytes(),
    }
}

fn meter_value(
    alloc: Global,
    address: Address,
    mode: Mode,
    last: Option<&Reading>,
    payload: &[u8],
) -> Result<Json, Memory>
    ensures { IfOk result
        (λ v. view v ≡ object (members (meter_members address mode (option_copied last.entry) payload.now))) }
{
    let ending = ending_of(payload);
    let mut meter = Map::new(alloc);
    put_bytes(&mut meter, alloc, "address", &address.to_bytes())?;
    put(&mut meter, alloc, "at", at_value(last))?;
    put(&mut meter, alloc, "counter", counter_value(last))?;
    put(
        &mut meter,
        alloc,
        "fault",
        fault_value(alloc, ending.fault)?,
    )?;
    put(&mut meter, alloc, "mode", mode_value(mode))?;
    put(&mut meter, alloc, "more", Json::from(ending.more))?;
    put(&mut meter, alloc, "records", records_value(alloc, payload)?)?;
    Ok(Json::from(meter))
}

fn slot_value(alloc: Global, slot: &SlotBook) -> Result<Json, Memory>
    ensures { IfOk result (λ v. view v ≡ meter_tree slot.now) }
{
    let now = slot.commission();
    let last = slot.last_reading();
    meter_value(alloc, now.address, now.mode, last, payload_of(last))
}

/// The object of a meter as `serde_json` prints it, if there is memory for it.
pub(crate) fn slot_text(alloc: Global, slot: &SlotBook) -> Result<String, Memory>
    ensures { IfOk result (λ text. string_bytes text ≡ compact_text (meter_tree slot.now)) }
{
    Ok(slot_value(alloc, slot)?.to_string(alloc)?)
}
