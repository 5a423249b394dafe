//! The lines of commands.
ghost use Rattle.std.specs.Prelude.{◌≡◌, ◌≤◌, length, Some, None, Ok, OnOk, OnErr, IfOk, IfErr};
ghost use Rattle.state_file.specs.State.{command_of, with_command_in};
ghost use Rattle.state_file.specs.Reading.{IsRefusedFor};

use crate::bytes::decode;
use crate::cause::{LineFault, StateCause};
use command_queue::{Command, TRIES_MAX};
use meter_address::Payload;
use meter_slots::MeterStart;
use plain_text::{Fields, read_number};
use std::alloc::Global;

#[tactic(auto, unfolding(crate::specs::State::command_of))]
fn read_command(alloc: Global, fields: &mut Fields<'_>) -> Result<Command, LineFault>
    ensures found { IfOk result (λ command. command_of fields.old ≡ Ok command) }
    ensures fault { IfErr result (λ fault. IsRefusedFor (command_of fields.old) fault) }
{
    let (Some(id), Some(tries), Some(payload), None) = (
        fields.next(),
        fields.next(),
        fields.next(),
        fields.next(),
    ) else {
        return Err(LineFault::Cause(StateCause::Fields));
    };
    let Some(id) = read_number(id, u64::from(u32::MAX)) else {
        return Err(LineFault::Cause(StateCause::Id));
    };
    let Some(tries) = read_number(tries, u64::from(TRIES_MAX)) else {
        return Err(LineFault::Cause(StateCause::Tries));
    };
    let Ok(bytes) = decode(alloc, payload) else {
        return Err(LineFault::Memory);
    };
    let Some(bytes) = bytes else {
        return Err(LineFault::Cause(StateCause::Payload));
    };
    let Some(payload) = Payload::new(bytes.as_slice()) else {
        return Err(LineFault::Cause(StateCause::Payload));
    };
    Ok(Command {
        id: id as u32,
        tries: tries as u8,
        payload,
    })
}

/// Reads the fields of a command that waits; `waits` says whether the window waits for it.
#[tactic(auto, unfolding(meter_slots::specs::Restoring::restored))]
pub(crate) fn add_command(
    alloc: Global,
    start: &mut MeterStart,
    waits: bool,
    fields: &mut Fields<'_>,
) -> Result<(), LineFault>
    ensures ok { OnOk result (with_command_in start.old waits fields.old ≡ Ok start.new) }
    ensures fault { IfErr result (λ fault. IsRefusedFor (with_command_in start.old waits fields.old) fault) }
    ensures left { OnErr result (start.new ≡ start.old) }
{
    let command = read_command(alloc, fields)?;
    if start.restore(command, waits) {
        Ok(())
    } else {
        Err(LineFault::Cause(StateCause::Command))
    }
}
