//! A line below a meter's line.
ghost use Rattle.std.specs.Prelude.{◌≡◌, Ok, OnOk, OnErr, IfErr};
ghost use Rattle.plain_text.specs.Parts.{is_word};
ghost use Rattle.state_file.specs.State.{with_fields, with_line};
ghost use Rattle.state_file.specs.Reading.{IsRefusedFor};

use crate::cause::{LineFault, StateCause};
use crate::commands::add_command;
use crate::parts::{add_part, add_tick};
use crate::readings::add_reading;
use meter_slots::MeterStart;
use plain_text::Fields;
use std::alloc::Global;

fn read_fields(
    alloc: Global,
    start: &mut MeterStart,
    fields: &mut Fields<'_>,
) -> Result<(), LineFault>
    ensures ok { OnOk result (with_fields start.old fields.old ≡ Ok start.new) }
    ensures fault { IfErr result (λ fault. IsRefusedFor (with_fields start.old fields.old) fault) }
    ensures left { OnErr result (start.new ≡ start.old) }
{
    let Some(kind) = fields.next() else {
        return Err(LineFault::Cause(StateCause::Kind));
    };
    if kind == b"reading".as_slice() {
        return add_reading(alloc, start, fields);
    }
    if kind == b"part".as_slice() {
        return add_part(alloc, start, fields);
    }
    if kind == b"tick".as_slice() {
        return add_tick(start, fields);
    }
    if kind == b"waits".as_slice() {
        return add_command(alloc, start, true, fields);
    }
    if kind == b"command".as_slice() {
        return add_command(alloc, start, false, fields);
    }
    Err(LineFault::Cause(StateCause::Kind))
}

/// Reads a line below a meter's line: what it adds to what is known of the meter, or its first fault, for which nothing is added.
pub fn read_line(alloc: Global, start: &mut MeterStart, line: &[u8]) -> Result<(), LineFault>
    ensures ok { OnOk result (with_line start.old line.now ≡ Ok start.new) }
    ensures fault { IfErr result (λ fault. IsRefusedFor (with_line start.old line.now) fault) }
    ensures left { OnErr result (start.new ≡ start.old) }
{
    read_fields(alloc, start, &mut Fields::of_line(line))
}
