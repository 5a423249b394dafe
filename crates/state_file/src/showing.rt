//! What is known of a meter can be told.
ghost use Rattle.std.specs.Prelude.{◌≡◌, ◌≤◌, ◌<◌, ◌^◌, length, map, slice_get, All, IfSome, Ok};
ghost use Rattle.std.specs.Option.{ForSome};
ghost use Rattle.std.specs.Option.{option_copied};
ghost use Rattle.hex.specs.Hex.{IsBytes};
ghost use Rattle.afl_fragments.specs.Held.{held};
ghost use Rattle.meter_address.specs.Commission.{IsCommission, IsKey};
ghost use Rattle.state_file.specs.Text.{IsSpeltReading, IsSpeltPart};
ghost use Rattle.meter_slots.specs.Resuming.{known_now};
ghost use Rattle.roster_file.specs.Roster.{roster_of};
ghost use Rattle.roster_file.specs.Text.{roster_text};
ghost use Rattle.state_file.specs.Left.{IsLeft, left_roster, left_state};
ghost use Rattle.state_file.specs.Rooms.{HasRoom};
ghost use Rattle.state_file.specs.Whole.{state_of};
ghost use Rattle.state_file.specs.Written.{IsStart, IsState, state_text};
ghost use Rattle.state_file.specs.Telling.{HasSpelt, IsSayable};

use crate::state::State;
use afl_fragments::{HeldPart, SPELT_MAX};
use command_queue::{Command, Queue};
use meter_address::{Address, Commission};
use meter_slots::{KnownMeter, MeterStart, Reading, SlotBook};

fn show_bytes(bytes: &[u8])
    ensures { IsBytes bytes.now }
{
    let (_front, _rest) = bytes.split_at(0);
}

fn show_key(key: [u8; 16])
    ensures { IsKey key }
{
    show_bytes(&key);
}

fn show_other(key: Option<[u8; 16]>)
    ensures { ForSome key IsKey }
{
    if let Some(key) = key {
        show_key(key);
    }
}

fn show_long(number: u64)
    ensures { number < 2 ^ 64 }
{}

fn show_number(number: u32)
    ensures { number < 2 ^ 32 }
{}

fn show_commission(commission: &Commission)
    ensures { IsCommission commission.now }
{
    show_long(commission.address.0);
    show_key(commission.key);
    show_other(commission.other);
    show_number(commission.down);
    show_number(commission.ids);
}

fn show_reading(reading: Option<&Reading>)
    ensures { IfSome (option_copied reading.entry) IsSpeltReading }
{
    if let Some(reading) = reading {
        show_long(reading.at);
        show_number(reading.counter);
        show_bytes(reading.payload.bytes());
    }
}

fn show_part(part: &HeldPart)
    requires { part.now.part.afl.fid ≤ 16 }
    ensures { HasSpelt part.now }
{
    let mut out = [0; SPELT_MAX];
    let len = part.part().spell(&mut out);
    show_bytes(&out[..len]);
}

fn show_part_at(known: &KnownMeter<'_>, place: usize)
    ensures { IfSome (slice_get (held known.now.told) place) HasSpelt }
{
    if let Some(part) = known.part_at(place) {
        show_part(part);
    }
}

#[tactic(auto, using(meter_slots::proofs::Starting::all_more))]
fn show_parts(known: &KnownMeter<'_>)
    ensures { All HasSpelt (held known.now.told) }
{
    for place in 0..known.part_count() {
        show_part_at(known, place);
    }
}

fn show_command(command: &Command)
    ensures { IsSayable command.now }
{
    show_number(command.id);
    show_bytes(command.payload.bytes());
}

fn show_command_at(queue: &Queue, place: usize)
    ensures { IfSome (slice_get queue.now.commands place) IsSayable }
{
    if let Some(command) = queue.at(place) {
        show_command(command);
    }
}

#[tactic(auto, using(meter_slots::proofs::Starting::all_more))]
fn show_commands(queue: &Queue)
    ensures { All IsSayable queue.now.commands }
{
    for place in 0..queue.pending() {
        show_command_at(queue, place);
    }
}

/// What is known of a meter can be told, whatever it is. Nothing is done: the type says it.
#[tactic(auto, using(crate::proofs::Telling::can_be_told))]
pub fn show_known(known: &KnownMeter<'_>)
    ensures { IsStart known.now }
{
    known.show();
    show_commission(&known.commission());
    show_reading(known.reading());
    let _ = known.part_count();
    show_parts(known);
    show_commands(known.queue());
}

fn show_start_at(starts: &[MeterStart], place: usize)
    ensures { IfSome (slice_get starts.now place) IsStart }
{
    if let Some(start) = starts.get(place) {
        show_known(&start.known());
    }
}

#[tactic(auto, using(meter_slots::proofs::Starting::all_more))]
fn show_starts(starts: &[MeterStart])
    ensures { All IsStart starts.now }
{
    for place in 0..starts.len() {
        show_start_at(starts, place);
    }
}

fn show_slot_at(slots: &[SlotBook], place: usize)
    ensures { IfSome (slice_get slots.now place) IsLeft }
{
    if let Some(slot) = slots.get(place) {
        show_known(&slot.known());
    }
}

#[tactic(auto, using(meter_slots::proofs::Starting::all_more))]
fn show_slots(slots: &[SlotBook])
    ensures { All IsLeft slots.now }
{
    for place in 0..slots.len() {
        show_slot_at(slots, place);
    }
}

/// What slots leave is read back from its texts. Nothing is done: the types say it.
pub fn show_left(own: Address, slots: &[SlotBook])
    requires { HasRoom (map known_now slots.now) }
    ensures state { state_of (state_text (left_state own slots.now)) ≡ Ok (left_state own slots.now) }
    ensures roster { roster_of (roster_text (left_roster own slots.now)) ≡ Ok (left_roster own slots.now) }
{
    show_long(own.0);
    show_slots(slots);
}

/// Each state can be written, and is read back from its text then.
#[tactic(auto, using(crate::proofs::Telling::state_can_be_written))]
pub fn show_state(state: &State)
    ensures { IsState state.now }
{
    show_long(state.own().0);
    show_starts(state.starts());
}
