//! The text of a state.
ghost use Rattle.std.specs.Prelude.{◌≡◌, ◌||◌, IfOk};
ghost use Rattle.std.specs.List.{flat_map};
ghost use Rattle.std.specs.Option.{option_copied};
ghost use Rattle.afl_fragments.specs.Held.{held};
ghost use Rattle.paper.specs.Puts.{Puts};
ghost use Rattle.state_file.specs.Text.{bytes_text};
ghost use Rattle.state_file.specs.Recommissioning.{recommissioned};
ghost use Rattle.state_file.specs.Written.{block_text, state_text};
ghost use Rattle.state_file.specs.Printing.{reading_text, readings_text, payload_text, part_text, kind_if, some_kind, kind_text, has_kind, marks_text, tick_text, said_text, command_text, command_if, window_word, word_at, commands_text};

use crate::state::State;
use afl_fragments::{HeldPart, Part, SPELT_MAX};
use command_queue::{Command, Queue, Window};
use meter_address::Commission;
use meter_slots::{KnownMeter, MeterStart, Reading};
use outer_io::Memory;
use paper::{Paper, Printed, put_hex, put_number, put_text, written};
use roster_file::{put_meter, put_own};
use std::alloc::Global;

fn put_bytes<P: Paper>(paper: &mut P, bytes: &[u8])
    ensures { Puts P.takes paper.old (bytes_text bytes.now) paper.new }
{
    match bytes {
        [] => put_text(paper, "-"),
        [_, ..] => put_hex(paper, bytes),
    }
}

#[tactic(auto, unfolding(crate::specs::Printing::payload_text), using(paper::proofs::Calls::two_make))]
fn put_payload<P: Paper>(paper: &mut P, bytes: &[u8])
    ensures { Puts P.takes paper.old (payload_text bytes.now) paper.new }
{
    put_bytes(paper, bytes);
    put_text(paper, "\n");
}

#[tactic(auto, using(crate::proofs::StatePieces::reading_pieces))]
fn put_reading<P: Paper>(paper: &mut P, reading: &Reading)
    ensures { Puts P.takes paper.old (reading_text reading.now) paper.new }
{
    put_text(paper, "reading ");
    put_number(paper, reading.at);
    put_text(paper, " ");
    put_number(paper, u64::from(reading.counter));
    put_text(paper, " ");
    put_payload(paper, reading.payload.bytes());
}

#[tactic(auto, using(crate::proofs::StatePieces::no_reading, crate::proofs::StatePieces::one_reading))]
fn put_readings<P: Paper>(paper: &mut P, reading: Option<&Reading>)
    ensures { Puts P.takes paper.old (readings_text (option_copied reading.entry)) paper.new }
{
    if let Some(reading) = reading {
        put_reading(paper, reading);
    }
}

#[tactic(auto, using(crate::proofs::StatePieces::part_pieces))]
fn put_part<P: Paper>(paper: &mut P, part: &Part)
    ensures { Puts P.takes paper.old (part_text part.now) paper.new }
{
    let mut out = [0; SPELT_MAX];
    let len = part.spell(&mut out);
    put_text(paper, "part ");
    put_hex(paper, &out[..len]);
    put_text(paper, "\n");
}

// A fragment, where it is one that saw no tick, or one that saw one, and whether it is.
fn put_if_kind<P: Paper>(paper: &mut P, part: Option<&HeldPart>, fresh: bool) -> bool
    ensures puts { Puts P.takes paper.old (kind_if fresh (option_copied part.entry)) paper.new }
    ensures is { result ≡ some_kind fresh (option_copied part.entry) }
{
    let Some(part) = part else {
        return false;
    };
    let of_kind = if fresh {
        part.is_fresh()
    } else {
        !part.is_fresh()
    };
    if of_kind {
        put_part(paper, part.part());
    }
    of_kind
}

fn either(a: bool, b: bool) -> bool
    ensures { result ≡ (a || b) }
{
    a || b
}

// The fragments that saw no tick, or those that saw one, the oldest first, and whether there is one.
fn put_kind<P: Paper>(paper: &mut P, known: &KnownMeter<'_>, fresh: bool) -> bool
    ensures puts { Puts P.takes paper.old (kind_text fresh (held known.now.told)) paper.new }
    ensures any { result ≡ has_kind fresh (held known.now.told) }
{
    let mut any = false;
    let mut left = known.part_count();
    'parts: while left > 0 {
        left -= 1;
        let one = put_if_kind(paper, known.part_at(left), fresh);
        any = either(one, any);
    }
    any
}

fn put_tick<P: Paper>(paper: &mut P, old: bool)
    ensures { Puts P.takes paper.old (tick_text old) paper.new }
{
    if old {
        put_text(paper, "tick\n");
    }
}

#[tactic(auto, unfolding(crate::specs::Printing::marks_text), using(paper::proofs::Calls::three_make))]
fn put_marks<P: Paper>(paper: &mut P, known: &KnownMeter<'_>)
    ensures { Puts P.takes paper.old (marks_text (held known.now.told)) paper.new }
{
    let old = put_kind(paper, known, false);
    put_tick(paper, old);
    let _ = put_kind(paper, known, true);
}

#[tactic(auto, unfolding(crate::specs::Printing::said_text), using(paper::proofs::Calls::four_make))]
fn put_said<P: Paper>(paper: &mut P, command: &Command)
    ensures { Puts P.takes paper.old (said_text command.now) paper.new }
{
    put_number(paper, u64::from(command.tries));
    put_text(paper, " ");
    put_hex(paper, command.payload.bytes());
    put_text(paper, "\n");
}

#[tactic(auto, using(crate::proofs::StatePieces::command_pieces))]
fn put_command<P: Paper>(paper: &mut P, word: &str, command: &Command)
    ensures { Puts P.takes paper.old (command_text word.now command.now) paper.new }
{
    put_text(paper, word);
    put_text(paper, " ");
    put_number(paper, u64::from(command.id));
    put_text(paper, " ");
    put_said(paper, command);
}

fn put_command_if<P: Paper>(paper: &mut P, word: &str, command: Option<&Command>)
    ensures { Puts P.takes paper.old (command_if word.now (option_copied command.entry)) paper.new }
{
    if let Some(command) = command {
        put_command(paper, word, command);
    }
}

fn window_word(window: Window) -> &'static str
    ensures { result.now ≡ window_word window }
{
    match window {
        Window::Idle => "command",
        Window::Waiting(_) => "waits",
    }
}

fn word_at(window: Window, place: usize) -> &'static str
    ensures { result.now ≡ word_at window place }
{
    match place {
        0 => window_word(window),
        _ => "command",
    }
}

fn put_commands<P: Paper>(paper: &mut P, window: Window, queue: &Queue)
    ensures { Puts P.takes paper.old (commands_text window queue.now.commands) paper.new }
{
    for place in 0..queue.pending() {
        put_command_if(paper, word_at(window, place), queue.at(place));
    }
}

/// Puts the block of a known meter under this commission, which counts in place of the meter's own.
#[tactic(auto, using(crate::proofs::StatePieces::block_pieces))]
pub fn put_block_as<P: Paper>(paper: &mut P, commission: &Commission, known: &KnownMeter<'_>)
    ensures { Puts P.takes paper.old (block_text (recommissioned known.now commission.now)) paper.new }
{
    known.show();
    put_meter(paper, commission);
    put_readings(paper, known.reading());
    put_marks(paper, known);
    put_commands(paper, known.window(), known.queue());
}

/// Puts the block of a meter: its line, and those below it that say what is known of it.
pub fn put_block<P: Paper>(paper: &mut P, known: &KnownMeter<'_>)
    ensures { Puts P.takes paper.old (block_text known.now) paper.new }
{
    put_block_as(paper, &known.commission(), known);
}

#[tactic(auto, using(paper::proofs::Items::one_item))]
fn put_blocks<P: Paper>(paper: &mut P, starts: &[MeterStart])
    ensures { Puts P.takes paper.old (flat_map block_text starts.now) paper.new }
{
    for start in starts {
        put_block(paper, &start.known());
    }
}

impl Printed for State {
    ghost use Rattle.state_file.specs.Written.{state_text};

    ghost text = { state_text };

    #[tactic(auto, unfolding(crate::specs::Written::state_text), using(paper::proofs::Calls::four_make))]
    fn print<P: Paper>(&self, paper: &mut P) {
        put_text(paper, "wmbus-state 1\n");
        put_own(paper, self.own());
        put_blocks(paper, self.starts());
        put_text(paper, "end\n");
    }
}

/// The text of a state, if there is memory for it. What writes the text takes none.
pub fn write_state(alloc: Global, state: &State) -> Result<Vec<u8>, Memory>
    ensures { IfOk result (λ bytes. bytes.items ≡ state_text state.now) }
{
    written(alloc, state)
}
