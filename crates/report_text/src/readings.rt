//! The last readings of the meters, as JSON.
ghost use Rattle.std.specs.Prelude.{◌≡◌, ◌++◌, ◌≤◌, ◌^◌, ◌<◌, map, false, Some, IfSome, IsTrue, OnOk, OnErr, option_copied, option_map};
ghost use Rattle.std.specs.List.{All};
ghost use Rattle.outer_io.specs.Bytes.{AppendsFront};
ghost use Rattle.outer_io.specs.Faults.{Rose};
ghost use Rattle.serde_json.specs.Data.{number, boolean, object, unsigned};
ghost use Rattle.serde_json.specs.Read.{read};
ghost use Rattle.serde_json.specs.View.{items_of};
ghost use Rattle.serde_json.specs.Written.{compact_text, items_text};
ghost use Rattle.paper.specs.Puts.{Puts};
ghost use Rattle.report_text.specs.Readings.{or_null, mode_number, members, meter_members, meter_tree};
ghost use Rattle.report_text.specs.Readings.{readings_tree, readings_text, IsNumbered, LastIsNumbered};

use crate::entries::{put_comma, put_digits, put_entries, put_fault};
use crate::lent::Session;
use crate::listing::ending_of;
use crate::meter_trees::{payload_of, slot_text};
use meter_address::{Address, Mode};
use meter_slots::{Reading, SlotBook};
use outer_io::{Failed, Sink};
use paper::{Paper, Printed, put_number, put_text, write};
use std::alloc::Global;

fn put_mode<P: Paper>(paper: &mut P, mode: Mode)
    ensures { Puts P.takes paper.old (compact_text (number (unsigned (mode_number mode)))) paper.new }
{
    match mode {
        Mode::Five => put_number(paper, 5),
        Mode::Seven => put_number(paper, 7),
    }
}

fn put_at<P: Paper>(paper: &mut P, reading: Option<&Reading>)
    ensures { Puts P.takes paper.old
        (compact_text (or_null (option_map (λ r. number (unsigned r.at)) (option_copied reading.entry)))) paper.new }
{
    match reading {
        None => put_text(paper, "null"),
        Some(reading) => put_number(paper, reading.at),
    }
}

fn put_counter<P: Paper>(paper: &mut P, reading: Option<&Reading>)
    ensures { Puts P.takes paper.old
        (compact_text (or_null (option_map (λ r. number (unsigned r.counter)) (option_copied reading.entry)))) paper.new }
{
    match reading {
        None => put_text(paper, "null"),
        Some(reading) => put_number(paper, reading.counter as u64),
    }
}

/// Puts `true` or `false`.
pub fn put_truth<P: Paper>(paper: &mut P, holds: bool)
    ensures { Puts P.takes paper.old (compact_text (boolean holds)) paper.new }
{
    if holds {
        put_text(paper, "true")
    } else {
        put_text(paper, "false")
    }
}

fn put_meter<P: Paper>(
    paper: &mut P,
    address: Address,
    mode: Mode,
    last: Option<&Reading>,
    payload: &[u8],
)
    ensures { Puts P.takes paper.old
        (compact_text (object (members (meter_members address mode (option_copied last.entry) payload.now)))) paper.new }
{
    let ending = ending_of(payload);
    put_text(paper, "{\"address\":\"");
    put_digits(paper, &address.to_bytes());
    put_text(paper, "\",\"at\":");
    put_at(paper, last);
    put_text(paper, ",\"counter\":");
    put_counter(paper, last);
    put_text(paper, ",\"fault\":");
    put_fault(paper, ending.fault);
    put_text(paper, ",\"mode\":");
    put_mode(paper, mode);
    put_text(paper, ",\"more\":");
    put_truth(paper, ending.more);
    put_text(paper, ",\"records\":");
    put_entries(paper, payload);
    put_text(paper, "}");
}

// Puts a meter piece by piece, which takes no memory.
fn put_slot<P: Paper>(paper: &mut P, slot: &SlotBook)
    ensures { Puts P.takes paper.old (compact_text (meter_tree slot.now)) paper.new }
{
    let now = slot.commission();
    let last = slot.last_reading();
    put_meter(paper, now.address, now.mode, last, payload_of(last));
}

// Puts a meter as `serde_json` prints its object, or piece by piece where there is no memory for that. The text is the same.
fn put_item<P: Paper>(paper: &mut P, alloc: Global, slot: &SlotBook)
    ensures { Puts P.takes paper.old (compact_text (meter_tree slot.now)) paper.new }
{
    match slot_text(alloc, slot) {
        Ok(text) => put_text(paper, text.as_str()),
        Err(_) => put_slot(paper, slot),
    }
}

// The meters, one after another, and the closing bracket.
fn put_items<P: Paper>(paper: &mut P, alloc: Global, slots: &[SlotBook])
    ensures { Puts P.takes paper.old (items_text false (items_of (map meter_tree slots.now))) paper.new }
{
    let mut later = false;
    for slot in slots {
        put_comma(paper, later);
        put_item(paper, alloc, slot);
        later = true;
    }
    put_text(paper, "]");
}

#[tactic(auto, unfolding(json::specs::Print::escape_byte), using(paper::proofs::Calls::three_make))]
fn put_tree<P: Paper>(paper: &mut P, alloc: Global, slots: &[SlotBook])
    ensures { Puts P.takes paper.old (compact_text (readings_tree slots.now)) paper.new }
{
    put_text(paper, "{\"meters\":[");
    put_items(paper, alloc, slots);
    put_text(paper, "}");
}

// The slots whose last readings are told, and where memory comes from.
#[derive(Drop)]
struct LastReadings<'a> {
    alloc: Global,
    slots: &'a [SlotBook],
}

impl Printed for LastReadings<'_> {
    ghost use Rattle.report_text.specs.Readings.{readings_text};

    ghost text = { λ r. readings_text r.slots.now };

    #[tactic(auto, unfolding(crate::specs::Readings::readings_text), using(paper::proofs::Calls::two_make))]
    fn print<P: Paper>(&self, paper: &mut P) {
        put_tree(paper, self.alloc, self.slots);
        put_text(paper, "\n");
    }
}

// That these are numbers of 64 and of 32 bits.
fn show_numbers(at: u64, counter: u32)
    ensures at { at < 2 ^ 64 }
    ensures counter { counter < 2 ^ 32 }
{
    let _numbers = (at, counter);
}

fn show_reading(reading: Option<&Reading>)
    ensures { IfSome (option_copied reading.entry) IsNumbered }
{
    match reading {
        None => {}
        Some(reading) => show_numbers(reading.at, reading.counter),
    }
}

fn show_last(slot: &SlotBook)
    ensures { LastIsNumbered slot.now }
{
    show_reading(slot.last_reading());
}

fn show_slots(slots: &[SlotBook])
    ensures { All LastIsNumbered slots.now }
{
    for slot in slots {
        show_last(slot);
    }
}

/// Writes the last reading of each meter as JSON, in the order of the roster: a compact text and a newline, in large pieces. The object of
/// a meter is made and printed by `serde_json`, and let go before the next; where there is no memory for it, it is put piece by piece. A
/// reader of JSON gets the tree back that the text is made of. On `Failed` some first bytes of it were written.
pub fn readings_json<K: Sink>(
    alloc: Global,
    session: &Session<'_>,
    sink: &mut K,
) -> Result<(), Failed>
    ensures ok { let text = readings_text session.now.slots.now in
        OnOk result (IsTrue K.tells → K.written sink.new ≡ K.written sink.old ++ text) }
    ensures err { let text = readings_text session.now.slots.now in
        OnErr result (IsTrue K.tells → AppendsFront text (K.written sink.old) (K.written sink.new)) }
    ensures later { K.faults sink.old ≤ K.faults sink.new }
    ensures cause { OnErr result (Rose (K.faults sink.old) (K.faults sink.new)) }
    ensures reads_back { let tree = readings_tree session.now.slots.now in read (compact_text tree) ≡ Some tree }
{
    let slots = session.slots;
    show_slots(slots);
    write(sink, &LastReadings { alloc, slots })
}
