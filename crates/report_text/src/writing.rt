//! The text of the report.
ghost use Rattle.std.specs.Prelude.{◌≡◌, ◌++◌, ◌≤◌, codes, IsTrue, OnOk, OnErr, option_copied};
ghost use Rattle.std.specs.List.{flat_map, enumerate_from};
ghost use Rattle.outer_io.specs.Bytes.{AppendsFront};
ghost use Rattle.outer_io.specs.Faults.{Rose};
ghost use Rattle.paper.specs.Puts.{Puts};
ghost use Rattle.stranger_ring.specs.Ring.{ring_of};
ghost use Rattle.record_text.specs.RecordText.{records_text};
ghost use Rattle.paper.specs.Pieces.{text_if};
ghost use Rattle.report_text.specs.Report.{ended_text, counts_text, receiver_text};
ghost use Rattle.report_text.specs.Report.{mode_text, commission_text, numbers_text, meter_line_text, line_of, meter_text};
ghost use Rattle.report_text.specs.Report.{answered_text, readings_after, steps_text, last_text, pending_text, journal_text};
ghost use Rattle.report_text.specs.Report.{stranger_text, ring_text, strangers_text, head_text, report_around, report_text};

use crate::lent::{MeterLine, ReceiverEnd, Session};
use crate::outcomes::put_outcome;
use command_queue::{Command, Queue};
use layer_text::put_letters;
use meter_address::{Address, Mode};
use meter_slots::{Counts, Ended, Entry, Outcome, Reading, SlotBook};
use outer_io::{Failed, Sink};
use paper::{
    Paper, Printed, put_labelled, put_labelled_bytes, put_labelled_two, put_optional, put_text,
    write,
};
use record_text::put_records;
use stranger_ring::{Heard, Strangers};

/// The word for how a receiver's run ended.
pub fn ended_word(ended: Ended) -> &'static str
    ensures { result.now ≡ ended_text ended }
{
    match ended {
        Ended::End => "end",
        Ended::Cut => "cut",
        Ended::ReadFault => "readfault",
        Ended::TxFault => "txfault",
        Ended::Memory => "memory",
    }
}

#[tactic(auto, unfolding(crate::specs::Report::counts_text), using(paper::proofs::Calls::five_make))]
fn put_counts<P: Paper>(paper: &mut P, counts: Counts)
    ensures { Puts P.takes paper.old (counts_text counts) paper.new }
{
    put_labelled(paper, " lines ", counts.lines as u64);
    put_labelled(paper, " own ", counts.own as u64);
    put_labelled(paper, " strangers ", counts.strangers as u64);
    put_labelled(paper, " unframed ", counts.unframed as u64);
    put_labelled(paper, " bad ", counts.bad as u64);
}

#[tactic(auto, unfolding(crate::specs::Report::receiver_text), using(paper::proofs::Calls::five_make))]
fn put_receiver<P: Paper>(paper: &mut P, number: u64, end: &ReceiverEnd)
    ensures { Puts P.takes paper.old (receiver_text (number, end.now)) paper.new }
{
    put_labelled(paper, "receiver ", number);
    put_counts(paper, end.counts);
    put_text(paper, " ");
    put_text(paper, ended_word(end.ended));
    put_text(paper, "\n");
}

fn put_receivers<P: Paper>(paper: &mut P, ends: &[ReceiverEnd])
    ensures { Puts P.takes paper.old (flat_map receiver_text (enumerate_from 1 ends.now)) paper.new }
{
    for (place, end) in ends.iter().enumerate() {
        put_receiver(paper, place as u64 + 1, end);
    }
}

/// Puts the line of a step: what was answered to this line of a receiver, with the reading that is stored.
#[tactic(auto, unfolding(crate::specs::Report::answered_text), using(paper::proofs::Calls::four_make))]
pub fn put_step<P: Paper>(
    paper: &mut P,
    source: u32,
    line: u32,
    outcome: &Outcome,
    reading: Option<&Reading>,
)
    ensures { Puts P.takes paper.old (answered_text source line outcome.now (option_copied reading.entry)) paper.new }
{
    put_labelled_two(paper, "step ", u64::from(source), u64::from(line));
    put_text(paper, " ");
    put_outcome(paper, reading, outcome);
    put_text(paper, "\n");
}

// The readings that are left for later entries.
fn readings_after<'a>(outcome: &Outcome, readings: &'a [Reading]) -> &'a [Reading]
    ensures { result.now ≡ readings_after outcome.now readings.now }
{
    match (outcome, readings) {
        (Outcome::Stored { .. }, [_, later @ ..]) => later,
        _ => readings,
    }
}

#[tactic(auto, using(paper::proofs::Calls::none, paper::proofs::Calls::then))]
fn put_steps<P: Paper>(paper: &mut P, readings: &[Reading], journal: &[Entry])
    ensures { Puts P.takes paper.old (steps_text readings.now journal.now) paper.new }
{
    let mut left = readings;
    for entry in journal {
        put_step(
            paper,
            entry.source,
            entry.line,
            &entry.outcome,
            left.first(),
        );
        left = readings_after(&entry.outcome, left);
    }
}

/// Puts the records of a meter's last reading, where there is one.
#[tactic(auto, using(paper::proofs::Calls::none))]
pub fn put_last_records<P: Paper>(paper: &mut P, reading: Option<&Reading>)
    ensures { Puts P.takes paper.old (text_if (λ r. records_text r.payload) (option_copied reading.entry)) paper.new }
{
    match reading {
        None => {}
        Some(reading) => put_records(paper, reading.payload.bytes()),
    }
}

#[tactic(auto, unfolding(crate::specs::Report::last_text))]
fn put_last<P: Paper>(paper: &mut P, readings: &[Reading])
    ensures { Puts P.takes paper.old (last_text readings.now) paper.new }
{
    put_last_records(paper, readings.last())
}

#[tactic(auto, unfolding(crate::specs::Report::pending_text), using(paper::proofs::Calls::two_make))]
fn put_command<P: Paper>(paper: &mut P, command: &Command)
    ensures { Puts P.takes paper.old (pending_text command.now) paper.new }
{
    put_labelled_two(
        paper,
        "pending ",
        u64::from(command.id),
        u64::from(command.tries),
    );
    put_text(paper, "\n");
}

#[tactic(auto, using(paper::proofs::Calls::none))]
fn put_command_if<P: Paper>(paper: &mut P, command: Option<&Command>)
    ensures { Puts P.takes paper.old (text_if pending_text (option_copied command.entry)) paper.new }
{
    match command {
        None => {}
        Some(command) => put_command(paper, command),
    }
}

/// Puts the commands that wait.
#[tactic(auto, using(paper::proofs::Calls::none, paper::proofs::Items::one_more))]
pub fn put_pending<P: Paper>(paper: &mut P, queue: &Queue)
    ensures { Puts P.takes paper.old (flat_map pending_text queue.now.commands) paper.new }
{
    for place in 0..queue.pending() {
        put_command_if(paper, queue.at(place));
    }
}

#[tactic(auto, unfolding(crate::specs::Report::journal_text), using(paper::proofs::Calls::three_make))]
fn put_journal<P: Paper>(paper: &mut P, readings: &[Reading], journal: &[Entry], queue: &Queue)
    ensures { Puts P.takes paper.old (journal_text readings.now journal.now queue.now.commands) paper.new }
{
    put_steps(paper, readings, journal);
    put_last(paper, readings);
    put_pending(paper, queue);
}

fn mode_digit(mode: Mode) -> &'static str
    ensures { result.now ≡ mode_text mode }
{
    match mode {
        Mode::Five => "5",
        Mode::Seven => "7",
    }
}

#[tactic(auto, unfolding(crate::specs::Report::commission_text), using(paper::proofs::Calls::five_make))]
fn put_commission<P: Paper>(paper: &mut P, address: Address, mode: Mode)
    ensures { Puts P.takes paper.old (commission_text address mode) paper.new }
{
    put_labelled_bytes(paper, "meter ", &address.to_bytes());
    put_text(paper, " ");
    put_letters(paper, address);
    put_text(paper, " mode ");
    put_text(paper, mode_digit(mode));
}

#[tactic(auto, unfolding(crate::specs::Report::numbers_text), using(paper::proofs::Calls::six_make))]
fn put_numbers<P: Paper>(paper: &mut P, last: Option<u32>, down: u32, steps: usize, readings: usize)
    ensures { Puts P.takes paper.old (numbers_text last down steps readings) paper.new }
{
    put_text(paper, " last ");
    put_optional(paper, last);
    put_labelled(paper, " down ", down as u64);
    put_labelled(paper, " steps ", steps as u64);
    put_labelled(paper, " readings ", readings as u64);
    put_text(paper, "\n");
}

/// Puts the line of a meter.
#[tactic(auto, using(paper::proofs::Calls::two_make))]
pub fn put_meter_line<P: Paper>(paper: &mut P, line: &MeterLine)
    ensures { Puts P.takes paper.old (meter_line_text line.now) paper.new }
{
    put_commission(paper, line.address, line.mode);
    put_numbers(paper, line.last, line.down, line.steps, line.readings);
}

// The line of a slot.
fn line_of(slot: &SlotBook) -> MeterLine
    ensures { result ≡ line_of slot.now }
{
    let now = slot.commission();
    MeterLine {
        address: now.address,
        mode: now.mode,
        last: now.last,
        down: now.down,
        steps: slot.journal().len(),
        readings: slot.readings().len(),
    }
}

/// Puts what a report says of a meter: its line, its journal, the records of its last reading, and its waiting commands.
#[tactic(auto, unfolding(crate::specs::Report::meter_text), using(paper::proofs::Calls::two_make))]
pub fn put_meter<P: Paper>(paper: &mut P, slot: &SlotBook)
    ensures { Puts P.takes paper.old (meter_text slot.now) paper.new }
{
    put_meter_line(paper, &line_of(slot));
    put_journal(paper, slot.readings(), slot.journal(), slot.queue());
}

#[tactic(auto, using(paper::proofs::Calls::none, paper::proofs::Items::one_item))]
fn put_meters<P: Paper>(paper: &mut P, slots: &[SlotBook])
    ensures { Puts P.takes paper.old (flat_map meter_text slots.now) paper.new }
{
    for slot in slots {
        put_meter(paper, slot);
    }
}

#[tactic(auto, unfolding(crate::specs::Report::stranger_text), using(paper::proofs::Calls::two_make))]
fn put_stranger<P: Paper>(paper: &mut P, stranger: &Heard)
    ensures { Puts P.takes paper.old (stranger_text stranger.now) paper.new }
{
    put_labelled_two(
        paper,
        "stranger ",
        u64::from(stranger.source),
        u64::from(stranger.line),
    );
    put_text(paper, "\n");
}

#[tactic(auto, using(paper::proofs::Calls::none, paper::proofs::Items::one_at))]
fn put_heard<P: Paper>(paper: &mut P, heard: &[Heard])
    ensures { Puts P.takes paper.old (flat_map stranger_text heard.now) paper.new }
{
    for stranger in heard {
        put_stranger(paper, stranger);
    }
}

#[tactic(auto, unfolding(crate::specs::Report::ring_text), using(paper::proofs::Calls::two_make))]
fn put_address<P: Paper>(paper: &mut P, address: Address)
    ensures { Puts P.takes paper.old (ring_text address) paper.new }
{
    put_labelled_bytes(paper, "ring ", &address.to_bytes());
    put_text(paper, "\n");
}

#[tactic(auto, using(paper::proofs::Calls::none))]
fn put_address_if<P: Paper>(paper: &mut P, address: Option<Address>)
    ensures { Puts P.takes paper.old (text_if ring_text address) paper.new }
{
    match address {
        None => {}
        Some(address) => put_address(paper, address),
    }
}

#[tactic(auto, using(paper::proofs::Calls::none, paper::proofs::Items::one_more))]
fn put_ring<P: Paper>(paper: &mut P, strangers: &Strangers)
    ensures { Puts P.takes paper.old (flat_map ring_text (ring_of strangers.now)) paper.new }
{
    for place in 0..strangers.ring_len() {
        put_address_if(paper, strangers.ring_at(place));
    }
}

/// Puts what a report says of the strangers: how many of their lines were heard, each of these, and the ring of addresses.
#[tactic(auto, unfolding(crate::specs::Report::strangers_text), using(paper::proofs::Calls::four_make))]
pub fn put_strangers<P: Paper>(paper: &mut P, strangers: &Strangers)
    ensures { Puts P.takes paper.old (strangers_text strangers.now) paper.new }
{
    let heard = strangers.heard();
    put_labelled(paper, "strangers ", heard.len() as u64);
    put_text(paper, "\n");
    put_heard(paper, heard);
    put_ring(paper, strangers);
}

/// Puts the first lines of a report: its head, and a line for each receiver, in their order.
#[tactic(auto, unfolding(crate::specs::Report::head_text), using(paper::proofs::Calls::two_make))]
pub fn put_head<P: Paper>(paper: &mut P, ends: &[ReceiverEnd])
    ensures { Puts P.takes paper.old (head_text ends.now) paper.new }
{
    put_text(paper, "wmbus-report 1\n");
    put_receivers(paper, ends);
}

/// Puts the last line of a report.
pub fn put_end<P: Paper>(paper: &mut P)
    ensures { Puts P.takes paper.old (codes "end\n") paper.new }
{
    put_text(paper, "end\n");
}

// Puts a report around what has the text of its meters.
#[tactic(auto, unfolding(crate::specs::Report::head_text), using(paper::proofs::Calls::four_make))]
pub(crate) fn put_around<P: Paper, M: Printed>(
    paper: &mut P,
    ends: &[ReceiverEnd],
    meters: &M,
    strangers: &Strangers,
)
    ensures { Puts P.takes paper.old (report_around ends.now (M.text meters.now) strangers.now) paper.new }
{
    put_head(paper, ends);
    meters.print(paper);
    put_strangers(paper, strangers);
    put_end(paper);
}

// The slots of a report.
#[derive(Drop)]
struct Slots<'a> {
    slots: &'a [SlotBook],
}

impl Printed for Slots<'_> {
    ghost use Rattle.std.specs.List.{flat_map};
    ghost use Rattle.report_text.specs.Report.{meter_text};

    ghost text = { λ s. flat_map meter_text s.slots.now };

    fn print<P: Paper>(&self, paper: &mut P) {
        put_meters(paper, self.slots);
    }
}

impl Printed for Session<'_> {
    ghost use Rattle.report_text.specs.Report.{report_text};

    ghost text = { λ s. report_text s.ends.now s.slots.now s.strangers.now };

    #[tactic(auto, unfolding(crate::specs::Report::report_text))]
    fn print<P: Paper>(&self, paper: &mut P) {
        put_around(
            paper,
            self.ends,
            &Slots { slots: self.slots },
            self.strangers,
        );
    }
}

/// Writes the report of a session, in large pieces and without memory. On `Failed` some first bytes of it were written.
pub fn report<K: Sink>(session: &Session<'_>, sink: &mut K) -> Result<(), Failed>
    ensures ok { let text = report_text session.now.ends.now session.now.slots.now session.now.strangers.now in
        OnOk result (IsTrue K.tells → K.written sink.new ≡ K.written sink.old ++ text) }
    ensures err { let text = report_text session.now.ends.now session.now.slots.now session.now.strangers.now in
        OnErr result (IsTrue K.tells → AppendsFront text (K.written sink.old) (K.written sink.new)) }
    ensures later { K.faults sink.old ≤ K.faults sink.new }
    ensures cause { OnErr result (Rose (K.faults sink.old) (K.faults sink.new)) }
{
    write(sink, session)
}
