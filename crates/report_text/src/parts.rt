//! The meters' parts of a report, which can be made ahead.
ghost use Rattle.std.specs.Prelude.{◌≡◌, map, IfOk, OnOk, OnErr, IsTrue, ◌≤◌, ◌++◌};
ghost use Rattle.std.specs.List.{flat_map};
ghost use Rattle.outer_io.specs.Bytes.{AppendsFront};
ghost use Rattle.outer_io.specs.Faults.{Rose};
ghost use Rattle.paper.specs.Puts.{Puts};
ghost use Rattle.report_text.specs.Report.{meter_text, report_text};

use crate::lent::{ReceiverEnd, Session};
use crate::writing::{put_around, put_meter};
use meter_slots::SlotBook;
use outer_io::{Failed, Memory, Sink};
use paper::{Paper, Printed, write, written};
use std::alloc::Global;
use std::marker::Model;
use stranger_ring::Strangers;

// A slot's part of the report, to be printed.
#[derive(Drop)]
struct SlotPart<'s> {
    slot: &'s SlotBook,
}

impl Printed for SlotPart<'_> {
    ghost use Rattle.report_text.specs.Report.{meter_text};

    ghost text = { λ p. meter_text p.slot.now };

    fn print<P: Paper>(&self, paper: &mut P) {
        put_meter(paper, self.slot);
    }
}

/// A meter's part of the report. A contract sees its text, whether that lies in memory or is still to be printed.
#[derive(Drop)]
pub struct MeterPart<'s> {
    slot: &'s SlotBook,
    made: Option<Vec<u8>>,
}

impl<'s> Model for MeterPart<'s> {
    ghost use Rattle.std.specs.Prelude.{◌≡◌, ℕ, List, IfSome};
    ghost use Rattle.report_text.specs.Report.{meter_text};

    ghost Value = { List ℕ };

    ghost view = { λ p. meter_text p.slot.now };

    ghost invariant = { λ p. IfSome p.made (λ bytes. bytes.items ≡ meter_text p.slot.now) };
}

impl<'s> MeterPart<'s> {
    ghost use Rattle.std.specs.Prelude.{◌≡◌};
    ghost use Rattle.report_text.specs.Report.{meter_text};

    /// The part of a slot.
    pub fn new(slot: &'s SlotBook) -> MeterPart<'s>
        ensures { result ≡ meter_text slot.now }
    {
        MeterPart { slot, made: None }
    }

    /// Makes the text in memory, if there is any, so that it is only copied when the report is written.
    pub fn make(&mut self, alloc: Global)
        ensures { self.new ≡ self.old }
    {
        if let Ok(bytes) = written(alloc, &SlotPart { slot: self.slot }) {
            self.made = Some(bytes);
        }
    }
}

impl Printed for MeterPart<'_> {
    ghost text = { λ p. p };

    #[tactic(auto, using(paper::proofs::Calls::once))]
    fn print<P: Paper>(&self, paper: &mut P) {
        match &self.made {
            Some(bytes) => paper.put(bytes.as_slice()),
            None => put_meter(paper, self.slot),
        }
    }
}

/// A part for each slot, in their order.
pub fn meter_parts<'s>(alloc: Global, slots: &'s [SlotBook]) -> Result<Vec<MeterPart<'s>>, Memory>
    ensures { IfOk result (λ parts. parts.items ≡ map meter_text slots.now) }
{
    let mut parts = Vec::with_capacity(alloc, slots.len())?;
    for slot in slots {
        parts.push_reserved(MeterPart::new(slot));
    }
    Ok(parts)
}

// The parts of a report, one after another.
#[derive(Drop)]
struct Parts<'p, 's> {
    parts: &'p [MeterPart<'s>],
}

#[tactic(auto, using(paper::proofs::Items::one_item))]
fn put_parts<P: Paper>(paper: &mut P, parts: &[MeterPart<'_>])
    ensures { Puts P.takes paper.old (flat_map (λ part. part) parts.now) paper.new }
{
    for part in parts {
        part.print(paper);
    }
}

impl Printed for Parts<'_, '_> {
    ghost use Rattle.std.specs.List.{flat_map};

    ghost text = { λ p. flat_map (λ part. part) p.parts.now };

    fn print<P: Paper>(&self, paper: &mut P) {
        put_parts(paper, self.parts);
    }
}

// A report of parts.
#[derive(Drop)]
struct PartedReport<'p, 's> {
    ends: &'p [ReceiverEnd],
    parts: Parts<'p, 's>,
    strangers: &'p Strangers,
}

impl Printed for PartedReport<'_, '_> {
    ghost use Rattle.std.specs.List.{flat_map};
    ghost use Rattle.report_text.specs.Report.{report_around};

    ghost text = { λ r. report_around r.ends.now (flat_map (λ part. part) r.parts.parts.now) r.strangers.now };

    fn print<P: Paper>(&self, paper: &mut P) {
        put_around(paper, self.ends, &self.parts, self.strangers);
    }
}

/// Writes the report of a session as `report` does, by its slots' parts.
pub fn report_of_parts<K: Sink>(
    session: &Session<'_>,
    parts: &[MeterPart<'_>],
    sink: &mut K,
) -> Result<(), Failed>
    requires { parts.now ≡ map meter_text session.now.slots.now }
    ensures ok { let text = report_text session.now.ends.now session.now.slots.now session.now.strangers.now in
        OnOk result (IsTrue K.tells → K.written sink.new ≡ K.written sink.old ++ text) }
    ensures err { let text = report_text session.now.ends.now session.now.slots.now session.now.strangers.now in
        OnErr result (IsTrue K.tells → AppendsFront text (K.written sink.old) (K.written sink.new)) }
    ensures later { K.faults sink.old ≤ K.faults sink.new }
    ensures cause { OnErr result (Rose (K.faults sink.old) (K.faults sink.new)) }
{
    let report = PartedReport {
        ends: session.ends,
        parts: Parts { parts },
        strangers: session.strangers,
    };
    write(sink, &report)
}
