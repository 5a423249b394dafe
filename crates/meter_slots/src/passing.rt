//! The slot of a meter that keeps no journal.
use crate::entry::Event;
use crate::known::KnownMeter;
use crate::reading::Reading;
use crate::standing::{Served, Standing};
use crate::start::MeterStart;
use command_queue::Queue;
use meter_address::{Address, Commission};
use outer_io::Memory;
use std::alloc::Global;
use std::marker::Model;
use std::snapshot::Snapshot;

/// The slot of a meter that keeps no journal: what a step answers is told to the caller alone.
#[derive(Drop)]
pub struct PassingSlot {
    alloc: Global,
    own: Address,
    start: Snapshot<MeterStart>,
    standing: Standing,
    // The reading that was the last one before.
    before: Option<Reading>,
}

impl Model for PassingSlot {
    ghost use Rattle.std.specs.Prelude.{◌≡◌};
    ghost use Rattle.meter_slots.specs.Passing.{Passing, StandsAfterSome};

    ghost Value = { Passing };

    ghost view = { λ s. record { own = s.own; start = s.start.value; kept = s.standing } };

    ghost invariant = { λ s. StandsAfterSome s.start.value s.own s.standing × (s.before ≡ s.start.value.reading) };
}

impl PassingSlot {
    ghost use Rattle.std.specs.Prelude.{◌≡◌, ℕ, List, None, [], ◌∷◌, ◌++◌, reverse, option_to_list, IfOk, OnErr};
    ghost use Rattle.std.specs.Option.{option_copied};
    ghost use Rattle.meter_slots.specs.declared.entry.Entry.{Entry};
    ghost use Rattle.meter_slots.specs.Journal.{fresh_start, outcome, readings};
    ghost use Rattle.meter_slots.specs.Passing.{IsAfter, known_with};
    ghost use Rattle.meter_slots.specs.Resuming.{last_of, later_of, resumed};

    /// A slot to which nothing came yet.
    pub fn new(alloc: Global, own: Address, commission: Commission) -> PassingSlot
        ensures own { result.own ≡ own }
        ensures start { result.start ≡ fresh_start commission }
        ensures after { IsAfter [] result }
    {
        PassingSlot::resume(alloc, own, MeterStart::new(commission))
    }

    /// A slot that begins with what is known of its meter.
    pub fn resume(alloc: Global, own: Address, start: MeterStart) -> PassingSlot
        ensures own { result.own ≡ own }
        ensures start { result.start ≡ start }
        ensures after { IsAfter [] result }
    {
        let begun = Snapshot::of(&start);
        let (standing, before) = Standing::new(alloc, start);
        PassingSlot {
            alloc,
            own,
            start: begun,
            standing,
            before,
        }
    }

    /// One step: what an event is answered, and the reading that is stored with it. For want of memory nothing changes.
    pub fn step(&mut self, event: &Event) -> Result<Served, Memory>
        ensures same { (self.new.own ≡ self.old.own) × (self.new.start ≡ self.old.start) }
        ensures outcome { IfOk result (λ served. (journal : List Entry) → IsAfter journal self.old
            → served.outcome ≡ outcome self.old.start self.old.own (reverse journal) event.now) }
        ensures after { IfOk result (λ served. (journal : List Entry) (source line : ℕ) → IsAfter journal self.old
            → IsAfter (journal ++ record { source = source; line = line; event = event.now; outcome = served.outcome } ∷ []) self.new) }
        ensures reading { IfOk result (λ served. (journal : List Entry) (source line : ℕ) → IsAfter journal self.old
            → readings self.old.start
            (journal ++ record { source = source; line = line; event = event.now; outcome = served.outcome } ∷ [])
            ≡ readings self.old.start journal ++ option_to_list served.reading) }
        ensures err { OnErr result (self.new ≡ self.old) }
    {
        event.show_payload();
        let served = self.standing.answer(self.alloc, self.own, event)?;
        Ok(served)
    }

    /// What is known of its meter now, where `last` is the last reading that its steps stored, none where they stored none: the meter's
    /// next slot begins with it.
    #[tactic(auto, using(crate::proofs::Passages::passing_now, crate::proofs::Passages::passing_known))]
    pub fn known<'a>(&'a self, last: Option<&'a Reading>) -> KnownMeter<'a>
        ensures now { result ≡ known_with self.now (option_copied last.entry) }
        ensures known { (journal : List Entry) → IsAfter journal self.now
            → option_copied last.entry ≡ last_of None (readings self.now.start journal) → result ≡ resumed self.now.start journal }
    {
        self.standing.known(self.last_reading(last))
    }

    // The last reading that is known: the one that its steps stored last, or the one before them.
    fn last_reading<'a>(&'a self, last: Option<&'a Reading>) -> Option<&'a Reading>
        ensures { option_copied result ≡ later_of self.now.start.reading (option_copied last.entry) }
    {
        match last {
            Some(reading) => Some(reading),
            None => self.before.as_ref(),
        }
    }

    /// The last number.
    pub fn last(&self) -> Option<u32>
        ensures { result ≡ self.now.kept.last }
    {
        self.standing.last()
    }

    /// The last counter of a downlink.
    pub fn down(&self) -> u32
        ensures { result ≡ self.now.kept.orders.down }
    {
        self.standing.down()
    }

    /// The commands that wait.
    pub fn queue(&self) -> &Queue
        ensures { result.now ≡ self.now.kept.orders.queue }
    {
        self.standing.queue()
    }
}
