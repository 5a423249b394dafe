//! A slot's book.
ghost use Rattle.std.specs.Prelude.{◌≡◌, ◌<◌, ◌++◌, length, vec_len, vec_capacity, option_to_list};
ghost use Rattle.aes_block.specs.Block.{IsBlock};

use crate::entry::{Entry, Event, Outcome};
use crate::known::KnownMeter;
use crate::past::PastEvent;
use crate::reading::Reading;
use crate::sent::take_room;
use crate::standing::Standing;
use crate::start::MeterStart;
use command_queue::{Queue, Window};
use downlink_maker::Downlink;
use meter_address::{Address, Commission};
use outer_io::Memory;
use std::alloc::Global;
use std::marker::Model;
use std::snapshot::Snapshot;

/// The slot of one commissioned meter: the collector's own address, what the slot began with, and its journal.
#[derive(Drop)]
pub struct SlotBook {
    // (what every step touches stands side by side, since other processors may have touched it last)
    entries: Vec<Entry>,
    readings: Vec<Reading>,
    // Room for the next downlink in an entry.
    room: Vec<Downlink>,
    standing: Standing,
    // What it began with, for contracts alone.
    start: Snapshot<MeterStart>,
    // The reading that was the last one before.
    before: Option<Reading>,
    own: Address,
    alloc: Global,
}

impl Model for SlotBook {
    ghost use Rattle.std.specs.Prelude.{◌≡◌};
    ghost use Rattle.meter_slots.specs.Journal.{SlotView};
    ghost use Rattle.meter_slots.specs.Keeping.{Keeps};

    ghost Value = { SlotView };

    ghost view = { λ b. record { own = b.own; start = b.start.value; journal = b.entries.items } };

    ghost invariant = { λ b. Keeps b.start.value b.own b.entries.items b.standing b.readings.items × (b.before ≡ b.start.value.reading) };
}

// Adds the reading of what is stored, if anything is, in a place that was taken before.
fn note(readings: &mut Vec<Reading>, reading: Option<Reading>)
    requires { vec_len readings.old < vec_capacity readings.old }
    ensures { readings.new.items ≡ readings.old.items ++ option_to_list reading }
{
    if let Some(reading) = reading {
        readings.push_reserved(reading);
    }
}

// What a key of sixteen bytes shows: it is a block.
#[tactic(auto, using(crate::proofs::Starting::each_byte))]
fn show_key(key: &[u8])
    requires { length key.now ≡ 16 }
    ensures { IsBlock key.now }
{
    let (_front, _rest) = key.split_at(0);
}

impl SlotBook {
    ghost use Rattle.std.specs.Prelude.{◌≡◌, [], ◌∷◌, ◌++◌, reverse, All, IfOk, OnErr};
    ghost use Rattle.meter_slots.specs.Laws.{PutsPayload, AreReady, IsRefused, IsLeft};
    ghost use Rattle.meter_slots.specs.Journal.{SlotView, Legal, commission_of, fresh_start, outcome, readings, other_key, last_counter, orders};
    ghost use Rattle.std.specs.Option.{option_copied};
    ghost use Rattle.meter_slots.specs.Resuming.{known_now, last_known, resumed};

    /// A slot with an empty journal, of a meter of which nothing is known but its commission.
    pub fn new(alloc: Global, own: Address, commission: Commission) -> Self
        ensures { result ≡ record { own = own; start = fresh_start commission; journal = [] } }
    {
        SlotBook::resume(alloc, own, MeterStart::new(commission))
    }

    /// A slot with an empty journal, which begins with what is known of its meter.
    pub fn resume(alloc: Global, own: Address, start: MeterStart) -> Self
        ensures { result ≡ record { own = own; start = start; journal = [] } }
    {
        let begun = Snapshot::of(&start);
        let (standing, before) = Standing::new(alloc, start);
        SlotBook {
            alloc,
            own,
            start: begun,
            before,
            standing,
            entries: Vec::new(alloc),
            readings: Vec::new(alloc),
            room: Vec::new(alloc),
        }
    }

    /// All steps, the first one first.
    pub fn journal(&self) -> &[Entry]
        ensures entries { result.now ≡ self.now.journal }
        ensures legal { Legal self.now.start self.now.own self.now.journal }
        ensures payloads { All (λ x. PutsPayload x.event) self.now.journal }
        ensures ready { AreReady self.now.start.orders }
    {
        self.entries.as_slice()
    }

    /// The last reading that is known: the latest of the journal, or the one before it.
    pub fn last_reading(&self) -> Option<&Reading>
        ensures { option_copied result ≡ last_known self.now.start self.now.journal }
    {
        match self.readings.last() {
            Some(reading) => Some(reading),
            None => self.before.as_ref(),
        }
    }

    /// What is known of its meter now: the meter's next slot begins with it.
    pub fn known(&self) -> KnownMeter<'_>
        ensures { result ≡ known_now self.now }
    {
        self.standing.known(self.last_reading())
    }

    /// What was stored, the first reading first.
    pub fn readings(&self) -> &[Reading]
        ensures { result.now ≡ readings self.now.start self.now.journal }
    {
        self.readings.as_slice()
    }

    /// The commission as it would be written now.
    pub fn commission(&self) -> Commission
        ensures now { result ≡ commission_of (resumed self.now.start self.now.journal) }
        ensures key { IsBlock self.now.start.key }
    {
        let now = self.standing.commission();
        show_key(&now.key);
        Commission {
            address: now.address,
            mode: now.mode,
            key: now.key,
            other: now.other,
            last: self.standing.last(),
            down: self.standing.down(),
            ids: self.standing.queue().ids(),
        }
    }

    /// The commands that wait.
    pub fn queue(&self) -> &Queue
        ensures { result.now ≡ (orders self.now.start (reverse self.now.journal)).queue }
    {
        self.standing.queue()
    }

    /// Whether a command was sent and waits for the meter's response.
    pub fn window(&self) -> Window
        ensures { result ≡ (orders self.now.start (reverse self.now.journal)).window }
    {
        self.standing.window()
    }

    /// One step: what an event is answered, and its entry at the end of the journal. For want of memory nothing changes.
    pub fn step(&mut self, source: u32, line: u32, event: Event) -> Result<Outcome, Memory>
        ensures outcome { IfOk result (λ answer. answer ≡ outcome self.old.start self.old.own (reverse self.old.journal) event) }
        ensures journal { IfOk result (λ answer. self.new ≡ record self.old {
          journal = self.old.journal ++ record { source = source; line = line; event = event; outcome = answer } ∷ [];
        }) }
        ensures legal { Legal self.new.start self.new.own self.new.journal }

        // A refusal leaves the second key, the last counter, the commands, their window and the readings as they were.
        ensures refused { IfOk result (λ answer. IsRefused answer → IsLeft self.old self.new) }
        ensures err { OnErr result (self.new ≡ self.old) }
    {
        self.entries.reserve(1)?;
        self.readings.reserve(1)?;
        let mut room = take_room(self.alloc, &mut self.room)?;
        event.show_payload();
        let served = self.standing.answer(self.alloc, self.own, &event)?;
        note(&mut self.readings, served.reading);
        self.entries.push_reserved(Entry {
            source,
            line,
            event: PastEvent::of(&event),
            outcome: served.outcome.copied(self.alloc, &mut room),
        });
        self.room = room;
        Ok(served.outcome)
    }
}
