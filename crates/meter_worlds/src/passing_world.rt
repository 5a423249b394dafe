//! The slots of all meters, where none keeps a journal.
ghost use Rattle.std.specs.Prelude.{◌≡◌, ◌<◌, List, map, vec_len, IfOk, OnErr, slice_index_or};
ghost use Rattle.meter_slots.specs.World.{fresh_slot};
ghost use Rattle.meter_worlds.specs.PassingWorld.{ArePassing, HasServedAt, kept_at};

use crate::places::directory_of;
use meter_address::Address;
use meter_directory::Directory;
use meter_slots::{Event, KnownMeter, MeterStart, PassingSlot, Reading, Served};
use outer_io::Memory;
use std::alloc::Global;
use std::marker::Model;

/// A meter's slot that keeps no journal, the last reading that its steps stored, and whether there was a step.
#[derive(Drop)]
pub struct PassingMeter {
    /// Its slot.
    pub slot: PassingSlot,
    /// The last reading that its steps stored.
    pub last: Option<Reading>,
    /// Whether there was a step.
    pub stepped: bool,
}

/// The slots of all commissioned meters, of which none keeps a journal: what a step answers is told to the caller alone.
#[derive(Drop)]
pub struct PassingWorld {
    meters: Vec<PassingMeter>,
    directory: Directory,
}

impl Model for PassingWorld {
    ghost use Rattle.std.specs.Prelude.{List};
    ghost use Rattle.meter_worlds.specs.declared.passing_world.PassingMeter.{PassingMeter};
    ghost use Rattle.meter_worlds.specs.PassingWorld.{AreOrdered};

    ghost Value = { List PassingMeter };

    ghost view = { λ w. w.meters.items };

    ghost invariant = { λ w. AreOrdered w.meters.items w.directory };
}

impl PassingMeter {
    ghost use Rattle.std.specs.Prelude.{◌≡◌, IfOk, OnErr};
    ghost use Rattle.meter_worlds.specs.PassingWorld.{HasServed, IsPassing, known_by};
    ghost use Rattle.meter_slots.specs.Resuming.{later_of};
    ghost use Rattle.meter_slots.specs.World.{fresh_slot};

    // A meter to which nothing came yet.
    #[tactic(auto, unfolding(meter_slots::specs::Journal::readings))]
    fn new(alloc: Global, own: Address, start: MeterStart) -> PassingMeter
        ensures { IsPassing (fresh_slot own start) result }
    {
        PassingMeter {
            slot: PassingSlot::resume(alloc, own, start),
            last: None,
            stepped: false,
        }
    }

    // One step.
    fn step(&mut self, event: &Event) -> Result<Served, Memory>
        ensures ok { IfOk result (HasServed self.old self.new event.now) }
        ensures err { OnErr result (self.new ≡ self.old) }
    {
        let served = self.slot.step(event)?;
        self.stepped = true;
        Ok(served)
    }

    // Keeps a reading that there may be in the place of the last one.
    fn keep(&mut self, reading: Option<Reading>)
        ensures { self.new ≡ record self.old { last = later_of self.old.last reading } }
    {
        if let Some(reading) = reading {
            self.last = Some(reading);
        }
    }

    // What is known of it now.
    fn known(&self) -> KnownMeter<'_>
        ensures { result ≡ known_by self.now }
    {
        self.slot.known(self.last.as_ref())
    }
}

// The meters before any step.
fn fresh_meters(
    alloc: Global,
    own: Address,
    starts: Vec<MeterStart>,
) -> Result<Vec<PassingMeter>, Memory>
    ensures { IfOk result (λ meters. ArePassing (map (fresh_slot own) starts.items) meters.items) }
{
    let mut meters = Vec::new(alloc);
    for start in starts {
        meters.push(PassingMeter::new(alloc, own, start))?;
    }
    Ok(meters)
}

// One step of the meter at a place.
fn step_at(meters: &mut Vec<PassingMeter>, place: usize, event: &Event) -> Result<Served, Memory>
    requires { place < vec_len meters.old }
    ensures ok { IfOk result (λ served. (d : PassingMeter)
        → HasServedAt meters.old.items meters.new.items place (slice_index_or meters.old.items place d) event.now served) }
    ensures err { OnErr result (meters.new.items ≡ meters.old.items) }
{
    let meter = &mut meters[place];
    meter.step(event)
}

// Keeps a reading that there may be as the last one of the meter at a place.
#[tactic(auto, using(crate::proofs::PassingWorlds::kept_set))]
fn keep_at(meters: &mut Vec<PassingMeter>, place: usize, reading: Option<Reading>)
    requires { place < vec_len meters.old }
    ensures { meters.new.items ≡ kept_at place reading meters.old.items }
{
    let meter = &mut meters[place];
    meter.keep(reading);
}

impl PassingWorld {
    ghost use Rattle.std.specs.Prelude.{◌≡◌, ◌<◌, ◌^◌, ℕ, List, map, length, slice_get, option_copied, option_map, IfOk, OnErr};
    ghost use Rattle.meter_address.specs.Address.{AreApart};
    ghost use Rattle.meter_slots.specs.Journal.{SlotView};
    ghost use Rattle.meter_worlds.specs.PassingWorld.{IsServed, step_for, keeping, LeavesOthers, had_step, known_by};
    ghost use Rattle.meter_slots.specs.World.{fresh_slot, slot_after};

    /// A slot for each meter of which this is known, in their order. Their addresses differ.
    #[tactic(auto, using(crate::proofs::PassingWorlds::fresh_ordered, crate::proofs::Worlds::ordered_fresh))]
    pub fn new(alloc: Global, own: Address, starts: Vec<MeterStart>) -> Result<PassingWorld, Memory>
        requires apart { AreApart (map (λ c. c.address) starts.items) }
        requires few { length starts.items < 2 ^ 32 }
        ensures { IfOk result (λ world. ArePassing (map (fresh_slot own) starts.items) world) }
    {
        Ok(PassingWorld {
            directory: directory_of(alloc, starts.as_slice())?,
            meters: fresh_meters(alloc, own, starts)?,
        })
    }

    /// One step of the slot with this address: its place, what it answers, and the reading that is stored with it, which the caller gives back
    /// by `keep`. Nothing is done where no slot has the address. For want of memory nothing changes.
    #[tactic(auto, using(crate::proofs::PassingWorlds::strange_served, crate::proofs::PassingWorlds::strange_after))]
    pub fn step(&mut self, address: Address, event: &Event) -> Result<Option<(u32, Served)>, Memory>
        ensures served { IfOk result (λ answer. (slots : List SlotView) (source line : ℕ) → ArePassing slots self.old
            → IsServed slots (step_for source line address event.now) answer) }

        // Once its reading is kept, the slot with the address has made the step, and all others are as they were.
        ensures after { IfOk result (λ answer. (slots : List SlotView) (source line : ℕ) → ArePassing slots self.old
            → ArePassing (map (slot_after (step_for source line address event.now)) slots) (keeping answer self.new)) }
        ensures others { IfOk result (LeavesOthers self.old self.new) }
        ensures err { OnErr result (self.new ≡ self.old) }
    {
        match self.directory.find(address) {
            None => Ok(None),
            Some(place) => {
                let served = step_at(&mut self.meters, place as usize, event)?;
                Ok(Some((place, served)))
            }
        }
    }

    /// Keeps a reading that there may be as the last one of the meter at a place.
    #[tactic(auto, using(crate::proofs::PassingWorlds::kept_ordered, crate::proofs::PassingWorlds::kept_past))]
    pub fn keep(&mut self, place: u32, reading: Option<Reading>)
        ensures { self.new ≡ kept_at place reading self.old }
    {
        let place = place as usize;
        if place < self.meters.len() {
            keep_at(&mut self.meters, place, reading);
        }
    }

    // The meter at a place.
    fn meter(&self, place: usize) -> Option<&PassingMeter>
        ensures { option_copied result ≡ slice_get self.now place }
    {
        self.meters.get(place)
    }

    /// How many meters there are.
    pub fn len(&self) -> usize
        ensures { result ≡ length self.now }
    {
        self.meters.len()
    }

    /// What is known now of the meter at a place, if there is one: the meter's next slot begins with it.
    pub fn known(&self, place: usize) -> Option<KnownMeter<'_>>
        ensures { result ≡ option_map known_by (slice_get self.now place) }
    {
        match self.meter(place) {
            None => None,
            Some(meter) => Some(meter.known()),
        }
    }

    /// Whether the meter at a place had a step.
    pub fn had_step(&self, place: usize) -> bool
        ensures { result ≡ had_step (slice_get self.now place) }
    {
        match self.meter(place) {
            None => false,
            Some(meter) => meter.stepped,
        }
    }
}
