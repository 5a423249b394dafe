//! All slots, and the strangers that none of them is for.
ghost use Rattle.std.specs.Prelude.{◌≡◌, ◌<◌, List, map, length, vec_len, IfOk, OnErr, slice_index_or, slice_set, reverse};
ghost use Rattle.meter_address.specs.declared.address.Address.{Address};
ghost use Rattle.meter_slots.specs.Journal.{SlotView};
ghost use Rattle.meter_slots.specs.World.{fresh_slot, outcome_at, stepped_slot};

use crate::places::directory_of;
use meter_address::Address;
use meter_directory::Directory;
use meter_slots::{Landed, MeterStart, Outcome, SlotBook, Step};
use outer_io::Memory;
use std::alloc::Global;
use std::marker::Model;
use stranger_ring::Strangers;

/// The slots of all commissioned meters, and the book of strangers.
#[derive(Drop)]
pub struct World {
    slots: Vec<SlotBook>,
    directory: Directory,
    strangers: Strangers,
}

impl Model for World {
    ghost use Rattle.meter_slots.specs.World.{WorldView};
    ghost use Rattle.meter_worlds.specs.Order.{IsOrdered};

    ghost Value = { WorldView };

    ghost view = { λ w. record { slots = w.slots.items; strangers = w.strangers } };

    ghost invariant = { λ w. IsOrdered w.slots.items w.directory };
}

// The slots before any step.
fn fresh_slots(
    alloc: Global,
    own: Address,
    starts: Vec<MeterStart>,
) -> Result<Vec<SlotBook>, Memory>
    ensures { IfOk result (λ slots. slots.items ≡ map (fresh_slot own) starts.items) }
{
    let mut slots = Vec::new(alloc);
    for start in starts {
        slots.push(SlotBook::resume(alloc, own, start))?;
    }
    Ok(slots)
}

// One step of the slot at a place.
fn step_at(slots: &mut Vec<SlotBook>, place: usize, step: Step) -> Result<Outcome, Memory>
    requires { place < vec_len slots.old }
    ensures outcome { IfOk result (λ given. (b : SlotView) → given ≡ outcome_at (slice_index_or slots.old.items place b) step) }
    ensures ok { IfOk result (λ _. (b : SlotView)
        → slots.new.items ≡ slice_set slots.old.items place (stepped_slot step (slice_index_or slots.old.items place b))) }
    ensures err { OnErr result (slots.new.items ≡ slots.old.items) }
{
    let slot = &mut slots[place];
    slot.step(step.source, step.line, step.event)
}

impl World {
    ghost use Rattle.std.specs.Prelude.{◌≡◌, ◌↔◌, ◌<◌, ◌^◌, false, [], ◌∷◌, ◌++◌, List, map, length, slice_get, option_copied, IfOk, OnErr};
    ghost use Rattle.meter_slots.specs.Journal.{Start};
    ghost use Rattle.meter_address.specs.Address.{AreApart};
    ghost use Rattle.meter_slots.specs.declared.step.Step.{Step};
    ghost use Rattle.meter_slots.specs.World.{world_of, Lands, has_slot, after_step, AnsweredBy};

    /// A slot for each meter of which this is known, in their order. Their addresses differ.
    pub fn new(alloc: Global, own: Address, starts: Vec<MeterStart>) -> Result<World, Memory>
        requires apart { AreApart (map (λ c. c.address) starts.items) }
        requires few { length starts.items < 2 ^ 32 }
        ensures { IfOk result (λ world. world ≡ world_of own starts.items []) }
    {
        Ok(World {
            directory: directory_of(alloc, starts.as_slice())?,
            slots: fresh_slots(alloc, own, starts)?,
            strangers: Strangers::new(alloc),
        })
    }

    /// One step of the slot that it is for, or a stranger's. For want of memory nothing changes.
    pub fn step(&mut self, step: Step) -> Result<Landed, Memory>
        // The slot with the step's address makes it, and all others stay. Where there is none the line goes to the strangers.
        ensures after { IfOk result (λ _. self.new ≡ after_step self.old step) }
        ensures stranger { IfOk result (λ landed. (landed ≡ Landed.Stranger) ↔ (has_slot self.old.slots step ≡ false)) }
        ensures slot { IfOk result (λ landed. AnsweredBy self.old.slots step landed) }

        // A world that stands for some steps then stands for these and this one.
        ensures ok { IfOk result (λ _. (own : Address) (commissions : List Start) (steps : List Step)
            → self.old ≡ world_of own commissions steps → self.new ≡ world_of own commissions (steps ++ step ∷ [])) }
        ensures landed { IfOk result (λ landed. (own : Address) (commissions : List Start) (steps : List Step)
            → self.old ≡ world_of own commissions steps → Lands own commissions steps step landed) }
        ensures err { OnErr result (self.new ≡ self.old) }
    {
        match self.directory.find(step.address) {
            None => {
                self.strangers.note(step.source, step.line, step.address)?;
                Ok(Landed::Stranger)
            }
            Some(place) => {
                let outcome = step_at(&mut self.slots, place as usize, step)?;
                Ok(Landed::Slot(place, outcome))
            }
        }
    }

    /// The slots, in the order of the meters.
    pub fn slots(&self) -> &[SlotBook]
        ensures { result.now ≡ self.now.slots }
    {
        self.slots.as_slice()
    }

    /// The slot at a place of the commissions: none exactly where there is no such place.
    pub fn slot(&self, place: usize) -> Option<&SlotBook>
        ensures { option_copied result ≡ slice_get self.now.slots place }
    {
        self.slots.get(place)
    }

    /// The strangers.
    pub fn strangers(&self) -> &Strangers
        ensures { result.now ≡ self.now.strangers }
    {
        &self.strangers
    }
}
