//! What a slot begins with.
ghost use Rattle.std.specs.Prelude.{◌≡◌, ◌≤◌, IfOk, length, map, take};
ghost use Rattle.meter_slots.specs.Laws.{IsPayload, HasPayload, AreReady};

use crate::commands::Commands;
use crate::fragments::{Fragments, hold, tick};
use crate::known::KnownMeter;
use crate::reading::{Reading, Room};
use afl_fragments::Part;
use command_queue::Command;
use meter_address::{Address, Commission, Mode};
use outer_io::Memory;
use std::alloc::Global;
use std::marker::Model;

/// What is known of a meter when its slot is made: what is commissioned of it, and what the end of an earlier session left: the fragments
/// that are held, the commands that wait with their window, and the last reading.
#[derive(Drop)]
pub struct MeterStart {
    pub(crate) commission: Commission,
    pub(crate) parts: Fragments,
    pub(crate) commands: Commands,
    pub(crate) reading: Option<Reading>,
}

impl Model for MeterStart {
    ghost use Rattle.afl_fragments.specs.Held.{StandsFor};
    ghost use Rattle.afl_fragments.specs.Short.{told_of};
    ghost use Rattle.meter_slots.specs.Journal.{Start};
    ghost use Rattle.meter_slots.specs.Keeping.{held_by};

    ghost Value = { Start };

    ghost view = { λ s. record {
      address = s.commission.address;
      mode = s.commission.mode;
      key = s.commission.key;
      other = s.commission.other;
      last = s.commission.last;
      told = told_of (held_by s.parts);
      orders = s.commands;
      reading = s.reading;
    } };

    ghost invariant = { λ s. StandsFor (held_by s.parts) (told_of (held_by s.parts)) };
}

impl MeterStart {
    ghost use Rattle.std.specs.Prelude.{◌≡◌, ◌≤◌, ◌∷◌, Some, OnOk, OnErr, length, option_copied};
    ghost use Rattle.afl_fragments.specs.Held.{Piece, Tick};
    ghost use Rattle.afl_fragments.specs.Short.{cut_down};
    ghost use Rattle.meter_slots.specs.Journal.{fresh_start};
    ghost use Rattle.meter_slots.specs.Restoring.{may_restore, restored};

    /// The start of a commissioned meter of which nothing is known but its commission.
    #[tactic(auto, using(crate::proofs::NothingHeld::nothing_held))]
    pub fn new(commission: Commission) -> MeterStart
        ensures { result ≡ fresh_start commission }
    {
        MeterStart {
            commission,
            parts: None,
            commands: Commands::new(commission.ids, commission.down),
            reading: None,
        }
    }

    /// A fragment that is held, later than those before it.
    #[tactic(auto, using(afl_fragments::proofs::Shortening::short_stands))]
    pub fn hold(&mut self, alloc: Global, part: Part) -> Result<(), Memory>
        ensures ok { OnOk result (self.new ≡ record self.old { told = cut_down (Piece part ∷ self.old.told) }) }
        ensures err { OnErr result (self.new ≡ self.old) }
    {
        hold(alloc, &mut self.parts, part)?;
        Ok(())
    }

    /// A tick that came after them.
    #[tactic(auto, using(afl_fragments::proofs::Shortening::short_stands))]
    pub fn tick(&mut self)
        ensures { self.new ≡ record self.old { told = cut_down (Tick ∷ self.old.told) } }
    {
        tick(&mut self.parts);
    }

    /// A command that waited before, behind the others; `waits` says whether the window waits for it. Where it may not stand there nothing
    /// changes.
    pub fn restore(&mut self, command: Command, waits: bool) -> bool
        ensures answer { result ≡ may_restore self.old.orders command waits }
        ensures after { self.new ≡ record self.old { orders = restored self.old.orders command waits } }
    {
        self.commands.restore(command, waits)
    }

    /// A reading, which is the last one from now on. For want of memory nothing changes.
    pub fn keep(
        &mut self,
        alloc: Global,
        at: u64,
        counter: u32,
        payload: &[u8],
    ) -> Result<(), Memory>
        requires { length payload.now ≤ 4096 }
        ensures ok { OnOk result (self.new ≡ record self.old {
          reading = Some (record { at = at; counter = counter; payload = payload.now });
        }) }
        ensures err { OnErr result (self.new ≡ self.old) }
    {
        let room = Room::with_capacity(alloc, payload.len())?;
        self.reading = Some(Reading {
            at,
            counter,
            payload: room.fill(payload),
        });
        Ok(())
    }

    /// How the meter's messages are secured.
    pub fn mode(&self) -> Mode
        ensures { result ≡ self.now.mode }
    {
        self.commission.mode
    }

    /// The meter's address.
    pub fn address(&self) -> Address
        ensures { result ≡ self.now.address }
    {
        self.commission.address
    }

    /// The last reading.
    pub fn reading(&self) -> Option<&Reading>
        ensures { option_copied result ≡ self.now.reading }
    {
        self.reading.as_ref()
    }

    /// All of it.
    pub fn known(&self) -> KnownMeter<'_>
        ensures { result ≡ self.now }
    {
        KnownMeter {
            commission: self.commission,
            parts: &self.parts,
            commands: &self.commands,
            reading: self.reading.as_ref(),
        }
    }

    // Each command that waits has 1 to 94 bytes. Nothing is done: the journal's proof needs it.
    pub(crate) fn show_commands(&self)
        ensures { AreReady self.now.orders }
    {
        self.commands.show_payloads();
    }
}

/// The addresses of some meters, in their order.
pub fn addresses_of(alloc: Global, starts: &[MeterStart]) -> Result<Vec<Address>, Memory>
    ensures { IfOk result (λ addresses. addresses.items ≡ map (λ c. c.address) starts.now) }
{
    let mut addresses = Vec::new(alloc);
    for place in 0..starts.len() {
        addresses.push(starts[place].address())?;
    }
    Ok(addresses)
}
