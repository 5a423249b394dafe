//! What is known of a meter, lent.
use crate::commands::Commands;
use crate::fragments::{Fragments, part_at, part_count};
use crate::reading::Reading;
use afl_fragments::HeldPart;
use command_queue::{Queue, Window};
use meter_address::Commission;
use std::marker::Model;

/// What is known of a meter, lent by what its slot begins with or by the slot itself: what is commissioned of it now, the fragments that
/// are held, the commands that wait with their window, and the last reading.
#[derive(Drop)]
pub struct KnownMeter<'a> {
    pub(crate) commission: Commission,
    pub(crate) parts: &'a Fragments,
    pub(crate) commands: &'a Commands,
    pub(crate) reading: Option<&'a Reading>,
}

impl<'a> Model for KnownMeter<'a> {
    ghost use Rattle.std.specs.Option.{option_copied};
    ghost use Rattle.afl_fragments.specs.Held.{StandsFor};
    ghost use Rattle.afl_fragments.specs.Short.{told_of};
    ghost use Rattle.meter_slots.specs.Journal.{Start};
    ghost use Rattle.meter_slots.specs.Keeping.{held_by};

    ghost Value = { Start };

    ghost view = { λ s. record {
      address = s.commission.address;
      mode = s.commission.mode;
      key = s.commission.key;
      other = s.commission.other;
      last = s.commission.last;
      told = told_of (held_by s.parts.now);
      orders = s.commands.now;
      reading = option_copied s.reading;
    } };

    ghost invariant = { λ s. StandsFor (held_by s.parts.now) (told_of (held_by s.parts.now)) };
}

impl<'a> KnownMeter<'a> {
    ghost use Rattle.std.specs.Prelude.{◌≡◌, ◌≤◌, IfSome, length, slice_get, option_copied};
    ghost use Rattle.command_queue.specs.Orders.{Agrees};
    ghost use Rattle.command_queue.specs.Pending.{IsSound};
    ghost use Rattle.afl_fragments.specs.Held.{held};
    ghost use Rattle.afl_fragments.specs.Short.{cut_down};
    ghost use Rattle.meter_slots.specs.Journal.{commission_of};

    /// What is commissioned of it now.
    pub fn commission(&self) -> Commission
        ensures { result ≡ commission_of self.now }
    {
        let mut commission = self.commission;
        commission.down = self.commands.down();
        commission.ids = self.commands.queue().ids();
        commission
    }

    /// How many fragments are held.
    pub fn part_count(&self) -> usize
        ensures count { result ≡ length (held self.now.told) }
        ensures few { length (held self.now.told) ≤ 16 }
    {
        part_count(self.parts)
    }

    /// The fragment at a place, of which the one heard last has the first.
    pub fn part_at(&self, place: usize) -> Option<&HeldPart>
        ensures held { option_copied result ≡ slice_get (held self.now.told) place }
        ensures counted { IfSome result (λ h. h.now.part.afl.fid ≤ 16) }
    {
        part_at(self.parts, place)
    }

    /// What was told is cut down to what is held, and the window agrees with the queue. Nothing is done: what is written needs it.
    pub fn show(&self)
        ensures short { cut_down self.now.told ≡ self.now.told }
        ensures agrees { Agrees self.now.orders.window self.now.orders.queue }
        ensures sound { IsSound self.now.orders.queue }
    {
        self.commands.show();
    }

    /// The commands that wait.
    pub fn queue(&self) -> &Queue
        ensures { result.now ≡ self.now.orders.queue }
    {
        self.commands.queue()
    }

    /// Whether one of them was sent and waits for a response.
    pub fn window(&self) -> Window
        ensures { result ≡ self.now.orders.window }
    {
        self.commands.window()
    }

    /// The last reading.
    pub fn reading(&self) -> Option<&Reading>
        ensures { option_copied result ≡ self.now.reading }
    {
        self.reading
    }
}
