//! The slots that lines are for.
ghost use Rattle.std.specs.Prelude.{◌≡◌, ℕ, List, Result, IfOk, OnErr};
ghost use Rattle.outer_io.specs.declared.failures.Failed.{Failed};
ghost use Rattle.meter_address.specs.declared.address.Address.{Address};
ghost use Rattle.meter_slots.specs.declared.entry.Event.{Event};
ghost use Rattle.receivers.specs.Classes.{class_at, place_of};

use crate::class::Class;
use meter_address::Address;
use meter_slots::Event;
use outer_io::{Failed, Memory};

/// What a line came to: its class, and whether its downlink was written, where it gave one.
#[derive(Drop)]
pub(crate) struct Heard {
    pub(crate) class: Class,
    pub(crate) sent: Result<(), Failed>,
}

/// A line that gave no downlink.
pub(crate) fn silent(class: Class) -> Heard
    ensures { result ≡ record { class = class; sent = Ok tt } }
{
    Heard {
        class,
        sent: Ok(()),
    }
}

/// The slots that a receiver's lines are for, and where the downlinks go that their steps give.
pub(crate) trait Slots<K> {
    /// What no step changes of them.
    ghost Fixed: { Type 0 };

    ghost fixed: { Self → Fixed };

    /// The addresses of the meters.
    ghost directory: { Fixed → List Address };

    /// Whether steps can be made.
    ghost ready: { Self → Type 0 };

    /// What a step does to them and to the sink, by its line's number, its address, its event, and what became of its downlink.
    ghost makes: { Fixed → ℕ → Address → Event → Result Unit Failed → Self × K → Self × K → Type 0 };

    /// What a step does for which there is no memory.
    ghost waits: { Fixed → Self × K → Self × K → Type 0 };

    /// Makes the step of a line, and writes the downlink that it gives. For want of memory there is no step.
    fn step(
        &mut self,
        tx: &mut K,
        line: u32,
        address: Address,
        event: Event,
    ) -> Result<Heard, Memory>
        requires ready { ready self.old }
        ensures ready { ready self.new }
        ensures fixed { fixed self.new ≡ fixed self.old }
        ensures class { IfOk result (λ h. h.class ≡ class_at (place_of (directory (fixed self.old)) address)) }
        ensures makes { IfOk result (λ h. makes (fixed self.old) line address event h.sent (self.old, tx.old) (self.new, tx.new)) }
        ensures memory { OnErr result (waits (fixed self.old) (self.old, tx.old) (self.new, tx.new)) };
}
