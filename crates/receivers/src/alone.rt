//! Slots that one receiver holds alone: its steps are made in a world, in one thread and with no lock.
use crate::class::Class;
use crate::receiver::Receiver;
use crate::slots::{Heard, Slots, silent};
use meter_address::Address;
use meter_slots::{Ended, Event, Landed, Step};
use meter_worlds::World;
use outer_io::{Memory, Sink, Source};

/// A world in which one receiver makes all steps.
#[derive(Drop)]
pub struct Alone {
    /// The receiver's number.
    pub source: u32,
    /// The slots and the strangers.
    pub world: World,
}

impl<K> Slots<K> for Alone {
    ghost use Rattle.std.specs.Prelude.{ℕ, ◌≡◌, List};
    ghost use Rattle.meter_address.specs.declared.address.Address.{Address};
    ghost use Rattle.receivers.specs.Alone.{addresses_in, MakesAlone};

    ghost Fixed = { ℕ × List Address };

    ghost fixed = { λ a. (a.source, addresses_in a.world) };

    ghost directory = { λ f. f.1 };

    ghost ready = { λ a. Unit {0} };

    ghost makes = { λ f line address event sent p q. MakesAlone f.0 line address event sent p.0.world q.0.world p.1 q.1 };

    ghost waits = { λ f p q. (q.0.world ≡ p.0.world) × (q.1 ≡ p.1) };

    fn step(
        &mut self,
        _tx: &mut K,
        line: u32,
        address: Address,
        event: Event,
    ) -> Result<Heard, Memory> {
        let step = Step {
            source: self.source,
            line,
            address,
            event,
        };
        match self.world.step(step) {
            Ok(Landed::Slot(..)) => Ok(silent(Class::Own)),
            Ok(Landed::Stranger) => Ok(silent(Class::Strange)),
            Err(memory) => Err(memory),
        }
    }
}

impl<S: Source, K: Sink> Receiver<S, K> {
    ghost use Rattle.std.specs.Prelude.{◌≡◌, ◌≢◌, [], None, Some, IsTrue};
    ghost use Rattle.receivers.specs.Alone.{HasHeardAlone};
    ghost use Rattle.receivers.specs.Run.{hearing};

    /// Hears its lines until it ends, and makes the step of each in a world. Nothing is written to its sink. A line for which there is no
    /// memory makes no step; those before it stand.
    pub fn work_alone(&mut self, alone: &mut Alone) -> Ended
        requires fresh { self.old.ended ≡ None }
        ensures heard { HasHeardAlone alone.old.source
            (hearing S.Source self.old.source self.new.source self.new.counts result) alone.old.world alone.new.world }
        ensures untaken { IsTrue S.tells → S.taken self.old.source ≡ [] }
        ensures ended { self.new.ended ≡ Some result }
        ensures never { result ≢ Ended.TxFault }
        ensures tx { self.new.tx ≡ self.old.tx }
    {
        self.hear_all(alone)
    }
}
