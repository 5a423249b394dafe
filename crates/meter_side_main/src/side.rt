//! The meter's side.
ghost use Rattle.std.specs.Prelude.{◌≡◌, ◌<◌, ◌++◌, vec_len, vec_capacity};
ghost use Rattle.meter_side_main.specs.Reading.{executed_in};

use crate::delivery::{Delivery, Executed};
use crate::listener::Listener;
use crate::reason::Did;
use meter_address::{Address, Commission};
use outer_io::Memory;
use std::alloc::Global;
use std::marker::Model;

/// A meter that reads downlinks: the collector's address, what was commissioned of the meter, and what it executed of all that was
/// delivered. What was delivered isn't kept.
#[derive(Drop)]
pub struct MeterSide {
    listener: Listener,
    executed: Vec<Executed>,
}

impl Model for MeterSide {
    ghost use Rattle.aes_block.specs.Block.{IsBlock};
    ghost use Rattle.meter_side_main.specs.Side.{Side};

    ghost Value = { Side };

    ghost view = { λ m. record {
      own = m.listener.own;
      commission = m.listener.commission;
      last = m.listener.last;
      executed = m.executed.items;
    } };

    ghost invariant = { λ m. IsBlock m.listener.commission.key };
}

// Adds what is executed.
fn note(executed: &mut Vec<Executed>, did: &Did)
    requires { vec_len executed.old < vec_capacity executed.old }
    ensures { executed.new.items ≡ executed.old.items ++ executed_in did.now }
{
    if let Did::Executed(done) = did {
        executed.push_reserved(done.copied());
    }
}

impl MeterSide {
    ghost use Rattle.std.specs.Prelude.{ℕ, List, ◌≡◌, ◌<◌, ◌↔◌, ◌++◌, ◌∷◌, [], IfOk, OnOk, OnErr};
    ghost use Rattle.meter_side_main.specs.declared.delivery.Executed.{Executed};
    ghost use Rattle.meter_side_main.specs.declared.reason.SideReason.{SideReason};
    ghost use Rattle.meter_side_main.specs.Genuine.{IsGenuine, RiseAbove};
    ghost use Rattle.meter_side_main.specs.Refusals.{IsRefusal};
    ghost use Rattle.meter_side_main.specs.Reading.{executed_in, last_after};
    ghost use Rattle.meter_side_main.specs.Side.{StandsFor};

    /// A meter to which nothing was delivered yet.
    pub fn new(alloc: Global, own: Address, commission: Commission) -> MeterSide
        ensures new { result ≡ record { own = own; commission = commission; last = commission.down; executed = [] } }
        ensures stands { StandsFor [] result }
    {
        MeterSide {
            listener: Listener::new(own, commission),
            executed: Vec::new(alloc),
        }
    }

    /// What was executed, in its order. Whatever was delivered, its counters strictly rise from above the commissioned one.
    pub fn executed(&self) -> &[Executed]
        ensures executed { result.now ≡ self.now.executed }
        ensures rise { (deliveries : List (List ℕ)) → StandsFor deliveries self.now → RiseAbove self.now.commission.down result.now }
    {
        self.executed.as_slice()
    }

    /// The greatest counter executed, or the commissioned one where nothing was.
    pub fn last(&self) -> u32
        ensures { result ≡ self.now.last }
    {
        self.listener.last()
    }

    /// Hears a delivery: executes it, or refuses it by the first reason that applies. For want of memory nothing changes.
    pub fn hear(&mut self, delivery: Delivery) -> Result<Did, Memory>
        // What is executed is genuine and above the last counter, and each refusal has its cause.
        ensures executed { IfOk result (λ did. (e : Executed) → (did ≡ Did.Executed e)
            ↔ (IsGenuine self.old.own self.old.commission delivery e × (self.old.last < e.down))) }
        ensures refused { IfOk result (λ did. (reason : SideReason) → (did ≡ Did.Refused reason)
            ↔ IsRefusal self.old.own self.old.commission self.old.last delivery reason) }
        ensures after { IfOk result (λ did. self.new ≡ record self.old {
          last = last_after self.old.last did;
          executed = self.old.executed ++ executed_in did;
        }) }
        ensures err { OnErr result (self.new ≡ self.old) }

        // The theorem over every list of deliveries: a meter that has executed just what it should of some has so of one more.
        ensures stands { OnOk result ((before : List (List ℕ)) → StandsFor before self.old → StandsFor (before ++ delivery ∷ []) self.new) }
    {
        self.executed.reserve(1)?;
        let did = self.listener.hear(delivery.bytes());
        note(&mut self.executed, &did);
        Ok(did)
    }
}
