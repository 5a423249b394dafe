//! A meter between two deliveries.
ghost use Rattle.std.specs.Prelude.{◌≡◌, length};
ghost use Rattle.aes_block.specs.Block.{IsBlock};
ghost use Rattle.meter_side_main.specs.Reading.{last_after};

use crate::opening::judge;
use crate::reason::Did;
use meter_address::{Address, Commission};
use std::marker::Model;

// A meter that hears the collector with the address `own`: what was commissioned of it, and the greatest counter executed, or the
// commissioned one.
#[derive(Drop)]
pub(crate) struct Listener {
    own: Address,
    commission: Commission,
    last: u32,
}

impl Model for Listener {
    ghost use Rattle.aes_block.specs.Block.{IsBlock};
    ghost use Rattle.meter_side_main.specs.Listening.{Listening};

    ghost Value = { Listening };

    ghost view = { λ l. record { own = l.own; commission = l.commission; last = l.last } };

    ghost invariant = { λ l. IsBlock l.commission.key };
}

// A key of sixteen bytes is a block.
fn is_block(key: &[u8])
    requires { length key.now ≡ 16 }
    ensures { IsBlock key.now }
{
    let (_front, _rest) = key.split_at(0);
}

// The last counter after what the meter did.
fn counted(last: u32, did: &Did) -> u32
    ensures { result ≡ last_after last did.now }
{
    match did {
        Did::Executed(executed) => executed.down,
        Did::Refused(_) => last,
    }
}

impl Listener {
    ghost use Rattle.std.specs.Prelude.{◌≡◌, ◌<◌, ◌↔◌};
    ghost use Rattle.aes_block.specs.Block.{IsBlock};
    ghost use Rattle.frame_formats.specs.Crc.{IsBytes};
    ghost use Rattle.meter_side_main.specs.declared.delivery.Executed.{Executed};
    ghost use Rattle.meter_side_main.specs.declared.reason.SideReason.{SideReason};
    ghost use Rattle.meter_side_main.specs.Genuine.{IsGenuine};
    ghost use Rattle.meter_side_main.specs.Refusals.{IsRefusal};
    ghost use Rattle.meter_side_main.specs.Reading.{did_after, last_after};

    // The meter before the first delivery.
    pub(crate) fn new(own: Address, commission: Commission) -> Listener
        ensures new { result ≡ record { own = own; commission = commission; last = commission.down } }
        ensures key { IsBlock commission.key }
    {
        is_block(&commission.key);
        Listener {
            own,
            commission,
            last: commission.down,
        }
    }

    // The greatest counter executed, or the commissioned one.
    pub(crate) fn last(&self) -> u32
        ensures { result ≡ self.now.last }
    {
        self.last
    }

    // Hears a delivery, and takes no memory for it.
    pub(crate) fn hear(&mut self, delivery: &[u8]) -> Did
        ensures did { result ≡ did_after self.old.own self.old.commission self.old.last delivery.now }
        ensures last { self.new ≡ record self.old { last = last_after self.old.last result } }
        ensures executed { IsBytes delivery.now → (e : Executed) → (result ≡ Did.Executed e)
            ↔ (IsGenuine self.old.own self.old.commission delivery.now e × (self.old.last < e.down)) }
        ensures refused { IsBytes delivery.now → (reason : SideReason) → (result ≡ Did.Refused reason)
            ↔ IsRefusal self.old.own self.old.commission self.old.last delivery.now reason }
    {
        let did = judge(self.own, &self.commission, self.last, delivery);
        self.last = counted(self.last, &did);
        did
    }
}
