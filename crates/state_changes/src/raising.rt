//! A state whose downlink counters are raised.
ghost use Rattle.std.specs.Prelude.{◌≡◌};
ghost use Rattle.std.specs.List.{flat_map};
ghost use Rattle.paper.specs.Puts.{Puts};
ghost use Rattle.state_changes.specs.Printing.{capped_block};
ghost use Rattle.state_changes.specs.Raising.{is_spent, first_spent};

use crate::commission::capped_commission;
use meter_address::Address;
use meter_slots::MeterStart;
use paper::{Paper, Printed, put_text};
use roster_file::put_own;
use state_file::{State, put_block_as};
use std::marker::Model;

/// A state whose downlink counters are raised. It is printed without memory.
#[derive(Drop)]
pub struct Raised {
    state: State,
    by: u32,
}

impl Model for Raised {
    ghost use Rattle.std.specs.Prelude.{◌≡◌, None};
    ghost use Rattle.state_file.specs.Whole.{Known};
    ghost use Rattle.state_changes.specs.Raising.{raised, first_spent};

    ghost Value = { Known };

    ghost view = { λ r. raised r.by r.state };

    ghost invariant = { λ r. first_spent r.by r.state.starts ≡ None };
}

impl Raised {
    ghost use Rattle.std.specs.Prelude.{◌≡◌, None};
    ghost use Rattle.state_changes.specs.Raising.{raised, first_spent};

    /// This state, with so many counters of downlinks of each meter passed over.
    pub(crate) fn new(state: State, by: u32) -> Raised
        requires { first_spent by state.starts ≡ None }
        ensures { result ≡ raised by state }
    {
        Raised { state, by }
    }
}

// Whether a meter's counter would pass the greatest one.
fn is_spent(start: &MeterStart, by: u32) -> bool
    ensures { result ≡ is_spent by start.now }
{
    u64::from(u32::MAX) < u64::from(start.known().commission().down) + u64::from(by)
}

/// The first meter whose counter would pass the greatest one.
pub(crate) fn first_spent(starts: &[MeterStart], by: u32) -> Option<Address>
    ensures { result ≡ first_spent by starts.now }
{
    for start in starts {
        if is_spent(start, by) {
            return Some(start.address());
        }
    }
    None
}

#[tactic(auto, using(crate::proofs::Raises::capped_pieces))]
fn put_capped<P: Paper>(paper: &mut P, start: &MeterStart, by: u32)
    ensures { Puts P.takes paper.old (capped_block by start.now) paper.new }
{
    let known = start.known();
    put_block_as(paper, &capped_commission(&known.commission(), by), &known);
}

#[tactic(auto, using(paper::proofs::Items::one_item))]
fn put_all<P: Paper>(paper: &mut P, starts: &[MeterStart], by: u32)
    ensures { Puts P.takes paper.old (flat_map (capped_block by) starts.now) paper.new }
{
    for start in starts {
        put_capped(paper, start, by);
    }
}

impl Printed for Raised {
    ghost use Rattle.state_file.specs.Written.{state_text};

    ghost text = { state_text };

    #[tactic(auto, using(crate::proofs::Raises::raised_pieces))]
    fn print<P: Paper>(&self, paper: &mut P) {
        put_text(paper, "wmbus-state 1\n");
        put_own(paper, self.state.own());
        put_all(paper, self.state.starts(), self.by);
        put_text(paper, "end\n");
    }
}
