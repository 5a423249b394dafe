//! A state under a roster.
ghost use Rattle.std.specs.Prelude.{◌≡◌, map, option_copied};
ghost use Rattle.std.specs.List.{flat_map};
ghost use Rattle.paper.specs.Puts.{Puts};
ghost use Rattle.state_changes.specs.Merging.{known_among};
ghost use Rattle.state_changes.specs.Printing.{at_place, merged_block};

use crate::commission::merged_commission;
use meter_address::{Address, Commission};
use meter_directory::Directory;
use meter_slots::{MeterStart, addresses_of};
use outer_io::Memory;
use paper::{Paper, Printed, put_text};
use roster_file::{Roster, put_meter, put_own};
use state_file::{State, put_block_as};
use std::alloc::Global;
use std::marker::Model;

/// A state that is merged with a roster. It is printed without memory.
#[derive(Drop)]
pub struct Merged {
    state: State,
    roster: Roster,
    places: Directory,
}

impl Model for Merged {
    ghost use Rattle.std.specs.Prelude.{◌≡◌, map};
    ghost use Rattle.state_file.specs.Whole.{Known};
    ghost use Rattle.state_changes.specs.Merging.{merged};

    ghost Value = { Known };

    ghost view = { λ m. merged m.state m.roster };

    ghost invariant = { λ m. m.places ≡ map (λ c. c.address) m.state.starts };
}

impl Merged {
    ghost use Rattle.std.specs.Prelude.{◌≡◌, IfOk};
    ghost use Rattle.state_changes.specs.Merging.{merged};

    /// This state under this roster.
    pub(crate) fn new(alloc: Global, state: State, roster: Roster) -> Result<Merged, Memory>
        ensures { IfOk result (λ m. m ≡ merged state roster) }
    {
        let addresses = addresses_of(alloc, state.starts())?;
        let places = Directory::new(alloc, addresses.as_slice())?;
        Ok(Merged {
            state,
            roster,
            places,
        })
    }
}

fn at_place(starts: &[MeterStart], place: Option<u32>) -> Option<&MeterStart>
    ensures { option_copied result ≡ at_place starts.now place }
{
    match place {
        None => None,
        Some(place) => starts.get(place as usize),
    }
}

// The meter with this address, where one is known.
#[tactic(auto, using(crate::proofs::Merges::found_at))]
fn known_among<'a>(
    starts: &'a [MeterStart],
    places: &Directory,
    address: Address,
) -> Option<&'a MeterStart>
    requires { places.now ≡ map (λ c. c.address) starts.now }
    ensures { option_copied result ≡ known_among address starts.now }
{
    at_place(starts, places.find(address))
}

// A meter's block under the line of the roster.
#[tactic(auto, using(crate::proofs::Merges::known_block, crate::proofs::Merges::fresh_block))]
fn put_merged<P: Paper>(
    paper: &mut P,
    meter: &Commission,
    starts: &[MeterStart],
    places: &Directory,
)
    requires { places.now ≡ map (λ c. c.address) starts.now }
    ensures { Puts P.takes paper.old (merged_block starts.now meter.now) paper.new }
{
    match known_among(starts, places, meter.address) {
        Some(start) => {
            let known = start.known();
            let commission = merged_commission(&known.commission(), meter);
            put_block_as(paper, &commission, &known);
        }
        None => put_meter(paper, meter),
    }
}

#[tactic(auto, using(paper::proofs::Items::one_item))]
fn put_all<P: Paper>(
    paper: &mut P,
    meters: &[Commission],
    starts: &[MeterStart],
    places: &Directory,
)
    requires { places.now ≡ map (λ c. c.address) starts.now }
    ensures { Puts P.takes paper.old (flat_map (merged_block starts.now) meters.now) paper.new }
{
    for meter in meters {
        put_merged(paper, meter, starts, places);
    }
}

impl Printed for Merged {
    ghost use Rattle.state_file.specs.Written.{state_text};

    ghost text = { state_text };

    #[tactic(auto, using(crate::proofs::Merges::merged_pieces))]
    fn print<P: Paper>(&self, paper: &mut P) {
        put_text(paper, "wmbus-state 1\n");
        put_own(paper, self.roster.own());
        put_all(
            paper,
            self.roster.meters(),
            self.state.starts(),
            &self.places,
        );
        put_text(paper, "end\n");
    }
}
