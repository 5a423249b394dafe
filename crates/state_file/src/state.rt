//! A state.
ghost use Rattle.std.specs.Prelude.{◌≡◌, IfOk, map};
ghost use Rattle.meter_slots.specs.Journal.{fresh_start};

use meter_address::{Address, Commission};
use meter_slots::MeterStart;
use outer_io::Memory;
use roster_file::Roster;
use std::alloc::Global;
use std::marker::Model;

/// The collector's own address, and what is known of each meter, in the order of their lines.
#[derive(Drop)]
pub struct State {
    own: Address,
    starts: Vec<MeterStart>,
}

impl Model for State {
    ghost use Rattle.state_file.specs.Whole.{Known};
    ghost use Rattle.state_file.specs.Rooms.{HasRoom};

    ghost Value = { Known };

    ghost view = { λ s. record { own = s.own; starts = s.starts.items } };

    ghost invariant = { λ s. HasRoom s.starts.items };
}

// What is known of meters that were just commissioned.
fn fresh_starts(alloc: Global, meters: &[Commission]) -> Result<Vec<MeterStart>, Memory>
    ensures { IfOk result (λ starts. starts.items ≡ map fresh_start meters.now) }
{
    let starts = meters
        .iter()
        .map(|meter| MeterStart::new(*meter))
        .collect(alloc)?;
    Ok(starts)
}

impl State {
    ghost use Rattle.std.specs.Prelude.{◌≡◌, IfOk};
    ghost use Rattle.roster_file.specs.Enrolled.{IsEnrolled};
    ghost use Rattle.state_file.specs.Rooms.{HasRoom};
    ghost use Rattle.state_file.specs.Whole.{fresh_known};

    /// The state of these meters.
    pub fn new(own: Address, starts: Vec<MeterStart>) -> Self
        requires { HasRoom starts.items }
        ensures { result ≡ record { own = own; starts = starts.items } }
    {
        State { own, starts }
    }

    /// The meters of a roster, which are just commissioned.
    #[tactic(auto, using(crate::proofs::ReadStates::enrolled_have_room))]
    pub fn of_roster(alloc: Global, roster: &Roster) -> Result<Self, Memory>
        requires { IsEnrolled roster.now }
        ensures { IfOk result (λ state. state ≡ fresh_known roster.now) }
    {
        let starts = fresh_starts(alloc, roster.meters())?;
        Ok(State {
            own: roster.own(),
            starts,
        })
    }

    /// The collector's own address.
    pub fn own(&self) -> Address
        ensures { result ≡ self.now.own }
    {
        self.own
    }

    /// The meters.
    pub fn starts(&self) -> &[MeterStart]
        ensures starts { result.now ≡ self.now.starts }
        ensures room { HasRoom self.now.starts }
    {
        self.starts.as_slice()
    }

    /// Gives the meters back.
    pub fn into_starts(self) -> Vec<MeterStart>
        ensures starts { result.items ≡ self.starts }
        ensures room { HasRoom self.starts }
    {
        self.starts
    }
}
