//! A made session.
ghost use Rattle.std.specs.Prelude.{◌≡◌, ◌≤◌, IfOk};
ghost use Rattle.made_input.specs.Made.{made};

use crate::meters::drawn_meters;
use crate::runs::{FourTexts, four_texts};
use crate::senders::senders;
use crate::texts::MadeText;
use meter_address::Address;
use outer_io::Memory;
use roster_file::{Roster, write_roster};
use std::alloc::Global;
use std::marker::Model;
use std::thread::Threads;

/// The collector's own address in each made session.
pub const OWN: Address = Address(0x9315_0100_0000_0131);

/// A made session, as texts.
#[derive(Drop)]
pub struct Made {
    /// The roster.
    pub roster: Vec<u8>,
    /// What the first receiver hears.
    pub first: MadeText,
    /// What the second receiver hears.
    pub second: MadeText,
    /// What the third receiver hears.
    pub third: MadeText,
    /// What the fourth receiver hears.
    pub fourth: MadeText,
}

impl Model for Made {
    ghost use Rattle.made_input.specs.Made.{Session};

    ghost Value = { Session };

    ghost view = { λ m. record {
      roster = m.roster.items;
      first = m.first;
      second = m.second;
      third = m.third;
      fourth = m.fourth;
    } };
}

/// The session of so many meters of security mode 7 and so many telegrams, in which a stranger takes turns with the meters:
/// its roster, and the lines that each of four receivers hears, every line heard by all. The keys are drawn from `number`.
/// Several threads make the lines.
#[tactic(auto, unfolding(crate::specs::Made::made))]
pub fn make<R: Threads + Sync>(
    rt: &R,
    alloc: Global,
    meters: u32,
    telegrams: u32,
    number: u64,
) -> Result<Made, Memory>
    requires meters { (1 ≤ meters) × (meters ≤ 1024) }
    requires telegrams { (1 ≤ telegrams) × (telegrams ≤ 16384) }
    ensures { IfOk result (λ session. session ≡ made meters telegrams number) }
{
    let roster = Roster::new(OWN, drawn_meters(alloc, meters, number)?);
    let senders = senders(alloc, roster.meters())?;
    let FourTexts {
        first,
        second,
        third,
        fourth,
    } = four_texts(rt, alloc, &senders, telegrams)?;
    let roster = write_roster(alloc, &roster)?;
    Ok(Made {
        roster,
        first,
        second,
        third,
        fourth,
    })
}
