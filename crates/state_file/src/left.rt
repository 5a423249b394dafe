//! What slots leave for the next session.
ghost use Rattle.std.specs.List.{flat_map};
ghost use Rattle.paper.specs.Puts.{Puts};
ghost use Rattle.state_file.specs.Left.{slot_block, slot_line};

use crate::writing::put_block;
use meter_address::Address;
use meter_slots::SlotBook;
use paper::{Paper, Printed, put_text};
use roster_file::{put_meter, put_own};

#[tactic(auto, using(paper::proofs::Items::one_item))]
fn put_lines<P: Paper>(paper: &mut P, slots: &[SlotBook])
    ensures { Puts P.takes paper.old (flat_map slot_line slots.now) paper.new }
{
    for slot in slots {
        put_meter(paper, &slot.commission());
    }
}

#[tactic(auto, using(paper::proofs::Items::one_item))]
fn put_blocks<P: Paper>(paper: &mut P, slots: &[SlotBook])
    ensures { Puts P.takes paper.old (flat_map slot_block slots.now) paper.new }
{
    for slot in slots {
        put_block(paper, &slot.known());
    }
}

/// The roster that slots leave: the commissions as they are now. It is printed without memory.
#[derive(Drop)]
pub struct LeftRoster<'a> {
    /// The collector's own address.
    pub own: Address,
    /// The slots, in the order of the meters.
    pub slots: &'a [SlotBook],
}

impl Printed for LeftRoster<'_> {
    ghost use Rattle.roster_file.specs.Text.{roster_text};
    ghost use Rattle.state_file.specs.Left.{left_roster};

    ghost text = { λ s. roster_text (left_roster s.own s.slots.now) };

    #[tactic(auto, using(crate::proofs::LeftPieces::roster_pieces))]
    fn print<P: Paper>(&self, paper: &mut P) {
        put_text(paper, "wmbus-roster 2\n");
        put_own(paper, self.own);
        put_lines(paper, self.slots);
    }
}

/// The state that slots leave: what is known of each meter now. It is printed without memory.
#[derive(Drop)]
pub struct LeftState<'a> {
    /// The collector's own address.
    pub own: Address,
    /// The slots, in the order of the meters.
    pub slots: &'a [SlotBook],
}

impl Printed for LeftState<'_> {
    ghost use Rattle.state_file.specs.Left.{left_state};
    ghost use Rattle.state_file.specs.Written.{state_text};

    ghost text = { λ s. state_text (left_state s.own s.slots.now) };

    #[tactic(auto, using(crate::proofs::LeftPieces::state_pieces))]
    fn print<P: Paper>(&self, paper: &mut P) {
        put_text(paper, "wmbus-state 1\n");
        put_own(paper, self.own);
        put_blocks(paper, self.slots);
        put_text(paper, "end\n");
    }
}
