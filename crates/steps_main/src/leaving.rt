//! What is left for the next session.
ghost use Rattle.std.specs.Prelude.{◌≡◌, ◌≤◌, ◌<◌, ◌^◌, IfSome, All, Ok, slice_get};
ghost use Rattle.std.specs.List.{flat_map};
ghost use Rattle.outer_io.specs.Shown.{sink_change};
ghost use Rattle.paper.specs.Pieces.{text_if};
ghost use Rattle.paper.specs.Puts.{Puts};
ghost use Rattle.state_file.specs.Rooms.{HasRoom};
ghost use Rattle.state_file.specs.Whole.{state_of};
ghost use Rattle.state_file.specs.Written.{state_text};
ghost use Rattle.steps_main.specs.Ending.{known_of, meter_block, IsTellable, Wrote};

use meter_address::Address;
use meter_worlds::PassingWorld;
use outer_io::{Failed, Sink};
use paper::{Paper, Printed, put_text, write};
use roster_file::put_own;
use state_file::{put_block, show_known};

// The block of the meter at a place, if there is one.
fn put_block_at<P: Paper>(paper: &mut P, world: &PassingWorld, place: usize)
    ensures { Puts P.takes paper.old (text_if meter_block (slice_get world.now place)) paper.new }
{
    match world.known(place) {
        None => {}
        Some(known) => put_block(paper, &known),
    }
}

fn put_blocks<P: Paper>(paper: &mut P, world: &PassingWorld)
    ensures { Puts P.takes paper.old (flat_map meter_block world.now) paper.new }
{
    for place in 0..world.len() {
        put_block_at(paper, world, place);
    }
}

// The state of what is known of the meters now. It is printed without memory.
#[derive(Drop)]
struct Left<'a> {
    // The collector's own address.
    own: Address,
    // The meters' slots.
    world: &'a PassingWorld,
}

impl Printed for Left<'_> {
    ghost use Rattle.state_file.specs.Written.{state_text};
    ghost use Rattle.steps_main.specs.Ending.{known_of};

    ghost text = { λ s. state_text (known_of s.own s.world.now) };

    #[tactic(auto, using(crate::proofs::EndPieces::state_pieces))]
    fn print<P: Paper>(&self, paper: &mut P) {
        put_text(paper, "wmbus-state 1\n");
        put_own(paper, self.own);
        put_blocks(paper, self.world);
        put_text(paper, "end\n");
    }
}

/// Writes the state of what is known of the meters now.
pub(crate) fn write_left<N: Sink>(
    own: Address,
    world: &PassingWorld,
    next: &mut N,
) -> Result<(), Failed>
    ensures wrote { Wrote N.tells (state_text (known_of own world.now)) (sink_change N.Sink next.old next.new) result }
    ensures later { N.faults next.old ≤ N.faults next.new }
{
    write(next, &Left { own, world })
}

fn show_known_at(world: &PassingWorld, place: usize)
    ensures { IfSome (slice_get world.now place) IsTellable }
{
    match world.known(place) {
        None => {}
        Some(known) => show_known(&known),
    }
}

fn show_each(world: &PassingWorld)
    ensures { All IsTellable world.now }
{
    for place in 0..world.len() {
        show_known_at(world, place);
    }
}

fn show_long(number: u64)
    ensures { number < 2 ^ 64 }
{}

/// What is left is read back from its text. Nothing is done: the types say it.
pub(crate) fn show_left(own: Address, world: &PassingWorld)
    ensures { HasRoom (known_of own world.now).starts → state_of (state_text (known_of own world.now)) ≡ Ok (known_of own world.now) }
{
    show_long(own.0);
    show_each(world);
}
