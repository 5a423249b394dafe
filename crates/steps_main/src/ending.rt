//! What is told behind all lines.
ghost use Rattle.std.specs.Prelude.{◌≡◌, ◌≤◌, slice_get};
ghost use Rattle.std.specs.List.{flat_map};
ghost use Rattle.outer_io.specs.Shown.{sink_change};
ghost use Rattle.paper.specs.Pieces.{text_if};
ghost use Rattle.paper.specs.Puts.{Puts};
ghost use Rattle.steps_main.specs.Ending.{known_block, stepped_block, end_text, Wrote};
ghost use Rattle.steps_main.specs.Statuses.{ended_at};

use crate::telling::Stepper;
use line_teller::LinesEnd;
use meter_slots::Ended;
use meter_worlds::PassingWorld;
use outer_io::{Failed, Sink};
use paper::{Paper, Printed, write};
use step_text::{put_block_line, put_counts_line};

// What is known of the meter at a place, if there is one.
fn put_known_at<P: Paper>(paper: &mut P, world: &PassingWorld, place: usize)
    ensures { Puts P.takes paper.old (text_if known_block (slice_get world.now place)) paper.new }
{
    match world.known(place) {
        None => {}
        Some(known) => put_block_line(paper, &known),
    }
}

// The same, if it had a step.
fn put_stepped_at<P: Paper>(paper: &mut P, world: &PassingWorld, place: usize)
    ensures { Puts P.takes paper.old (text_if stepped_block (slice_get world.now place)) paper.new }
{
    if world.had_step(place) {
        put_known_at(paper, world, place);
    }
}

fn put_stepped<P: Paper>(paper: &mut P, world: &PassingWorld)
    ensures { Puts P.takes paper.old (flat_map stepped_block world.now) paper.new }
{
    for place in 0..world.len() {
        put_stepped_at(paper, world, place);
    }
}

fn ended_at(end: LinesEnd) -> Ended
    ensures { result ≡ ended_at end }
{
    match end {
        LinesEnd::Done => Ended::End,
        LinesEnd::Cut => Ended::Cut,
        LinesEnd::Read => Ended::ReadFault,
        LinesEnd::Write => Ended::TxFault,
        LinesEnd::Memory => Ended::Memory,
    }
}

// The blocks of the meters that had a step, and the counts. They are printed without memory.
#[derive(Drop)]
struct Ending<'a> {
    // What told the lines.
    stepper: &'a Stepper,
    // How they ended.
    end: LinesEnd,
}

impl Printed for Ending<'_> {
    ghost use Rattle.steps_main.specs.Ending.{end_text};

    ghost text = { λ s. end_text s.stepper.now s.end };

    #[tactic(auto, unfolding(crate::specs::Ending::end_text), using(paper::proofs::Calls::two_make))]
    fn print<P: Paper>(&self, paper: &mut P) {
        put_stepped(paper, &self.stepper.world);
        put_counts_line(paper, self.stepper.counts, ended_at(self.end));
    }
}

/// Writes what is told behind lines that ended so.
pub(crate) fn write_end<K: Sink>(
    stepper: &Stepper,
    end: LinesEnd,
    out: &mut K,
) -> Result<(), Failed>
    ensures wrote { Wrote K.tells (end_text stepper.now end) (sink_change K.Sink out.old out.new) result }
    ensures later { K.faults out.old ≤ K.faults out.new }
{
    write(out, &Ending { stepper, end })
}
