//! What is shown of a line.
ghost use Rattle.paper.specs.Puts.{Puts};
ghost use Rattle.frame_inspect.specs.Shown.{answered_text};

use crate::serving::{Answer, answer_to, put_answer};
use frame_inspect_main::put_said_line;
use line_reader::{BadLine, Line, read_line};
use line_teller::{Sheet, Teller};
use outer_io::Memory;
use paper::Paper;
use roster_file::Roster;
use std::alloc::Global;

/// The most bytes of a line, without its end, that is looked at: a longer one is outside the grammar.
pub const LINE_MAX: usize = line_reader::LINE_MAX;

// Puts the line of what is said, and what stands below it.
#[tactic(auto, unfolding(crate::specs::Shown::answered_text), using(paper::proofs::Calls::two_make))]
fn put_answered<P: Paper>(paper: &mut P, number: u32, said: &Result<Line, BadLine>, answer: &Answer)
    ensures { Puts P.takes paper.old (answered_text number said.now answer.now) paper.new }
{
    put_said_line(paper, number, said);
    put_answer(paper, answer);
}

/// Shows each line, and below it what it says under the keys of a roster.
#[derive(Drop)]
pub(crate) struct Opener {
    /// The roster.
    pub roster: Roster,
}

impl Teller for Opener {
    ghost use Rattle.frame_inspect.specs.Shown.{ShowsLine};

    ghost longest = { 1024 };

    ghost tells = { ShowsLine };

    fn tell(
        &mut self,
        alloc: Global,
        number: u32,
        line: &[u8],
        text: &mut Sheet,
        _note: &mut Sheet,
    ) -> Result<(), Memory> {
        let said = read_line(line);
        let below = answer_to(alloc, self.roster.own(), self.roster.meters(), &said)?;
        put_answered(text, number, &said, &below);
        Ok(())
    }

    fn tell_long(&mut self, number: u32, text: &mut Sheet, _note: &mut Sheet) {
        put_said_line(text, number, &Err(BadLine::TooLong));
    }
}
