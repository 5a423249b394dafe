//! The text of the answers.
ghost use Rattle.std.specs.Prelude.{◌≡◌};
ghost use Rattle.paper.specs.Puts.{Puts};
ghost use Rattle.meter_side_main.specs.Lines.{reason_text, executed_text, refused_text, answer_text};

use crate::delivery::Executed;
use crate::lines::Answer;
use crate::reason::{Did, SideReason};
use paper::{Paper, Printed, put_hex, put_number, put_text};

#[tactic(auto, using(paper::proofs::Calls::two_make, paper::proofs::Calls::four_make))]
fn put_reason<P: Paper>(paper: &mut P, reason: SideReason)
    ensures { Puts P.takes paper.old (reason_text reason) paper.new }
{
    match reason {
        SideReason::Frame(_) => put_text(paper, "frame"),
        SideReason::Layout(place) => {
            put_text(paper, "layout ");
            put_number(paper, place as u64)
        }
        SideReason::BadMac => put_text(paper, "mac"),
        SideReason::CheckBytes(two) => {
            put_text(paper, "check ");
            put_hex(paper, &two)
        }
        SideReason::Stale { got, last } => {
            put_text(paper, "stale ");
            put_number(paper, u64::from(got));
            put_text(paper, " ");
            put_number(paper, u64::from(last))
        }
    }
}

#[tactic(auto, unfolding(crate::specs::Lines::executed_text), using(paper::proofs::Calls::five_make))]
fn put_executed<P: Paper>(paper: &mut P, executed: &Executed)
    ensures { Puts P.takes paper.old (executed_text executed.now) paper.new }
{
    put_text(paper, "executed ");
    put_number(paper, u64::from(executed.down));
    put_text(paper, " ");
    put_hex(paper, executed.content.bytes());
    put_text(paper, "\n");
}

#[tactic(auto, unfolding(crate::specs::Lines::refused_text), using(paper::proofs::Calls::three_make))]
fn put_refused<P: Paper>(paper: &mut P, reason: SideReason)
    ensures { Puts P.takes paper.old (refused_text reason) paper.new }
{
    put_text(paper, "refused ");
    put_reason(paper, reason);
    put_text(paper, "\n");
}

fn put_answer<P: Paper>(paper: &mut P, answer: &Answer)
    ensures { Puts P.takes paper.old (answer_text answer.now) paper.new }
{
    match answer {
        Answer::Bad => put_text(paper, "bad\n"),
        Answer::Heard(Did::Executed(executed)) => put_executed(paper, executed),
        Answer::Heard(Did::Refused(reason)) => put_refused(paper, *reason),
    }
}

impl Printed for Answer {
    ghost use Rattle.meter_side_main.specs.Lines.{answer_text};

    ghost text = { answer_text };

    fn print<P: Paper>(&self, paper: &mut P) {
        put_answer(paper, self);
    }
}

// The last line, of the last counter.
#[derive(Drop)]
pub(crate) struct Last(pub(crate) u32);

impl Printed for Last {
    ghost use Rattle.meter_side_main.specs.Lines.{last_text};

    ghost text = { λ last. last_text last.0 };

    #[tactic(auto, unfolding(crate::specs::Lines::last_text), using(paper::proofs::Calls::three_make))]
    fn print<P: Paper>(&self, paper: &mut P) {
        put_text(paper, "last ");
        put_number(paper, u64::from(self.0));
        put_text(paper, "\n");
    }
}
