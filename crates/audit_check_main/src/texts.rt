//! What is printed of a verdict.
ghost use Rattle.std.specs.Prelude.{◌≡◌};
ghost use Rattle.paper.specs.Puts.{Puts};
ghost use Rattle.audit_check_main.specs.Texts.{roster_cause_text, state_cause_text, cause_text, no_text};

use crate::verdict::{Cause, Verdict};
use paper::{Paper, Printed, put_labelled, put_labelled_two, put_text};
use roster_file::LineCause;
use state_file::{FileCause, roster_word, state_word};

#[tactic(auto, unfolding(crate::specs::Texts::roster_cause_text), using(paper::proofs::Calls::three_make))]
fn put_roster_cause<P: Paper>(paper: &mut P, line: u32, cause: LineCause)
    ensures { Puts P.takes paper.old (roster_cause_text line cause) paper.new }
{
    put_labelled(paper, "roster ", u64::from(line));
    put_text(paper, " ");
    put_text(paper, roster_word(cause));
}

#[tactic(auto, unfolding(crate::specs::Texts::state_cause_text), using(paper::proofs::Calls::three_make))]
fn put_state_cause<P: Paper>(paper: &mut P, line: u32, cause: FileCause)
    ensures { Puts P.takes paper.old (state_cause_text line cause) paper.new }
{
    put_labelled(paper, "state ", u64::from(line));
    put_text(paper, " ");
    put_text(paper, state_word(cause));
}

fn put_cause<P: Paper>(paper: &mut P, cause: Cause)
    ensures { Puts P.takes paper.old (cause_text cause) paper.new }
{
    match cause {
        Cause::Roster(line, cause) => put_roster_cause(paper, line, cause),
        Cause::State(line, cause) => put_state_cause(paper, line, cause),
        Cause::Over(w) => put_labelled(paper, "over ", u64::from(w)),
        Cause::Form(line) => put_labelled(paper, "form ", u64::from(line)),
        Cause::Order { list, place } => {
            put_labelled_two(paper, "order ", u64::from(list), u64::from(place))
        }
        Cause::Text(place) => put_labelled(paper, "text ", place as u64),
        Cause::Next { line, place } => {
            put_labelled_two(paper, "next ", line as u64, place as u64)
        }
    }
}

#[tactic(auto, unfolding(crate::specs::Texts::no_text), using(paper::proofs::Calls::three_make))]
fn put_no<P: Paper>(paper: &mut P, cause: Cause)
    ensures { Puts P.takes paper.old (no_text cause) paper.new }
{
    put_text(paper, "no ");
    put_cause(paper, cause);
    put_text(paper, "\n");
}

impl Printed for Verdict {
    ghost use Rattle.audit_check_main.specs.Texts.{verdict_text};

    ghost text = { verdict_text };

    fn print<P: Paper>(&self, paper: &mut P) {
        match *self {
            Verdict::Yes => put_text(paper, "yes\n"),
            Verdict::No(cause) => put_no(paper, cause),
        }
    }
}
