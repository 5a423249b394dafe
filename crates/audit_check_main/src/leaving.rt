//! The state that a session leaves, which is compared with a text.
ghost use Rattle.std.specs.Prelude.{◌≡◌, ◌<◌, ◌++◌, ◌^◌, List, ℕ, false, codes, option_copied, IfSome};
ghost use Rattle.paper.specs.Puts.{Puts};
ghost use Rattle.roster_file.specs.Text.{own_text};
ghost use Rattle.state_file.specs.Written.{IsStart, block_text};
ghost use Rattle.audit_check_main.specs.Auditing.{IsNextCompared, IsNextSoFar};
ghost use Rattle.audit_check_main.specs.Comparing.{Compares};

use crate::comparing::Comparing;
use crate::verdict::{Cause, Verdict};
use meter_address::Address;
use meter_slots::KnownMeter;
use paper::put_text;
use roster_file::put_own;
use state_file::{put_block, show_known};

/// The collector's own address has 64 bits. Nothing is done: the type says it.
pub(crate) fn show_own(own: u64)
    ensures { own < 2 ^ 64 }
{}

/// A paper for the state that is judged. Where none is, it is one for no bytes, from which each state differs at once.
pub(crate) fn next_paper<'a>(next: Option<&'a [u8]>) -> Comparing<'a>
    ensures fresh { result ≡ record { text = result.text; place = 0; differs = false } }
    ensures text { IfSome (option_copied next.entry) (λ text. result.text ≡ text) }
{
    match next {
        Some(text) => Comparing::new(text),
        None => Comparing::new(b""),
    }
}

/// Puts what stands before the meters in a state.
#[tactic(auto, using(paper::proofs::Calls::two_make))]
pub(crate) fn put_state_head(paper: &mut Comparing<'_>, own: Address)
    ensures { Puts Compares paper.old (codes "wmbus-state 1\n" ++ own_text own) paper.new }
{
    put_text(paper, "wmbus-state 1\n");
    put_own(paper, own);
}

/// Puts what is left of a meter, unless the text differs by now. It can be told, whatever it is.
#[tactic(auto, using(crate::proofs::Leavings::skips))]
pub(crate) fn put_left(paper: &mut Comparing<'_>, known: &KnownMeter<'_>)
    ensures told { IsStart known.now }
    ensures put { Puts Compares paper.old (block_text known.now) paper.new }
{
    show_known(known);
    if paper.differs() {
        return;
    }
    put_block(paper, known);
}

/// What the state that is judged is found to be, if one is, when all was put on its paper.
pub(crate) fn next_verdict(next: Option<&[u8]>, paper: &Comparing<'_>) -> Verdict
    ensures { (put : List ℕ) → IsNextSoFar paper.now (option_copied next.entry) put
        → IsNextCompared (option_copied next.entry) put result }
{
    let Some(_) = next else {
        return Verdict::Yes;
    };
    let Some(place) = paper.difference() else {
        return Verdict::Yes;
    };
    Verdict::No(Cause::Next {
        line: paper.line(),
        place,
    })
}
