//! Pieces of texts: words with numbers between them.
ghost use Rattle.paper.specs.Puts.{Puts};
ghost use Rattle.input_check.specs.Texts.{between, between_two};

use paper::{Paper, put_labelled, put_text};

/// Puts words, a number and words.
#[tactic(auto, unfolding(crate::specs::Texts::between), using(paper::proofs::Calls::two_make))]
pub(crate) fn put_between<P: Paper>(paper: &mut P, before: &str, number: u64, after: &str)
    ensures { Puts P.takes paper.old (between before.now number after.now) paper.new }
{
    put_labelled(paper, before, number);
    put_text(paper, after);
}

/// Puts words, a number, words, a number and words.
#[tactic(auto, unfolding(crate::specs::Texts::between_two), using(paper::proofs::Calls::two_make))]
pub(crate) fn put_between_two<P: Paper>(
    paper: &mut P,
    before: &str,
    first: u64,
    middle: &str,
    second: u64,
    after: &str,
)
    ensures { Puts P.takes paper.old (between_two before.now first middle.now second after.now) paper.new }
{
    put_labelled(paper, before, first);
    put_between(paper, middle, second, after);
}
