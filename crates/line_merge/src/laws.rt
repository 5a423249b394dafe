//! Laws of merges: each function's contract is a law.
ghost use Rattle.line_merge.specs.Merging.{CarriedRise, FrontsAreOfTheMerge, MergesAreOne, MergesKeepEach, MergesRise};

/// A merge has the lines of each input, each once and in that input's order, and no others.
#[tactic(auto, using(crate::proofs::Merges::keep_each))]
pub fn merges_keep_each()
    ensures { MergesKeepEach }
{}

/// Where the moments of each input never fall, those of the merge never fall.
#[tactic(auto, using(crate::proofs::Merges::rise))]
pub fn merges_rise()
    ensures { MergesRise }
{}

/// Inputs have one merge: what comes next is never a matter of chance.
#[tactic(auto, using(crate::proofs::Merges::one_merge))]
pub fn merges_are_one()
    ensures { MergesAreOne }
{}

/// Lines that come first in a merge are its first ones: what was written of it so far is a front of the one text.
#[tactic(auto, using(crate::proofs::Merges::fronts))]
pub fn fronts_are_of_the_merge()
    ensures { FrontsAreOfTheMerge }
{}

/// Where the moments that an input has never fall, those at which its lines stand never fall.
#[tactic(auto, using(crate::proofs::Merges::carry))]
pub fn carried_rise()
    ensures { CarriedRise }
{}
