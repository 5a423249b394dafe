//! Laws of every line: a function's contract is a law.
ghost use Rattle.step_text.specs.Causes.{ReasonIsItsParts};
ghost use Rattle.step_text.specs.Ticks.{NoTickIsDue};

/// The word and the values of a refusal are all that the report says of it.
#[tactic(auto, using(crate::proofs::Parts::reason_is_its_parts))]
pub fn reason_is_its_parts()
    ensures { ReasonIsItsParts }
{}

/// Where a meter's block waits for nothing and holds nothing, a tick leaves all that is known of the meter as it is.
#[tactic(auto, using(crate::proofs::Ticks::no_tick_is_due))]
pub fn no_tick_is_due()
    ensures { NoTickIsDue }
{}
