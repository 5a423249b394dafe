//! The law of meters that keep no journal.
ghost use Rattle.meter_worlds.specs.PassingWorld.{PassingIsKnown};

/// A slot that keeps no journal, and the last reading of its steps, know of the meter what the slot knows that keeps it; and there was a step
/// exactly where that journal has one.
#[tactic(auto, using(crate::proofs::PassingWorlds::passing_is_known))]
pub fn passing_meters_know_the_same()
    ensures { PassingIsKnown }
{}
