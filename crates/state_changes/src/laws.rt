//! Laws of what an operator changes: each function's contract is a law.
ghost use Rattle.state_changes.specs.Laws.{KnownStay, MergedAreStates, RaisedAreStates, RestoredCountersRise};

/// Of a known meter the mode and the keys are the roster's, its commands, fragments and last reading stay, and no counter of it falls below
/// that of the state or of the roster.
#[tactic(auto, using(crate::proofs::States::known_stay))]
pub fn known_meters_stay()
    ensures { KnownStay }
{}

/// A state under a roster is a state.
pub fn merged_states_are_states()
    ensures { MergedAreStates }
{}

/// A state whose counters are raised is a state.
pub fn raised_states_are_states()
    ensures { RaisedAreStates }
{}

/// Where sessions were lost that sent a meter at most so many downlinks, and the restored state was raised by as many, no counter is used
/// twice.
pub fn restored_counters_rise()
    ensures { RestoredCountersRise }
{}
