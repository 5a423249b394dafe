//! What holds of the definitions. These functions do nothing: each one's contract is a law.
ghost use Rattle.frame_inspect_main.specs.Laws.{ItemsSayTheirLines, FramesAreShown};
ghost use Rattle.frame_inspect_main.specs.Runs.{RunsAreEven, RunsAreWhole};

/// An item says what its line says.
#[tactic(auto, using(crate::proofs::ItemsSay::items_say_their_lines))]
pub fn items_say_their_lines()
    ensures { ItemsSayTheirLines }
{}

/// A line with a frame of a telegram which has some layers is shown by the telegram's length, its link and these layers.
#[tactic(auto, using(crate::proofs::FramesShown::frames_are_shown))]
pub fn frames_are_shown()
    ensures { FramesAreShown }
{}

/// The lengths of the runs differ by at most one, and the longer ones come first.
#[tactic(auto, using(crate::proofs::EvenRuns::runs_are_even))]
pub fn runs_are_even()
    ensures { RunsAreEven }
{}

/// The last run ends with the last item.
#[tactic(auto, using(crate::proofs::EvenRuns::runs_are_whole))]
pub fn runs_are_whole()
    ensures { RunsAreWhole }
{}
