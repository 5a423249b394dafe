//! Laws of what is told: a function's contract is a law.
ghost use Rattle.steps_main.specs.Laws.{OwnLinesAlone};
ghost use Rattle.steps_main.specs.Told.{SaidIsTold};

/// What is told of a meter, that is what it answers to each event and what is known of it at the end, follows from the events of its own
/// lines alone, whatever the receiver heard besides and wherever these lines stand.
pub fn own_lines_alone()
    ensures { OwnLinesAlone }
{}

/// What a line says is what it tells a collector, with its cause where it says nothing.
#[tactic(auto, using(crate::proofs::Told::said_is_told))]
pub fn said_is_told()
    ensures { SaidIsTold }
{}
