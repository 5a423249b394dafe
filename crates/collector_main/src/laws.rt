//! Laws of runs: each function's contract is one.
ghost use Rattle.collector_main.specs.Chains.{ContinuedRunsAreOne};
ghost use Rattle.collector_main.specs.MacLaw.{MacsDecideInRuns};
ghost use Rattle.std.specs.Prelude.{◌≡◌, List, [], ◌∷◌};
ghost use Rattle.meter_address.specs.declared.address.Address.{Address};
ghost use Rattle.meter_slots.specs.Journal.{Start};
ghost use Rattle.meter_slots.specs.World.{WorldView, world_of};
ghost use Rattle.receivers.specs.declared.told.Told.{Told};
ghost use Rattle.receivers.specs.Alone.{steps_of};
ghost use Rattle.receivers.specs.Session.{IsSession};

/// The lines of one receiver fix the session: the slots and the strangers' list are those of its lines, stepped one after the other. So
/// the report of `hear` is a function of the roster and of the lines.
#[tactic(auto, using(crate::proofs::OneReceiver::session_fixed))]
pub fn one_receivers_lines_fix_the_session()
    ensures { (own : Address) (commissions : List Start) (heard : List Told) (world : WorldView)
        → IsSession own commissions (heard ∷ []) world → world ≡ world_of own commissions (steps_of 1 heard) }
{}

/// A run of `continue` and one that begins from what it left are one session of all lines, wherever each receiver's lines were cut.
pub fn continued_runs_are_one()
    ensures { ContinuedRunsAreOne }
{}

/// In each run that was heard a meter of mode 7 stores a message with a counter exactly where the message is genuine by its MAC with that
/// counter, under the meter's keys as they are then, and the counter exceeds the one stored last, or the one that the roster or the state
/// tells where none was.
pub fn macs_decide_in_runs()
    ensures { MacsDecideInRuns }
{}
