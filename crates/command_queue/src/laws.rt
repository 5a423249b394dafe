//! Laws of queues.
ghost use Rattle.std.specs.Prelude.{◌<◌, ◌≤◌, All, AllPairs};
ghost use Rattle.command_queue.specs.Pending.{Pending, IsSound};

/// No two commands that wait have the same id: the older one has the lower id, and none is above the last that was given.
#[tactic(auto, using(crate::proofs::Moves::ids_lower, crate::proofs::Moves::ids_given))]
pub fn older_commands_have_lower_ids()
    ensures lower { (q : Pending) → IsSound q → AllPairs (λ c d. c.id < d.id) q.commands }
    ensures given { (q : Pending) → IsSound q → All (λ c. c.id ≤ q.ids) q.commands }
{}
