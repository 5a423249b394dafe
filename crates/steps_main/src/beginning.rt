//! What is known of the meters when the session begins, read whole.
ghost use Rattle.std.specs.Prelude.{◌≡◌, Ok, IsTrue, IfOk, IfErr};
ghost use Rattle.outer_io.specs.Shown.{IsReadOut, LosesNothing, source_change};
ghost use Rattle.state_file.specs.Whole.{state_of};
ghost use Rattle.steps_main.specs.Beginning.{IsRefusal};

use crate::status::StepsStatus;
use outer_io::Source;
use state_file::{State, StateLoadFault, load_state};
use std::alloc::Global;

/// The state of all bytes of a source, which may be a roster, or the status that says why they are none.
pub(crate) fn known<S: Source>(alloc: Global, source: &mut S) -> Result<State, StepsStatus>
    ensures found { IfOk result (λ state. IsTrue S.tells → state_of (S.left source.old) ≡ Ok state) }
    ensures read { IfOk result (λ _. IsTrue S.tells → IsReadOut (source_change S.Source source.old source.new)) }
    ensures refusal { IfErr result (IsRefusal S.tells (source_change S.Source source.old source.new)) }
    ensures no_loss { IsTrue S.tells → LosesNothing (source_change S.Source source.old source.new) }
{
    match load_state(alloc, source) {
        Ok(state) => Ok(state),
        Err(StateLoadFault::Read) => Err(StepsStatus::ReadState),
        Err(StateLoadFault::Roster(line, cause)) => Err(StepsStatus::Roster(line, cause)),
        Err(StateLoadFault::Line(line, cause)) => Err(StepsStatus::State(line, cause)),
        Err(StateLoadFault::Memory) => Err(StepsStatus::Memory),
    }
}
