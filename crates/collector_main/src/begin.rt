//! What a session begins from, read whole.
ghost use Rattle.std.specs.Prelude.{◌≡◌, Ok, IsTrue, IfOk, IfErr};
ghost use Rattle.outer_io.specs.Shown.{IsReadOut, LosesNothing, source_change};
ghost use Rattle.collector_main.specs.Begin.{IsRefusal, known_of};
ghost use Rattle.collector_main.specs.declared.form.Form.TheVariants.{Roster, State as AState};

use crate::form::Form;
use crate::status::Status;
use outer_io::Source;
use roster_file::{LoadFault, load_roster};
use state_file::{State, StateLoadFault, load_state};
use std::alloc::Global;

fn known_of_roster<S: Source>(alloc: Global, source: &mut S) -> Result<State, Status>
    ensures found { IfOk result (λ state. IsTrue S.tells → known_of Roster (S.left source.old) ≡ Ok state) }
    ensures read { IfOk result (λ _. IsTrue S.tells → IsReadOut (source_change S.Source source.old source.new)) }
    ensures refusal { IfErr result (IsRefusal Roster S.tells (source_change S.Source source.old source.new)) }
    ensures no_loss { IsTrue S.tells → LosesNothing (source_change S.Source source.old source.new) }
{
    let roster = match load_roster(alloc, source) {
        Ok(roster) => roster,
        Err(LoadFault::Read) => return Err(Status::ReadRoster),
        Err(LoadFault::Line(line, cause)) => return Err(Status::Roster(line, cause)),
        Err(LoadFault::Memory) => return Err(Status::Memory),
    };
    match State::of_roster(alloc, &roster) {
        Ok(state) => Ok(state),
        Err(_) => Err(Status::Memory),
    }
}

fn known_of_state<S: Source>(alloc: Global, source: &mut S) -> Result<State, Status>
    ensures found { IfOk result (λ state. IsTrue S.tells → known_of AState (S.left source.old) ≡ Ok state) }
    ensures read { IfOk result (λ _. IsTrue S.tells → IsReadOut (source_change S.Source source.old source.new)) }
    ensures refusal { IfErr result (IsRefusal AState S.tells (source_change S.Source source.old source.new)) }
    ensures no_loss { IsTrue S.tells → LosesNothing (source_change S.Source source.old source.new) }
{
    match load_state(alloc, source) {
        Ok(state) => Ok(state),
        Err(StateLoadFault::Read) => Err(Status::ReadRoster),
        Err(StateLoadFault::Roster(line, cause)) => Err(Status::Roster(line, cause)),
        Err(StateLoadFault::Line(line, cause)) => Err(Status::State(line, cause)),
        Err(StateLoadFault::Memory) => Err(Status::Memory),
    }
}

/// What all bytes of a source tell of the meters, or the status that says why they tell nothing.
pub(crate) fn known<S: Source>(alloc: Global, form: Form, source: &mut S) -> Result<State, Status>
    ensures found { IfOk result (λ state. IsTrue S.tells → known_of form (S.left source.old) ≡ Ok state) }
    ensures read { IfOk result (λ _. IsTrue S.tells → IsReadOut (source_change S.Source source.old source.new)) }
    ensures refusal { IfErr result (IsRefusal form S.tells (source_change S.Source source.old source.new)) }
    ensures no_loss { IsTrue S.tells → LosesNothing (source_change S.Source source.old source.new) }
{
    match form {
        Form::Roster => known_of_roster(alloc, source),
        Form::State => known_of_state(alloc, source),
    }
}
