//! A state that is read from a source.
ghost use Rattle.std.specs.Prelude.{◌≡◌, ◌≤◌, ℕ, Ok, Err, IsTrue, IfOk};
ghost use Rattle.outer_io.specs.Shown.{IsReadOut, LosesNothing, ReadFailed, source_change};
ghost use Rattle.state_file.specs.Written.{IsState};
ghost use Rattle.state_file.specs.Whole.{state_of};
ghost use Rattle.state_file.specs.declared.fault.FileCause.{FileCause};
ghost use Rattle.roster_file.specs.declared.roster.LineCause.{LineCause};
ghost use Rattle.state_file.specs.declared.fault.StateFault.TheVariants.{Roster, Line};

use crate::fault::{FileCause, StateFault};
use crate::reader::{STATE_MOST, read_state};
use crate::state::State;
use outer_io::{ReadError, Source, read_all};
use roster_file::LineCause;
use std::alloc::Global;

/// Why a source gives no state.
#[derive(Clone, Copy)]
pub enum StateLoadFault {
    /// A read failed, and the source's count of faults says so.
    Read,
    /// All its bytes are too many, or haven't the head of a state and are no roster either: the roster's first faulty line, counted from 1,
    /// and what is wrong with it.
    Roster(u32, LineCause),
    /// The first faulty line of the state that all its bytes are to be, counted from 1, and what is wrong with it.
    Line(u32, FileCause),
    /// There is no memory for the state.
    Memory,
}

fn load_fault_of(fault: StateFault) -> StateLoadFault
    ensures roster { (line : ℕ) (cause : LineCause) → result ≡ StateLoadFault.Roster line cause → fault ≡ Roster line cause }
    ensures line { (line : ℕ) (cause : FileCause) → result ≡ StateLoadFault.Line line cause → fault ≡ Line line cause }
    ensures no_read { result ≡ StateLoadFault.Read → ⊥ }
{
    match fault {
        StateFault::Roster(line, cause) => StateLoadFault::Roster(line, cause),
        StateFault::Line(line, cause) => StateLoadFault::Line(line, cause),
        StateFault::Memory => StateLoadFault::Memory,
    }
}

/// The state of all bytes that a source has left: a state, or a roster, whose meters are just commissioned. After `Ok` the
/// source was read to its end.
#[tactic(auto, using(crate::proofs::ReadStates::read_is_state))]
pub fn load_state<S: Source>(alloc: Global, source: &mut S) -> Result<State, StateLoadFault>
    ensures found { IfOk result (λ state. IsTrue S.tells → state_of (S.left source.old) ≡ Ok state) }
    ensures state { IfOk result IsState }
    ensures read { IfOk result (λ _. IsTrue S.tells → IsReadOut (source_change S.Source source.old source.new)) }

    // A faulty line is the first one of all bytes that were left, and a fault of reading is one of the source.
    ensures roster { (line : ℕ) (cause : LineCause) → result ≡ Err (StateLoadFault.Roster line cause) → IsTrue S.tells →
        state_of (S.left source.old) ≡ Err (Roster line cause) }
    ensures line { (line : ℕ) (cause : FileCause) → result ≡ Err (StateLoadFault.Line line cause) → IsTrue S.tells →
        state_of (S.left source.old) ≡ Err (Line line cause) }
    ensures failed { result ≡ Err StateLoadFault.Read → ReadFailed (source_change S.Source source.old source.new) }

    ensures no_loss { IsTrue S.tells → LosesNothing (source_change S.Source source.old source.new) }
    ensures later { S.faults source.old ≤ S.faults source.new }
{
    let bytes = match read_all(alloc, source, STATE_MOST) {
        Ok(bytes) => bytes,
        Err(ReadError::Failed) => return Err(StateLoadFault::Read),
        Err(ReadError::TooMany) => {
            return Err(StateLoadFault::Roster(0, LineCause::TooLong));
        }
        Err(ReadError::Memory) => return Err(StateLoadFault::Memory),
    };
    match read_state(alloc, bytes.as_slice()) {
        Ok(state) => Ok(state),
        Err(fault) => Err(load_fault_of(fault)),
    }
}
