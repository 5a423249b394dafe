//! A changed state from the texts of a state and a roster, and its text.
ghost use Rattle.std.specs.Prelude.{◌≡◌, ◌≤◌, ◌++◌, ◌⊎◌, Ok, IsTrue, IfOk, IfErr};
ghost use Rattle.outer_io.specs.Bytes.{AppendsFront};
ghost use Rattle.outer_io.specs.Shown.{IsReadOut, LosesNothing, WriteFailed, source_change, sink_change};
ghost use Rattle.state_file.specs.Whole.{state_of};
ghost use Rattle.state_file.specs.Written.{IsState, state_text};
ghost use Rattle.roster_file.specs.Enrolled.{IsEnrolled};
ghost use Rattle.roster_file.specs.Roster.{roster_of};
ghost use Rattle.state_changes.specs.Loading.{IsMergedOf, IsRaisedOf, IsNoState, IsUnmerged, IsUnraised, IsNoRoster};

use crate::merging::Merged;
use crate::raising::{Raised, first_spent};
use crate::status::ChangeStatus;
use outer_io::{Sink, Source};
use paper::{Printed, write};
use roster_file::{Roster, load_roster};
use state_file::{State, load_state};
use std::alloc::Global;

fn load_known<S: Source>(alloc: Global, source: &mut S) -> Result<State, ChangeStatus>
    ensures found { IfOk result (λ state. IsTrue S.tells → state_of (S.left source.old) ≡ Ok state) }
    ensures state { IfOk result IsState }
    ensures read { IfOk result (λ _. IsTrue S.tells → IsReadOut (source_change S.Source source.old source.new)) }
    ensures refused { IfErr result (λ status. IsNoState S.tells (source_change S.Source source.old source.new) status) }
    ensures no_loss { IsTrue S.tells → LosesNothing (source_change S.Source source.old source.new) }
{
    match load_state(alloc, source) {
        Ok(state) => Ok(state),
        Err(fault) => Err(ChangeStatus::of_state(fault)),
    }
}

fn load_enrolled<S: Source>(alloc: Global, source: &mut S) -> Result<Roster, ChangeStatus>
    ensures found { IfOk result (λ roster. IsTrue S.tells → roster_of (S.left source.old) ≡ Ok roster) }
    ensures enrolled { IfOk result IsEnrolled }
    ensures read { IfOk result (λ _. IsTrue S.tells → IsReadOut (source_change S.Source source.old source.new)) }
    ensures refused { IfErr result (λ status. IsNoRoster S.tells (source_change S.Source source.old source.new) status) }
    ensures no_loss { IsTrue S.tells → LosesNothing (source_change S.Source source.old source.new) }
{
    match load_roster(alloc, source) {
        Ok(roster) => Ok(roster),
        Err(fault) => Err(ChangeStatus::of_roster(fault)),
    }
}

/// The state of one source under the roster of another: the collector's own address and just the meters of the roster, in its order, with
/// its modes and keys; of each that the state knows all else stays, and no counter falls. Each status has its cause, and a fault of the state
/// comes before one of the roster.
pub fn load_merged<S: Source>(
    alloc: Global,
    state: &mut S,
    roster: &mut S,
) -> Result<Merged, ChangeStatus>
    ensures merged { IfOk result (λ next. IsTrue S.tells → IsMergedOf (S.left state.old) (S.left roster.old) next) }
    ensures state { IfOk result IsState }
    ensures read_back { IfOk result (λ next. state_of (state_text next) ≡ Ok next) }
    ensures read { IfOk result (λ _. IsTrue S.tells → IsReadOut (source_change S.Source state.old state.new)
        × IsReadOut (source_change S.Source roster.old roster.new)) }
    ensures refused { IfErr result (λ status. IsUnmerged S.tells (source_change S.Source state.old state.new)
        (source_change S.Source roster.old roster.new) status) }
    ensures state_kept { IsTrue S.tells → LosesNothing (source_change S.Source state.old state.new) }
    ensures roster_kept { IsTrue S.tells → LosesNothing (source_change S.Source roster.old roster.new) }
{
    let known = load_known(alloc, state)?;
    let enrolled = load_enrolled(alloc, roster)?;
    match Merged::new(alloc, known, enrolled) {
        Ok(next) => Ok(next),
        Err(_) => Err(ChangeStatus::Memory),
    }
}

/// The state of a source with so many counters of downlinks of each meter passed over; all else is as it was. Each status has its cause:
/// where a counter would pass 2^32 - 1 the first such meter is named.
pub fn load_raised<S: Source>(alloc: Global, state: &mut S, by: u32) -> Result<Raised, ChangeStatus>
    ensures raised { IfOk result (λ next. IsTrue S.tells → IsRaisedOf by (S.left state.old) next) }
    ensures state { IfOk result IsState }
    ensures read_back { IfOk result (λ next. state_of (state_text next) ≡ Ok next) }
    ensures read { IfOk result (λ _. IsTrue S.tells → IsReadOut (source_change S.Source state.old state.new)) }
    ensures refused { IfErr result (λ status. IsUnraised by S.tells (source_change S.Source state.old state.new) status) }
    ensures no_loss { IsTrue S.tells → LosesNothing (source_change S.Source state.old state.new) }
{
    let known = load_known(alloc, state)?;
    if let Some(address) = first_spent(known.starts(), by) {
        return Err(ChangeStatus::Spent(address));
    }
    Ok(Raised::new(known, by))
}

/// Writes the text of a changed state, in large pieces and without memory. After `Write` a front of it was written.
pub fn write_next<K: Sink, T: Printed>(next: &T, sink: &mut K) -> ChangeStatus
    ensures only { (result ≡ ChangeStatus.Done) ⊎ (result ≡ ChangeStatus.Write) }
    ensures done { result ≡ ChangeStatus.Done → IsTrue K.tells → K.written sink.new ≡ K.written sink.old ++ T.text next.now }
    ensures front { result ≡ ChangeStatus.Write → IsTrue K.tells →
        AppendsFront (T.text next.now) (K.written sink.old) (K.written sink.new) }
    ensures cause { result ≡ ChangeStatus.Write → WriteFailed (sink_change K.Sink sink.old sink.new) }
{
    match write(sink, next) {
        Ok(()) => ChangeStatus::Done,
        Err(_) => ChangeStatus::Write,
    }
}
