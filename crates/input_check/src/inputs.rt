//! A check of a state, which may be a roster, and of receivers, one after another.
ghost use Rattle.std.specs.Prelude.{◌≡◌, ◌++◌, ◌+◌, ◌≤◌, ◌&&◌, ◌||◌, not, nat_lt, [], length, IsTrue, IfOk, IfErr, OnOk, OnErr};
ghost use Rattle.outer_io.specs.Bytes.{AppendsFront};
ghost use Rattle.lists.specs.Each.{Each};
ghost use Rattle.outer_io.specs.Shown.{ReadFailed, WriteFailed, LosesNothing, source_change, sink_change};
ghost use Rattle.state_file.specs.Whole.{state_of};
ghost use Rattle.input_check.specs.Receivers.{IsFresh, reader_changes, bytes_of_each, any_faulty, heard_by_all, receivers_text};
ghost use Rattle.input_check.specs.States.{is_faulty_text, meters_in, IsTooLong, IsReadWithin};
ghost use Rattle.input_check.specs.Stops.{StopsBy, FileStops, ReceiversStop, IsHeardOut};
ghost use Rattle.input_check.specs.Run.{run_of, IsRun, IsChecked, IsCausedBy, IsPrinted, IsPrintedInPart, said_of_state, AddsNotes, AddsNotesInPart};

use crate::faulty::FaultyLines;
use crate::hints::print_notes;
use crate::noticing::{hearing_notes, key_notes};
use crate::receivers::check_receiver;
use crate::states::{CheckedState, Stop, check_state};
use line_reader::Lines;
use meter_address::{Address, Commission};
use outer_io::{Memory, Sink, Source};
use std::alloc::Global;

// Adds addresses to those that were heard.
fn add_heard(heard: &mut Vec<Address>, more: &mut Vec<Address>) -> Result<(), Memory>
    ensures { OnOk result (heard.new.items ≡ heard.old.items ++ more.old.items) }
{
    match heard.append(more) {
        Ok(()) => Ok(()),
        Err(_) => Err(Memory),
    }
}

// Whether a line of a receiver is faulty, or one of those behind it.
fn has_faulty(found: &FaultyLines, behind: bool) -> bool
    ensures { result ≡ (nat_lt 0 found.now.count || behind) }
{
    found.count > 0 || behind
}

// Checks receivers, before which stand so many others: prints the faulty lines of each, adds the addresses that they heard, and answers
// whether a line of theirs is faulty.
fn check_receivers<S: Source, K: Sink>(
    alloc: Global,
    before: usize,
    receivers: &mut [Lines<S>],
    heard: &mut Vec<Address>,
    out: &mut K,
) -> Result<bool, Stop>
    requires numbers { before + length receivers.old ≤ 18446744073709551615 }
    requires fresh { Each IsFresh receivers.old }
    requires untaken { IsTrue S.tells → Each (λ r. S.taken r.source ≡ []) receivers.old }
    ensures faulty { IfOk result (λ faulty. IsTrue S.tells → faulty ≡ any_faulty (bytes_of_each S.Source receivers.old)) }
    ensures heard { OnOk result (IsTrue S.tells →
        heard.new.items ≡ heard.old.items ++ heard_by_all (bytes_of_each S.Source receivers.old)) }
    ensures printed { OnOk result (IsTrue S.tells → IsTrue K.tells →
        K.written out.new ≡ K.written out.old ++ receivers_text before (bytes_of_each S.Source receivers.old)) }
    ensures read { OnOk result (IsTrue S.tells → Each IsHeardOut (reader_changes S.Source receivers.old receivers.new)) }

    // Why it stops, and what it leaves.
    ensures stops { IfErr result (ReceiversStop S.tells K.tells before (reader_changes S.Source receivers.old receivers.new)
        (bytes_of_each S.Source receivers.old) (sink_change K.Sink out.old out.new)) }
    ensures front { OnErr result (IsTrue S.tells → IsTrue K.tells →
        AppendsFront (receivers_text before (bytes_of_each S.Source receivers.old)) (K.written out.old) (K.written out.new)) }
    ensures later { K.faults out.old ≤ K.faults out.new }
    ensures no_loss { IsTrue S.tells → Each LosesNothing (reader_changes S.Source receivers.old receivers.new) }
{
    let Some((lines, later)) = receivers.split_first_mut() else {
        return Ok(false);
    };
    let mut found = match check_receiver(alloc, before as u64 + 1, lines, out) {
        Ok(found) => found,
        Err(stop) => return Err(stop),
    };
    let Ok(()) = add_heard(heard, &mut found.heard) else {
        return Err(Stop::Memory);
    };
    match check_receivers(alloc, before + 1, later, heard, out) {
        Ok(behind) => Ok(has_faulty(&found, behind)),
        Err(stop) => Err(stop),
    }
}

// Checks the state, and prints notes on its keys.
#[tactic(auto, using(outer_io::proofs::Fronts::first, outer_io::proofs::Fronts::first_whole, outer_io::proofs::Fronts::behind))]
fn check_keys<S: Source, K: Sink>(
    alloc: Global,
    state: &mut S,
    out: &mut K,
) -> Result<CheckedState, Stop>
    ensures faulty { IfOk result (λ checked. IsTrue S.tells → checked.faulty ≡ is_faulty_text (S.left state.old)) }
    ensures meters { IfOk result (λ checked. IsTrue S.tells → checked.meters.items ≡ meters_in (state_of (S.left state.old))) }
    ensures printed { OnOk result (IsTrue S.tells → IsTrue K.tells →
        K.written out.new ≡ K.written out.old ++ said_of_state (S.left state.old)) }
    ensures read { OnOk result (IsTrue S.tells → IsReadWithin (source_change S.Source state.old state.new)) }

    // Why it stops, and what it leaves.
    ensures stops { IfErr result (FileStops (IsTrue S.tells → IsTooLong (S.left state.old))
        (IsTrue S.tells → IsReadWithin (source_change S.Source state.old state.new))
        (source_change S.Source state.old state.new) (sink_change K.Sink out.old out.new)) }
    ensures front { OnErr result (IsTrue S.tells → IsTrue K.tells →
        AppendsFront (said_of_state (S.left state.old)) (K.written out.old) (K.written out.new)) }
    ensures later { K.faults out.old ≤ K.faults out.new }
    ensures no_loss { IsTrue S.tells → LosesNothing (source_change S.Source state.old state.new) }
{
    let checked = match check_state(alloc, state, out) {
        Ok(checked) => checked,
        Err(stop) => return Err(stop),
    };
    let Ok(notes) = key_notes(alloc, &checked.meters) else {
        return Err(Stop::Memory);
    };
    match print_notes(&notes, out) {
        Ok(()) => Ok(checked),
        Err(_) => Err(Stop::Write),
    }
}

// Prints the notes on what was heard, where it is compared with these meters.
fn print_hearing<K: Sink>(
    alloc: Global,
    compares: bool,
    meters: &[Commission],
    heard: &[Address],
    out: &mut K,
) -> Result<(), Stop>
    ensures printed { OnOk result (IsTrue K.tells → AddsNotes compares heard.now meters.now (K.written out.old) (K.written out.new)) }
    ensures stops { IfErr result (StopsBy ⊥ ⊥ (WriteFailed (sink_change K.Sink out.old out.new))) }
    ensures front { OnErr result (IsTrue K.tells →
        AddsNotesInPart compares heard.now meters.now (K.written out.old) (K.written out.new)) }
{
    if !compares {
        return Ok(());
    }
    let Ok(notes) = hearing_notes(alloc, meters, heard) else {
        return Err(Stop::Memory);
    };
    match print_notes(&notes, out) {
        Ok(()) => Ok(()),
        Err(_) => Err(Stop::Write),
    }
}

// Whether what was heard is compared with the meters of a state.
fn compares(checked: &CheckedState, receivers: usize) -> bool
    ensures { result ≡ (not checked.now.faulty && nat_lt 0 receivers) }
{
    !checked.faulty && receivers > 0
}

// Checks a state and receivers, prints what is wrong with them, and answers whether one of them is faulty.
fn check_all<S: Source, K: Sink>(
    alloc: Global,
    state: &mut S,
    receivers: &mut [Lines<S>],
    out: &mut K,
) -> Result<bool, Stop>
    requires fresh { Each IsFresh receivers.old }
    requires untaken { IsTrue S.tells → Each (λ r. S.taken r.source ≡ []) receivers.old }
    ensures checked { IfOk result (λ faulty. IsTrue S.tells →
        IsChecked (run_of S.Source K.Sink state.old state.new receivers.old receivers.new out.old out.new result) faulty) }
    ensures printed { OnOk result (IsTrue S.tells → IsTrue K.tells →
        IsPrinted (S.left state.old) (bytes_of_each S.Source receivers.old) (K.written out.old) (K.written out.new)) }

    // Why it stops, and what it leaves.
    ensures caused { IfErr result
        (IsCausedBy (run_of S.Source K.Sink state.old state.new receivers.old receivers.new out.old out.new result)) }
    ensures front { OnErr result (IsTrue S.tells → IsTrue K.tells →
        IsPrintedInPart (S.left state.old) (bytes_of_each S.Source receivers.old) (K.written out.old) (K.written out.new)) }
    ensures no_loss_of_state { IsTrue S.tells → LosesNothing (source_change S.Source state.old state.new) }
    ensures no_loss { IsTrue S.tells → Each LosesNothing (reader_changes S.Source receivers.old receivers.new) }
{
    let checked = match check_keys(alloc, state, out) {
        Ok(checked) => checked,
        Err(stop) => return Err(stop),
    };
    let compared = compares(&checked, receivers.len());
    let mut heard = Vec::new(alloc);
    let faulty = match check_receivers(alloc, 0, receivers, &mut heard, out) {
        Ok(faulty) => faulty,
        Err(stop) => return Err(stop),
    };
    match print_hearing(alloc, compared, &checked.meters, &heard, out) {
        Ok(()) => Ok(checked.faulty || faulty),
        Err(stop) => Err(stop),
    }
}

/// Prints what is wrong with a state, which may be a roster, and with the lines of receivers, which are numbered from 1 in their order, with
/// notes on keys and on what was heard; and answers whether one of them is faulty. Nothing was taken of any of the sources yet.
///
/// `Read` comes only where a read failed, `Write` only where a write did, `Cut` only where a file is past its limit; and the files before the
/// one that stops it are looked at and told of.
pub fn check_inputs<S: Source, K: Sink>(
    alloc: Global,
    state: &mut S,
    receivers: &mut [Lines<S>],
    out: &mut K,
) -> Result<bool, Stop>
    requires fresh { Each IsFresh receivers.old }
    requires untaken { IsTrue S.tells → Each (λ r. S.taken r.source ≡ []) receivers.old }

    // Each file is looked at, and why not all are.
    ensures run { IsRun (run_of S.Source K.Sink state.old state.new receivers.old receivers.new out.old out.new result) }
{
    check_all(alloc, state, receivers, out)
}
