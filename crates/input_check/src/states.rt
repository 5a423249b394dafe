//! The faulty lines of a state, or of a roster.
ghost use Rattle.std.specs.Prelude.{◌≡◌, ◌++◌, ◌≤◌, ◌||◌, nat_lt, length, map, IsTrue, IfOk, IfErr, OnErr};
ghost use Rattle.outer_io.specs.Bytes.{AppendsFront};
ghost use Rattle.outer_io.specs.Shown.{ReadFailed, IsReadOut, LosesNothing, source_change, sink_change};
ghost use Rattle.meter_slots.specs.Journal.{commission_of};
ghost use Rattle.state_file.specs.Whole.{state_of};
ghost use Rattle.input_check.specs.StateFaults.{most_bytes};
ghost use Rattle.input_check.specs.Bytes.{has_mark};
ghost use Rattle.input_check.specs.States.{is_faulty_text, meters_in, most_in, IsTooLong, IsReadWithin, FaultyAreRefused, RostersHaveTheirMeters};
ghost use Rattle.input_check.specs.Stops.{StopsBy, FileStops};
ghost use Rattle.input_check.specs.Findings.{file_word, state_text};

use crate::bytes::{has_mark, unmarked};
use crate::findings::StateFindings;
use crate::state_faults::{is_state, state_faults};
use meter_address::Commission;
use meter_slots::MeterStart;
use outer_io::{Memory, ReadError, Sink, Source, read_all};
use paper::write;
use roster_file::MOST_BYTES;
use state_file::{STATE_MOST, StateFault, read_state};
use std::alloc::Global;

/// Why nothing more is checked.
#[derive(Clone, Copy)]
pub enum Stop {
    /// The file can't be read.
    Read,
    /// The file has a byte behind its most lines or its most bytes.
    Cut,
    /// A finding can't be written.
    Write,
    /// There is no memory.
    Memory,
}

/// What a state comes to, which may be a roster.
#[derive(Drop)]
pub struct CheckedState {
    /// Whether it has a byte order mark in front, or a faulty line.
    pub faulty: bool,
    /// Its meters, where none is.
    pub meters: Vec<Commission>,
}

// What is commissioned of these meters.
fn commissions(alloc: Global, starts: &[MeterStart]) -> Result<Vec<Commission>, Memory>
    ensures { IfOk result (λ meters. meters.items ≡ map commission_of starts.now) }
{
    let mut meters = Vec::new(alloc);
    for place in 0..starts.len() {
        meters.push(starts[place].known().commission())?;
    }
    Ok(meters)
}

// The meters of a state, or none where it is refused.
fn meters_in(alloc: Global, bytes: &[u8]) -> Result<Vec<Commission>, Memory>
    ensures { IfOk result (λ meters. meters.items ≡ meters_in (state_of bytes.now)) }
{
    match read_state(alloc, bytes) {
        Ok(state) => commissions(alloc, state.starts()),
        Err(StateFault::Memory) => Err(Memory),
        Err(StateFault::Roster(..)) => Ok(Vec::new(alloc)),
        Err(StateFault::Line(..)) => Ok(Vec::new(alloc)),
    }
}

// The most bytes of a text: of a state, or of a roster.
fn most_bytes(bytes: &[u8]) -> usize
    requires { length bytes.now ≤ 134217728 }
    ensures { result ≡ most_bytes bytes.now }
{
    if is_state(bytes) {
        STATE_MOST
    } else {
        MOST_BYTES
    }
}

// All bytes of a state or a roster, where they aren't too many.
#[tactic(auto, using(crate::proofs::Limits::past_most))]
fn read_within<S: Source>(alloc: Global, state: &mut S) -> Result<Vec<u8>, Stop>
    ensures bytes { IfOk result (λ bytes. IsTrue S.tells → bytes.items ≡ S.left state.old) }
    ensures few { IfOk result (λ bytes. length bytes.items ≤ 134217728) }
    ensures within { IfOk result (λ bytes. length bytes.items ≤ most_in bytes.items) }
    ensures read { IfOk result (λ _. IsTrue S.tells → IsReadOut (source_change S.Source state.old state.new)) }

    // Why they aren't read.
    ensures stops { IfErr result (StopsBy (ReadFailed (source_change S.Source state.old state.new))
        (IsTrue S.tells → IsTooLong (S.left state.old)) ⊥) }
    ensures no_loss { IsTrue S.tells → LosesNothing (source_change S.Source state.old state.new) }
{
    let bytes = match read_all(alloc, state, STATE_MOST) {
        Ok(bytes) => bytes,
        Err(ReadError::Failed) => return Err(Stop::Read),
        Err(ReadError::TooMany) => return Err(Stop::Cut),
        Err(ReadError::Memory) => return Err(Stop::Memory),
    };
    if bytes.len() > most_bytes(unmarked(&bytes)) {
        return Err(Stop::Cut);
    }
    Ok(bytes)
}

// What a text is to be.
fn file_word(bytes: &[u8]) -> &'static str
    requires { length bytes.now ≤ 134217728 }
    ensures { result.now ≡ file_word bytes.now }
{
    if is_state(bytes) { "state" } else { "roster" }
}

// Whether a file with these bytes, and so many faulty lines behind a mark, is faulty.
fn is_faulty(bytes: &[u8], lines: usize) -> bool
    ensures { result ≡ (has_mark bytes.now || nat_lt 0 lines) }
{
    has_mark(bytes) || lines > 0
}

/// Prints every faulty line of a state, which may be a roster, then a byte order mark in front of it, behind which its lines are judged, and
/// where a line is faulty what in its bytes may be behind that; and answers whether it is faulty, and its meters where it isn't.
///
/// `Read` comes only where a read failed, `Cut` only where the file has more bytes than a state, or a roster, may have, and both leave
/// nothing printed; `Write` comes only where a write failed, and leaves a front of the text.
#[tactic(auto, using(crate::proofs::Stopping::unprinted, outer_io::proofs::Fronts::none, crate::proofs::Limits::read_within))]
pub fn check_state<S: Source, K: Sink>(
    alloc: Global,
    state: &mut S,
    out: &mut K,
) -> Result<CheckedState, Stop>
    ensures faulty { IfOk result (λ checked. IsTrue S.tells → checked.faulty ≡ is_faulty_text (S.left state.old)) }
    ensures meters { IfOk result (λ checked. IsTrue S.tells → checked.meters.items ≡ meters_in (state_of (S.left state.old))) }
    ensures printed { IfOk result (λ _. IsTrue S.tells → IsTrue K.tells →
        K.written out.new ≡ K.written out.old ++ state_text (S.left state.old)) }
    ensures read { IfOk result (λ _. IsTrue S.tells → IsReadWithin (source_change S.Source state.old state.new)) }

    // Why it stops, and what it leaves.
    ensures stops { IfErr result (FileStops (IsTrue S.tells → IsTooLong (S.left state.old))
        (IsTrue S.tells → IsReadWithin (source_change S.Source state.old state.new))
        (source_change S.Source state.old state.new) (sink_change K.Sink out.old out.new)) }
    ensures front { OnErr result (IsTrue S.tells → IsTrue K.tells →
        AppendsFront (state_text (S.left state.old)) (K.written out.old) (K.written out.new)) }
    ensures later { K.faults out.old ≤ K.faults out.new }
    ensures no_loss { IsTrue S.tells → LosesNothing (source_change S.Source state.old state.new) }
{
    let bytes = match read_within(alloc, state) {
        Ok(bytes) => bytes,
        Err(stop) => return Err(stop),
    };
    let text = unmarked(&bytes);
    let Ok(faults) = state_faults(alloc, text) else {
        return Err(Stop::Memory);
    };
    let Ok(meters) = meters_in(alloc, &bytes) else {
        return Err(Stop::Memory);
    };
    let faulty = is_faulty(&bytes, faults.len());
    let findings = StateFindings {
        faults: &faults,
        word: file_word(text),
        bytes: &bytes,
    };
    match write(out, &findings) {
        Ok(()) => Ok(CheckedState { faulty, meters }),
        Err(_) => Err(Stop::Write),
    }
}

/// A file is faulty exactly where it is refused: with a byte order mark in front it is, whatever stands behind that.
#[tactic(auto, using(crate::proofs::MarkedTexts::faulty_are_refused))]
pub fn faulty_texts_are_refused()
    ensures { FaultyAreRefused }
{}

/// The meters of a roster are its own.
#[tactic(auto, using(crate::proofs::RosterMeters::their_meters))]
pub fn rosters_have_their_meters()
    ensures { RostersHaveTheirMeters }
{}
