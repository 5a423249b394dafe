//! Reading a state.
ghost use Rattle.std.specs.Prelude.{◌≡◌, Ok, IfOk, IfErr, codes};
ghost use Rattle.plain_text.specs.Parts.{is_word};
ghost use Rattle.roster_file.specs.Roster.{roster_of};
ghost use Rattle.state_file.specs.Whole.{all_of, ended, no_meters, of_roster, owned, starts_of, state_of};
ghost use Rattle.state_file.specs.Reading.{IsFaultOf};

use crate::fault::{FileCause, StateFault};
use crate::meters::Meters;
use crate::state::State;
use meter_slots::MeterStart;
use roster_file::{Entries, LineCause, RosterFault, read_own_line, read_roster};
use std::alloc::Global;

/// The most bytes of a state.
pub const STATE_MOST: usize = 134_217_728;

// Nothing stands behind the end.
fn read_end(meters: Meters, entries: &mut Entries<'_>) -> Result<Vec<MeterStart>, StateFault>
    ensures found { IfOk result (λ starts. ended (all_of meters) entries.old.entries ≡ Ok starts.items) }
    ensures fault { IfErr result (λ fault. IsFaultOf (ended (all_of meters) entries.old.entries) fault) }
{
    match entries.next() {
        Ok(entry) => Err(StateFault::Line(entry.line, FileCause::Behind)),
        Err(_) => meters.finish(),
    }
}

/// Whether a line is the last one of a state, `end`.
pub fn is_end(text: &[u8]) -> bool
    ensures { result ≡ is_word text.now (codes "end") }
{
    text == b"end".as_slice()
}

/// Whether a line is the head of a state.
pub fn is_head(text: &[u8]) -> bool
    ensures { result ≡ is_word text.now (codes "wmbus-state 1") }
{
    text == b"wmbus-state 1".as_slice()
}

// The meters of the lines that are left.
fn read_starts(alloc: Global, entries: &mut Entries<'_>) -> Result<Vec<MeterStart>, StateFault>
    ensures found { IfOk result (λ starts. starts_of no_meters entries.old.entries entries.old.end ≡ Ok starts.items) }
    ensures fault { IfErr result (λ fault. IsFaultOf (starts_of no_meters entries.old.entries entries.old.end) fault) }
{
    let mut meters = Meters::new(alloc);
    'lines: loop {
        let entry = match entries.next() {
            Ok(entry) => entry,
            Err(end) => {
                return Err(StateFault::Line(end, FileCause::Roster(LineCause::Missing)));
            }
        };
        if is_end(entry.text) {
            return read_end(meters, entries);
        }
        match meters.read(alloc, entry.line, entry.text) {
            Ok(()) => {}
            Err(fault) => return Err(fault),
        }
    }
}

// The line after the head is the own line.
#[tactic(auto, unfolding(crate::specs::Whole::owned), using(crate::proofs::ReadStates::starts_have_room))]
fn read_owned(alloc: Global, entries: &mut Entries<'_>) -> Result<State, StateFault>
    ensures found { IfOk result (λ state. owned entries.old.entries entries.old.end ≡ Ok state) }
    ensures fault { IfErr result (λ fault. IsFaultOf (owned entries.old.entries entries.old.end) fault) }
{
    let entry = match entries.next() {
        Ok(entry) => entry,
        Err(end) => return Err(StateFault::Line(end, FileCause::Roster(LineCause::Missing))),
    };
    let own = match read_own_line(entry.text) {
        Ok(own) => own,
        Err(cause) => return Err(StateFault::Line(entry.line, FileCause::Roster(cause))),
    };
    match read_starts(alloc, entries) {
        Ok(starts) => Ok(State::new(own, starts)),
        Err(fault) => Err(fault),
    }
}

// A roster is a state.
#[tactic(auto, using(roster_file::proofs::Enrolling::read_is_enrolled))]
fn read_as_roster(alloc: Global, bytes: &[u8]) -> Result<State, StateFault>
    ensures found { IfOk result (λ state. of_roster (roster_of bytes.now) ≡ Ok state) }
    ensures fault { IfErr result (λ fault. IsFaultOf (of_roster (roster_of bytes.now)) fault) }
{
    let roster = match read_roster(alloc, bytes) {
        Ok(roster) => roster,
        Err(RosterFault::Line(line, cause)) => return Err(StateFault::Roster(line, cause)),
        Err(RosterFault::Memory) => return Err(StateFault::Memory),
    };
    match State::of_roster(alloc, &roster) {
        Ok(state) => Ok(state),
        Err(_) => Err(StateFault::Memory),
    }
}

/// Reads a state, or a roster, whose meters are just commissioned.
#[tactic(auto, unfolding(crate::specs::Whole::state_of, crate::specs::Whole::headed))]
pub fn read_state(alloc: Global, bytes: &[u8]) -> Result<State, StateFault>
    ensures found { IfOk result (λ state. state_of bytes.now ≡ Ok state) }

    // A fault other than want of memory is the text's first one.
    ensures fault { IfErr result (λ fault. IsFaultOf (state_of bytes.now) fault) }
{
    if bytes.len() > STATE_MOST {
        return Err(StateFault::Roster(0, LineCause::TooLong));
    }
    let mut entries = Entries::of_text(bytes);
    match entries.next() {
        Ok(entry) => {
            if is_head(entry.text) {
                return read_owned(alloc, &mut entries);
            }
            read_as_roster(alloc, bytes)
        }
        Err(_) => read_as_roster(alloc, bytes),
    }
}
