//! Every faulty line of a state.
ghost use Rattle.std.specs.Prelude.{◌≡◌, ◌≤◌, ◌∷◌, ◌++◌, [], length, map, IfOk, OnOk};
ghost use Rattle.input_check.specs.RosterFaults.{faults_of};
ghost use Rattle.state_file.specs.Whole.{by_fault, no_meters};
ghost use Rattle.input_check.specs.StateFaults.{behind_end, faults_in, faults_owned, is_state, state_faults_of, FirstFaultRefuses, OthersAreRosters};

use crate::roster_faults::roster_faults;
use outer_io::Memory;
use roster_file::{Entries, LineCause, RosterFault, read_own_line};
use state_file::{FileCause, Meters, STATE_MOST, StateFault, is_end, is_head};
use std::alloc::Global;

// Puts the lines behind the end behind the faults.
fn add_behind(entries: &mut Entries<'_>, faults: &mut Vec<StateFault>) -> Result<(), Memory>
    ensures { IfOk result (λ _. faults.new.items ≡ faults.old.items ++ map behind_end entries.old.entries) }
{
    'lines: while let Ok(entry) = entries.next() {
        faults.push(StateFault::Line(entry.line, FileCause::Behind))?;
    }
    Ok(())
}

// Puts a fault behind the others, unless it is want of memory.
fn add_fault(faults: &mut Vec<StateFault>, fault: StateFault) -> Result<(), Memory>
    ensures named { OnOk result (fault ≡ StateFault.Memory → ⊥) }
    ensures added { OnOk result (faults.new.items ≡ faults.old.items ++ fault ∷ []) }
{
    match fault {
        StateFault::Memory => Err(Memory),
        StateFault::Roster(..) => {
            faults.push(fault)?;
            Ok(())
        }
        StateFault::Line(..) => {
            faults.push(fault)?;
            Ok(())
        }
    }
}

// Puts the faulty ones of the lines behind the own line behind the faults.
fn add_meter_faults(
    alloc: Global,
    entries: &mut Entries<'_>,
    faults: &mut Vec<StateFault>,
) -> Result<(), Memory>
    ensures { IfOk result (λ _. faults.new.items ≡ faults.old.items ++ faults_in no_meters entries.old.entries entries.old.end) }
{
    let mut meters = Meters::new(alloc);
    'lines: loop {
        let entry = match entries.next() {
            Ok(entry) => entry,
            Err(end) => {
                faults.push(StateFault::Line(end, FileCause::Roster(LineCause::Missing)))?;
                return Ok(());
            }
        };
        if is_end(entry.text) {
            add_behind(entries, faults)?;
            return Ok(());
        }
        match meters.read(alloc, entry.line, entry.text) {
            Ok(()) => {}
            Err(fault) => add_fault(faults, fault)?,
        }
    }
}

// Puts the faulty ones of the own line and of those behind it behind the faults.
#[tactic(auto, unfolding(crate::specs::StateFaults::faults_owned))]
fn add_owned_faults(
    alloc: Global,
    entries: &mut Entries<'_>,
    faults: &mut Vec<StateFault>,
) -> Result<(), Memory>
    ensures { IfOk result (λ _. faults.new.items ≡ faults.old.items ++ faults_owned entries.old.entries entries.old.end) }
{
    match entries.next() {
        Err(end) => {
            faults.push(StateFault::Line(end, FileCause::Roster(LineCause::Missing)))?;
            Ok(())
        }
        Ok(entry) => {
            if let Err(cause) = read_own_line(entry.text) {
                faults.push(StateFault::Line(entry.line, FileCause::Roster(cause)))?;
            }
            add_meter_faults(alloc, entries, faults)
        }
    }
}

// The same fault, of a text that may be a state.
fn fault_of(fault: RosterFault) -> StateFault
    ensures { result ≡ by_fault fault }
{
    match fault {
        RosterFault::Line(line, cause) => StateFault::Roster(line, cause),
        RosterFault::Memory => StateFault::Memory,
    }
}

// The faulty lines of a roster.
fn faults_as_roster(alloc: Global, bytes: &[u8]) -> Result<Vec<StateFault>, Memory>
    ensures { IfOk result (λ faults. faults.items ≡ map by_fault (faults_of bytes.now)) }
{
    let faults = roster_faults(alloc, bytes)?;
    let all = faults.iter().map(|fault| fault_of(*fault)).collect(alloc)?;
    Ok(all)
}

/// Whether the first line that counts is the head of a state. Any other text is a roster, or none of both.
#[tactic(auto, unfolding(crate::specs::StateFaults::is_state))]
pub fn is_state(bytes: &[u8]) -> bool
    requires { length bytes.now ≤ 134217728 }
    ensures { result ≡ is_state bytes.now }
{
    match Entries::of_text(bytes).next() {
        Ok(entry) => is_head(entry.text),
        Err(_) => false,
    }
}

/// Every faulty line of a state, in order, each with what is wrong with it; the first is that for which `read_state` refuses it. A faulty
/// line is passed over and adds nothing; where it is to begin a meter, no meter's line stands above those below it. What hasn't the head of
/// a state has the faulty lines of a roster.
#[tactic(auto, unfolding(crate::specs::StateFaults::faults_headed, crate::specs::StateFaults::state_faults_of))]
pub fn state_faults(alloc: Global, bytes: &[u8]) -> Result<Vec<StateFault>, Memory>
    ensures { IfOk result (λ faults. faults.items ≡ state_faults_of bytes.now) }
{
    let mut faults = Vec::new(alloc);
    if bytes.len() > STATE_MOST {
        faults.push(StateFault::Roster(0, LineCause::TooLong))?;
        return Ok(faults);
    }
    let mut entries = Entries::of_text(bytes);
    match entries.next() {
        Ok(entry) => {
            if is_head(entry.text) {
                add_owned_faults(alloc, &mut entries, &mut faults)?;
                return Ok(faults);
            }
            faults_as_roster(alloc, bytes)
        }
        Err(_) => faults_as_roster(alloc, bytes),
    }
}

/// The first faulty line of a state is the one that reading it is refused for, so that no line is faulty exactly where it is read.
#[tactic(auto, using(crate::proofs::StateFaults::first_fault_refuses))]
pub fn first_state_fault_refuses()
    ensures { FirstFaultRefuses }
{}

/// A text without the head of a state has the faulty lines that it has as a roster.
#[tactic(auto, using(crate::proofs::StateFaults::others_are_rosters))]
pub fn rosters_are_judged_as_rosters()
    ensures { OthersAreRosters }
{}
