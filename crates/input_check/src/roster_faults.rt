//! Every faulty line of a roster.
ghost use Rattle.std.specs.Prelude.{◌≡◌, ◌∷◌, ◌++◌, [], IfOk, MatchResult};
ghost use Rattle.roster_file.specs.Roster.{enlisted_from};
ghost use Rattle.input_check.specs.RosterFaults.{before, faults_in, faults_owned, faults_headed, faults_of, FirstFaultRefuses};

use outer_io::Memory;
use roster_file::{
    Entries, LineCause, MOST_BYTES, RosterFault, Version, next_meter, read_own_line, version_of,
};
use std::alloc::Global;

// Puts the faulty ones of the meters' lines that are left behind the faults.
fn add_meter_faults(
    alloc: Global,
    version: Version,
    entries: &mut Entries<'_>,
    faults: &mut Vec<RosterFault>,
) -> Result<(), Memory>
    ensures { IfOk result (λ _. faults.new.items ≡ faults.old.items ++ faults_in version [] entries.old.entries) }
{
    let mut meters = Vec::new(alloc);
    'lines: while let Ok(entry) = entries.next() {
        match next_meter(version, &entry, meters.as_slice()) {
            Ok(meter) => meters.push(meter)?,
            Err(fault) => faults.push(fault)?,
        }
    }
    Ok(())
}

// Puts the faulty ones of the own line and of those behind it behind the faults.
#[tactic(auto, unfolding(crate::specs::RosterFaults::faults_owned))]
fn add_owned_faults(
    alloc: Global,
    version: Version,
    entries: &mut Entries<'_>,
    faults: &mut Vec<RosterFault>,
) -> Result<(), Memory>
    ensures { IfOk result (λ _. faults.new.items
        ≡ faults.old.items ++ faults_owned version entries.old.entries entries.old.end) }
{
    match entries.next() {
        Err(end) => {
            faults.push(RosterFault::Line(end, LineCause::Missing))?;
            Ok(())
        }
        Ok(entry) => {
            if let Err(cause) = read_own_line(entry.text) {
                faults.push(RosterFault::Line(entry.line, cause))?;
            }
            add_meter_faults(alloc, version, entries, faults)
        }
    }
}

/// Every faulty line of a roster, in order, each with what is wrong with it; the first is that for which `read_roster` refuses
/// it. A faulty line is passed over and adds no meter; where the head says no version, the lines are read in version 2.
#[tactic(auto, unfolding(crate::specs::RosterFaults::faults_headed, crate::specs::RosterFaults::faults_of))]
pub fn roster_faults(alloc: Global, bytes: &[u8]) -> Result<Vec<RosterFault>, Memory>
    ensures { IfOk result (λ faults. faults.items ≡ faults_of bytes.now) }
{
    let mut faults = Vec::new(alloc);
    if bytes.len() > MOST_BYTES {
        faults.push(RosterFault::Line(0, LineCause::TooLong))?;
        return Ok(faults);
    }
    let mut entries = Entries::of_text(bytes);
    let entry = match entries.next() {
        Ok(entry) => entry,
        Err(end) => {
            faults.push(RosterFault::Line(end, LineCause::Missing))?;
            return Ok(faults);
        }
    };
    let version = match version_of(entry.text) {
        Some(version) => version,
        None => {
            faults.push(RosterFault::Line(entry.line, LineCause::Head))?;
            Version::Two
        }
    };
    add_owned_faults(alloc, version, &mut entries, &mut faults)?;
    Ok(faults)
}

/// The first faulty line of a roster is the one that reading it is refused for, so that no line is faulty exactly where it is read.
#[tactic(auto, using(crate::proofs::RosterFaults::first_fault_refuses))]
pub fn first_roster_fault_refuses()
    ensures { FirstFaultRefuses }
{}
