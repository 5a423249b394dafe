//! Reading a roster.
ghost use Rattle.std.specs.Prelude.{◌≡◌, ◌==◌, ◌∷◌, ◌++◌, ◌⊎◌, [], Ok, Err, IfOk, IfErr, MatchResult};
ghost use Rattle.std.specs.List.{list_any};
ghost use Rattle.roster_file.specs.Roster.{enlisted, enlisted_from, meters_of, with_own, owned, head_of, headed, roster_of};
ghost use Rattle.roster_file.specs.declared.roster.RosterFault.TheVariants.{Memory};

use crate::entries::{Entries, Entry};
use crate::fields::{Version, read_meter, read_own_line};
use crate::roster::{LineCause, Roster, RosterFault};
use meter_address::{Address, Commission};
use std::alloc::Global;

/// The most bytes of a roster.
pub const MOST_BYTES: usize = 1_048_576;

/// The most meters of a roster.
pub const MOST_METERS: usize = 4_096;

/// The version that a roster's head says, if it is one.
pub fn version_of(head: &[u8]) -> Option<Version>
    ensures { result ≡ head_of head.now }
{
    if head == b"wmbus-roster 1".as_slice() {
        return Some(Version::One);
    }
    if head == b"wmbus-roster 2".as_slice() {
        return Some(Version::Two);
    }
    None
}

// The line after the lines that are passed over is the head.
#[tactic(auto, unfolding(crate::specs::Roster::headed))]
fn read_head(entries: &mut Entries<'_>) -> Result<Version, RosterFault>
    ensures { MatchResult result
        (λ version. headed entries.old.entries entries.old.end ≡ owned version entries.new.entries entries.new.end)
        (λ fault. headed entries.old.entries entries.old.end ≡ Err fault) }
{
    match entries.next() {
        Err(end) => Err(RosterFault::Line(end, LineCause::Missing)),
        Ok(entry) => match version_of(entry.text) {
            Some(version) => Ok(version),
            None => Err(RosterFault::Line(entry.line, LineCause::Head)),
        },
    }
}

// The line after the head is the own line.
#[tactic(auto, unfolding(crate::specs::Roster::owned))]
fn read_own(version: Version, entries: &mut Entries<'_>) -> Result<Address, RosterFault>
    ensures { MatchResult result
        (λ own. owned version entries.old.entries entries.old.end ≡ with_own own (meters_of version [] entries.new.entries))
        (λ fault. owned version entries.old.entries entries.old.end ≡ Err fault) }
{
    match entries.next() {
        Err(end) => Err(RosterFault::Line(end, LineCause::Missing)),
        Ok(entry) => match read_own_line(entry.text) {
            Ok(own) => Ok(own),
            Err(cause) => Err(RosterFault::Line(entry.line, cause)),
        },
    }
}

// Whether one of the meters has the address of this one.
fn has_namesake(meters: &[Commission], meter: &Commission) -> bool
    ensures { result ≡ list_any (λ m. m.address.0 == meter.now.address.0) meters.now }
{
    let address = meter.address;
    meters.iter().any(|other| other.address.0 == address.0)
}

// The meter, where it can stand behind these.
fn enlist(meters: &[Commission], meter: Commission) -> Result<Commission, LineCause>
    ensures { MatchResult result
        (λ last. enlisted meters.now meter ≡ Ok (meters.now ++ last ∷ []))
        (λ cause. enlisted meters.now meter ≡ Err cause) }
{
    if has_namesake(meters, &meter) {
        return Err(LineCause::Same);
    }
    if meters.len() >= MOST_METERS {
        return Err(LineCause::TooMany);
    }
    Ok(meter)
}

/// The meter of a line, where it can stand behind these. A fault says the line and why it can't.
pub fn next_meter(
    version: Version,
    entry: &Entry<'_>,
    meters: &[Commission],
) -> Result<Commission, RosterFault>
    ensures { MatchResult result
        (λ meter. enlisted_from version meters.now (entry.now.line, entry.now.text.now) ≡ Ok (meters.now ++ meter ∷ []))
        (λ fault. enlisted_from version meters.now (entry.now.line, entry.now.text.now) ≡ Err fault) }
{
    let meter = match read_meter(version, entry.text) {
        Ok(meter) => meter,
        Err(cause) => return Err(RosterFault::Line(entry.line, cause)),
    };
    match enlist(meters, meter) {
        Ok(meter) => Ok(meter),
        Err(cause) => Err(RosterFault::Line(entry.line, cause)),
    }
}

// The meters of the lines that are left.
fn read_meters(
    alloc: Global,
    version: Version,
    entries: &mut Entries<'_>,
) -> Result<Vec<Commission>, RosterFault>
    ensures found { IfOk result (λ meters. meters_of version [] entries.old.entries ≡ Ok meters.items) }
    ensures fault { IfErr result (λ fault. (fault ≡ Memory) ⊎ (meters_of version [] entries.old.entries ≡ Err fault)) }
{
    let mut meters = Vec::new(alloc);
    'lines: while let Ok(entry) = entries.next() {
        let meter = match next_meter(version, &entry, meters.as_slice()) {
            Ok(meter) => meter,
            Err(fault) => return Err(fault),
        };
        if meters.push(meter).is_err() {
            return Err(RosterFault::Memory);
        }
    }
    Ok(meters)
}

/// Reads a roster of version 1, which has no second keys, or 2.
#[tactic(auto, unfolding(crate::specs::Roster::roster_of))]
pub fn read_roster(alloc: Global, bytes: &[u8]) -> Result<Roster, RosterFault>
    ensures found { IfOk result (λ roster. roster_of bytes.now ≡ Ok roster) }

    // A fault other than want of memory is the text's first one.
    ensures fault { IfErr result (λ fault. (fault ≡ Memory) ⊎ (roster_of bytes.now ≡ Err fault)) }
{
    if bytes.len() > MOST_BYTES {
        return Err(RosterFault::Line(0, LineCause::TooLong));
    }
    let mut entries = Entries::of_text(bytes);
    let version = read_head(&mut entries)?;
    let own = read_own(version, &mut entries)?;
    let meters = read_meters(alloc, version, &mut entries)?;
    Ok(Roster::new(own, meters))
}
