//! A roster that is read from a source.
ghost use Rattle.std.specs.Prelude.{◌≡◌, ◌≤◌, ℕ, Ok, Err, IsTrue, IfOk};
ghost use Rattle.outer_io.specs.Shown.{IsReadOut, LosesNothing, ReadFailed, source_change};
ghost use Rattle.roster_file.specs.Enrolled.{IsEnrolled};
ghost use Rattle.roster_file.specs.Roster.{roster_of};
ghost use Rattle.roster_file.specs.declared.roster.LineCause.{LineCause};
ghost use Rattle.roster_file.specs.declared.roster.RosterFault.TheVariants.{Line};

use crate::reader::{MOST_BYTES, read_roster};
use crate::roster::{LineCause, Roster, RosterFault};
use outer_io::{ReadError, Source, read_all};
use std::alloc::Global;

/// Why a source gives no roster.
#[derive(Clone, Copy)]
pub enum LoadFault {
    /// A read failed, and the source's count of faults says so.
    Read,
    /// The first faulty line of all its bytes, counted from 1, and what is wrong with it.
    Line(u32, LineCause),
    /// There is no memory for the roster.
    Memory,
}

fn load_fault_of(fault: RosterFault) -> LoadFault
    ensures line { (line : ℕ) (cause : LineCause) → result ≡ LoadFault.Line line cause → fault ≡ Line line cause }
    ensures no_read { result ≡ LoadFault.Read → ⊥ }
{
    match fault {
        RosterFault::Line(line, cause) => LoadFault::Line(line, cause),
        RosterFault::Memory => LoadFault::Memory,
    }
}

/// The roster of all bytes that a source has left. After `Ok` the source was read to its end.
pub fn load_roster<S: Source>(alloc: Global, source: &mut S) -> Result<Roster, LoadFault>
    ensures found { IfOk result (λ roster. IsTrue S.tells → roster_of (S.left source.old) ≡ Ok roster) }
    ensures enrolled { IfOk result IsEnrolled }
    ensures read { IfOk result (λ _. IsTrue S.tells → IsReadOut (source_change S.Source source.old source.new)) }

    // A faulty line is the first one of all bytes that were left, and a fault of reading is one of the source.
    ensures line { (line : ℕ) (cause : LineCause) → result ≡ Err (LoadFault.Line line cause) → IsTrue S.tells →
        roster_of (S.left source.old) ≡ Err (Line line cause) }
    ensures failed { result ≡ Err LoadFault.Read → ReadFailed (source_change S.Source source.old source.new) }

    ensures no_loss { IsTrue S.tells → LosesNothing (source_change S.Source source.old source.new) }
    ensures later { S.faults source.old ≤ S.faults source.new }
{
    let bytes = match read_all(alloc, source, MOST_BYTES) {
        Ok(bytes) => bytes,
        Err(ReadError::Failed) => return Err(LoadFault::Read),
        Err(ReadError::TooMany) => return Err(LoadFault::Line(0, LineCause::TooLong)),
        Err(ReadError::Memory) => return Err(LoadFault::Memory),
    };
    match read_roster(alloc, bytes.as_slice()) {
        Ok(roster) => Ok(roster),
        Err(fault) => Err(load_fault_of(fault)),
    }
}
