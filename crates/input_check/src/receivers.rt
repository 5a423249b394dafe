//! The faulty lines of a receiver.
ghost use Rattle.std.specs.Prelude.{◌≡◌, ◌++◌, ◌+◌, ◌≤◌, List, [], false, true, length, take, Err, IsTrue, IfOk, IfErr, OnOk, OnErr};
ghost use Rattle.outer_io.specs.Bytes.{AppendsFront};
ghost use Rattle.outer_io.specs.Faults.{Rose};
ghost use Rattle.outer_io.specs.Shown.{LosesNothing, source_change, sink_change};
ghost use Rattle.meter_address.specs.declared.address.Address.{Address};
ghost use Rattle.line_reader.specs.Lines.{is_over, all_lines};
ghost use Rattle.line_reader.specs.Reader.{given, IsAtEnd, IsPastLimit};
ghost use Rattle.input_check.specs.declared.faulty.FaultyLine.{FaultyLine};
ghost use Rattle.input_check.specs.Faulty.{numbered, faulty_lines, heard_of, heard_in};
ghost use Rattle.input_check.specs.Finding.{Holds, IsFound, AreAllFound};
ghost use Rattle.input_check.specs.Findings.{receiver_lines};
ghost use Rattle.input_check.specs.Stops.{FileStops, IsHeardOut, IsLong};

use crate::faulty::{FaultyLines, LineFault, look_at_line};
use crate::findings::ReceiverFindings;
use crate::states::Stop;
use line_reader::{Lines, Next};
use meter_address::Address;
use outer_io::{Sink, Source};
use paper::write;
use std::alloc::Global;

// How the lines end.
#[derive(Clone, Copy)]
enum End {
    // All were looked at.
    Done,
    // No more can be.
    Stopped(Stop),
}

// Adds a line, if it is faulty.
fn add_line(
    found: &mut FaultyLines,
    line: u32,
    looked: Result<Option<Address>, LineFault>,
) -> Result<(), End>
    requires { found.old.count ≤ 131072 }
    ensures holds { OnOk result ((faults : List FaultyLine) (addresses : List Address) → Holds faults addresses found.old →
        Holds (faults ++ numbered line looked) (addresses ++ heard_of looked) found.new) }
    ensures few { found.new.count ≤ found.old.count + 1 }
    ensures memory { IfErr result (λ end. end ≡ End.Stopped Stop.Memory) }
{
    match found.add(line, looked) {
        Ok(()) => Ok(()),
        Err(_) => Err(End::Stopped(Stop::Memory)),
    }
}

// Looks at the next line, or answers how the lines end.
fn check_next<S: Source>(lines: &mut Lines<S>, found: &mut FaultyLines) -> Result<(), End>
    requires goes_on { lines.old.done ≡ false }
    requires few { found.old.count ≤ 131072 }
    ensures next { OnOk result ((lines.new.done ≡ false) × (lines.new.line ≡ lines.old.line + 1)) }
    ensures few_lines { lines.new.line ≤ 131072 }
    ensures few { OnOk result (found.new.count ≤ found.old.count + 1) }
    ensures found { OnOk result (IsTrue S.tells → IsFound (given S.taken lines.old) lines.old.line found.old →
        IsFound (given S.taken lines.new) lines.new.line found.new) }
    ensures same { result ≡ Err End.Done → found.new ≡ found.old }
    ensures done { result ≡ Err End.Done → IsTrue S.tells →
        (given S.taken lines.new ≡ given S.taken lines.old)
        × IsAtEnd (S.taken lines.new.source) (S.left lines.new.source) (given S.taken lines.new) }
    ensures cut { result ≡ Err (End.Stopped Stop.Cut) → IsTrue S.tells →
        is_over (S.taken lines.new.source ++ S.left lines.new.source) ≡ true }
    ensures read { result ≡ Err (End.Stopped Stop.Read) → Rose (S.faults lines.old.source) (S.faults lines.new.source) }
    ensures write { result ≡ Err (End.Stopped Stop.Write) → ⊥ }
    ensures later { S.faults lines.old.source ≤ S.faults lines.new.source }
    ensures bytes { IsTrue S.tells →
        S.taken lines.new.source ++ S.left lines.new.source ≡ S.taken lines.old.source ++ S.left lines.old.source }
{
    match lines.next() {
        Ok(Next::Line(line)) => add_line(found, lines.line(), look_at_line(&line)),
        Ok(Next::Bad(bad)) => add_line(found, lines.line(), Err(LineFault::Bad(bad))),
        Ok(Next::End) => Err(End::Done),
        Ok(Next::Cut) => Err(End::Stopped(Stop::Cut)),
        Err(_) => Err(End::Stopped(Stop::Read)),
    }
}

// What was found, or why no more lines are looked at.
fn ended(found: FaultyLines, end: End) -> Result<FaultyLines, Stop>
    ensures ok { IfOk result (λ all. (end ≡ End.Done) × (all ≡ found)) }
    ensures err { IfErr result (λ stop. end ≡ End.Stopped stop) }
{
    match end {
        End::Done => Ok(found),
        End::Stopped(stop) => Err(stop),
    }
}

// Looks at all lines.
fn check_lines<S: Source>(alloc: Global, lines: &mut Lines<S>) -> Result<FaultyLines, Stop>
    requires fresh { lines.old.line ≡ 0 }
    requires goes_on { lines.old.done ≡ false }
    ensures found { IfOk result (λ found. IsTrue S.tells →
        AreAllFound (S.taken lines.new.source) (S.left lines.new.source) found) }
    ensures cut { result ≡ Err Stop.Cut → IsTrue S.tells →
        is_over (S.taken lines.new.source ++ S.left lines.new.source) ≡ true }
    ensures read { result ≡ Err Stop.Read → Rose (S.faults lines.old.source) (S.faults lines.new.source) }
    ensures write { result ≡ Err Stop.Write → ⊥ }
    ensures bytes { IsTrue S.tells →
        S.taken lines.new.source ++ S.left lines.new.source ≡ S.taken lines.old.source ++ S.left lines.old.source }
{
    let mut found = FaultyLines::none(alloc);
    'lines: loop {
        if let Err(end) = check_next(lines, &mut found) {
            return ended(found, end);
        }
    }
}

/// Prints the faulty lines of a receiver, numbered from 1, the first 100 of them and how many there are; and answers what its
/// lines come to. The lines are those of a source of which nothing was taken yet.
///
/// `Read` comes only where a read failed, `Cut` only where the source has a byte behind a limit, and both leave nothing printed; `Write` comes
/// only where a write failed, and leaves a front of the text.
#[tactic(auto, using(crate::proofs::Stopping::unprinted, outer_io::proofs::Fronts::none, crate::proofs::Limits::heard_out))]
pub fn check_receiver<S: Source, K: Sink>(
    alloc: Global,
    receiver: u64,
    lines: &mut Lines<S>,
    out: &mut K,
) -> Result<FaultyLines, Stop>
    requires fresh { lines.old.line ≡ 0 }
    requires goes_on { lines.old.done ≡ false }
    requires untaken { IsTrue S.tells → S.taken lines.old.source ≡ [] }
    ensures first { IfOk result (λ found. IsTrue S.tells →
        found.first.items ≡ take 100 (faulty_lines (all_lines (S.left lines.old.source)))) }
    ensures count { IfOk result (λ found. IsTrue S.tells →
        found.count ≡ length (faulty_lines (all_lines (S.left lines.old.source)))) }
    ensures heard { IfOk result (λ found. IsTrue S.tells →
        found.heard.items ≡ heard_in (all_lines (S.left lines.old.source))) }
    ensures printed { IfOk result (λ _. IsTrue S.tells → IsTrue K.tells →
        K.written out.new ≡ K.written out.old ++ receiver_lines receiver (faulty_lines (all_lines (S.left lines.old.source)))) }
    ensures read { IfOk result (λ _. IsTrue S.tells → IsHeardOut (source_change S.Source lines.old.source lines.new.source)) }

    // Why it stops, and what it leaves.
    ensures stops { IfErr result (FileStops (IsLong S.tells (source_change S.Source lines.old.source lines.new.source))
        (IsTrue S.tells → IsHeardOut (source_change S.Source lines.old.source lines.new.source))
        (source_change S.Source lines.old.source lines.new.source) (sink_change K.Sink out.old out.new)) }
    ensures front { OnErr result (IsTrue S.tells → IsTrue K.tells →
        AppendsFront (receiver_lines receiver (faulty_lines (all_lines (S.left lines.old.source)))) (K.written out.old) (K.written out.new)) }
    ensures later { K.faults out.old ≤ K.faults out.new }
    ensures no_loss { IsTrue S.tells → LosesNothing (source_change S.Source lines.old.source lines.new.source) }
{
    let found = match check_lines(alloc, lines) {
        Ok(found) => found,
        Err(stop) => return Err(stop),
    };
    let findings = ReceiverFindings {
        receiver,
        found: &found,
    };
    match write(out, &findings) {
        Ok(()) => Ok(found),
        Err(_) => Err(Stop::Write),
    }
}
