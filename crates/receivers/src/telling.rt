//! The next line of a receiver.
ghost use Rattle.std.specs.Prelude.{◌≡◌, ◌≢◌, ◌+◌, ◌≤◌, ◌++◌, false, IsTrue, IfOk, IfErr, OnOk, OnErr};
ghost use Rattle.outer_io.specs.Faults.{Rose};
ghost use Rattle.line_reader.specs.Reader.{given};
ghost use Rattle.receivers.specs.Ending.{TellsNext, IsEnding};

use crate::told::{Told, tell};
use line_reader::{LINES_MAX, Lines, Next};
use meter_slots::Ended;
use outer_io::Source;

// What the next line tells, or how the receiver ended.
pub(crate) fn next_told<S: Source>(lines: &mut Lines<S>) -> Result<Told, Ended>
    requires { lines.old.done ≡ false }
    ensures told { IfOk result (λ told. IsTrue S.tells → TellsNext told (given S.taken lines.old) (given S.taken lines.new)) }
    ensures goes_on { OnOk result ((lines.new.line ≡ lines.old.line + 1) × (lines.new.done ≡ false)) }
    ensures few { lines.new.line ≤ LINES_MAX }
    ensures ended { IfErr result (λ ended. IsTrue S.tells →
        (given S.taken lines.new ≡ given S.taken lines.old)
        × IsEnding ended (S.taken lines.new.source) (S.left lines.new.source) (given S.taken lines.new)) }
    ensures same { OnErr result (lines.new.line ≡ lines.old.line) }
    ensures cause { IfErr result (λ ended. ended ≡ Ended.ReadFault → Rose (S.faults lines.old.source) (S.faults lines.new.source)) }
    ensures never { IfErr result (λ ended. (ended ≢ Ended.TxFault) × (ended ≢ Ended.Memory)) }
    ensures later { S.faults lines.old.source ≤ S.faults lines.new.source }
    ensures bytes { IsTrue S.tells →
        S.taken lines.new.source ++ S.left lines.new.source ≡ S.taken lines.old.source ++ S.left lines.old.source }
{
    match lines.next() {
        Ok(Next::Line(line)) => Ok(tell(&line)),
        Ok(Next::Bad(_)) => Ok(Told::Bad),
        Ok(Next::End) => Err(Ended::End),
        Ok(Next::Cut) => Err(Ended::Cut),
        Err(_) => Err(Ended::ReadFault),
    }
}
