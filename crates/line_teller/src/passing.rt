//! What is on a sheet, passed on to a sink.
ghost use Rattle.std.specs.Prelude.{◌≡◌, ◌≤◌, ◌++◌, [], false, IsTrue, OnOk, OnErr};
ghost use Rattle.outer_io.specs.Bytes.{AppendsFront};
ghost use Rattle.outer_io.specs.Faults.{Rose};
ghost use Rattle.outer_io.specs.Shown.{sink_change};
ghost use Rattle.line_teller.specs.Ending.{IsNoted};
ghost use Rattle.line_teller.specs.Standing.{Pours};

use crate::sheet::Sheet;
use outer_io::{Failed, Sink, write_all};

/// Writes what is on the sheet, where that has more than `room` bytes, and clears it.
pub fn pass_on<K: Sink>(sheet: &mut Sheet, out: &mut K, room: usize) -> Result<(), Failed>
    ensures same { sheet.new.failed ≡ sheet.old.failed }
    ensures ok { OnOk result (IsTrue K.tells → Pours (K.written out.old) sheet.old.text (K.written out.new) sheet.new.text) }
    ensures all { OnOk result (room ≡ 0 → sheet.new.text ≡ []) }
    ensures err { OnErr result (IsTrue K.tells → AppendsFront sheet.old.text (K.written out.old) (K.written out.new)) }
    ensures later { K.faults out.old ≤ K.faults out.new }
    ensures cause { OnErr result (Rose (K.faults out.old) (K.faults out.new)) }
{
    if sheet.bytes().len() <= room {
        return Ok(());
    }
    write_all(out, sheet.bytes())?;
    sheet.clear();
    Ok(())
}

/// Writes the note that is on the sheet, and clears it. A note that can't be written holds nothing up.
pub(crate) fn pass_note<E: Sink>(sheet: &mut Sheet, notes: &mut E)
    ensures same { sheet.new.failed ≡ sheet.old.failed }
    ensures empty { sheet.new.text ≡ [] }
    ensures noted { IsTrue E.tells → IsNoted sheet.old.text (sink_change E.Sink notes.old notes.new) }
    ensures later { E.faults notes.old ≤ E.faults notes.new }
{
    let _written = write_all(notes, sheet.bytes());
    sheet.clear();
}
