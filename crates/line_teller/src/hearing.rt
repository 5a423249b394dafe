//! The next line of a source, told on two sheets.
ghost use Rattle.std.specs.Prelude.{◌≡◌, ◌≢◌, ◌≤◌, ◌+◌, ◌++◌, true, false, Err, IsTrue, OnOk, IfErr};
ghost use Rattle.outer_io.specs.Faults.{Rose};
ghost use Rattle.line_reader.specs.Reader.{given};
ghost use Rattle.line_reader.specs.Lines.{all_lines};
ghost use Rattle.line_teller.specs.Ending.{HearsLine, EndsLines, AreFirst, TakesOne, is_whole};

use crate::ending::LinesEnd;
use crate::sheet::Sheet;
use crate::teller::Teller;
use line_reader::{NextText, TextReader};
use outer_io::{Memory, Source};
use std::alloc::Global;

/// How a line that was told on these two sheets ends the lines: for want of memory alone.
pub fn ended_by(told: Result<(), Memory>, text: &Sheet, note: &Sheet) -> Result<(), LinesEnd>
    ensures ok { OnOk result ((told ≡ Ok tt) × (text.now.failed ≡ false) × (note.now.failed ≡ false)) }
    ensures err { IfErr result (λ end. end ≡ LinesEnd.Memory) }
{
    if told.is_err() {
        return Err(LinesEnd::Memory);
    }
    if text.failed() {
        return Err(LinesEnd::Memory);
    }
    if note.failed() {
        return Err(LinesEnd::Memory);
    }
    Ok(())
}

/// Tells the next line, or answers how the lines end.
pub(crate) fn hear_next<S: Source, T: Teller>(
    alloc: Global,
    reader: &mut TextReader<S>,
    teller: &mut T,
    text: &mut Sheet,
    note: &mut Sheet,
) -> Result<(), LinesEnd>
    requires goes_on { reader.old.reader.done ≡ false }
    requires longest { reader.old.longest ≡ T.longest }
    ensures longest { reader.new.longest ≡ T.longest }
    ensures next { OnOk result ((reader.new.reader.done ≡ false) × (reader.new.reader.line ≡ reader.old.reader.line + 1)) }
    ensures few { reader.new.reader.line ≤ 131072 }
    ensures sound { OnOk result ((text.new.failed ≡ false) × (note.new.failed ≡ false)) }
    ensures heard { OnOk result (IsTrue S.tells → HearsLine T.tells reader.new.reader.line
        (given S.taken reader.old.reader) (given S.taken reader.new.reader) teller.old teller.new
        text.old.text text.new.text note.old.text note.new.text) }
    ensures ends { IfErr result (λ end. IsTrue S.tells →
        EndsLines end (S.taken reader.new.reader.source) (S.left reader.new.reader.source) (given S.taken reader.old.reader)) }
    ensures first { IfErr result (λ end. IsTrue S.tells →
        AreFirst (given S.taken reader.old.reader) (all_lines (S.taken reader.new.reader.source))) }
    ensures untold { result ≡ Err LinesEnd.Memory → IsTrue S.tells →
        TakesOne (given S.taken reader.old.reader) (given S.taken reader.new.reader) }
    ensures same { IfErr result (λ end. IsTrue (is_whole end) → (teller.new ≡ teller.old) × (text.new ≡ text.old) × (note.new ≡ note.old)) }
    ensures write { result ≢ Err LinesEnd.Write }
    ensures read { result ≡ Err LinesEnd.Read → Rose (S.faults reader.old.reader.source) (S.faults reader.new.reader.source) }
    ensures later { S.faults reader.old.reader.source ≤ S.faults reader.new.reader.source }
    ensures bytes { IsTrue S.tells → S.taken reader.new.reader.source ++ S.left reader.new.reader.source
        ≡ S.taken reader.old.reader.source ++ S.left reader.old.reader.source }
{
    match reader.next() {
        Ok(NextText::Line) => {
            let number = reader.line();
            let told = teller.tell(alloc, number, reader.text(), text, note);
            ended_by(told, text, note)
        }
        Ok(NextText::TooLong) => {
            teller.tell_long(reader.line(), text, note);
            ended_by(Ok(()), text, note)
        }
        Ok(NextText::End) => Err(LinesEnd::Done),
        Ok(NextText::Cut) => Err(LinesEnd::Cut),
        Err(_) => Err(LinesEnd::Read),
    }
}
