//! All lines of a source, told on two sinks.
ghost use Rattle.std.specs.Prelude.{◌≡◌, ◌≤◌, ◌⊎◌, ◌+◌, ◌++◌, [], false, Err, IsTrue, OnOk, OnErr, IfErr};
ghost use Rattle.outer_io.specs.Bytes.{AppendsFront};
ghost use Rattle.outer_io.specs.Faults.{Rose};
ghost use Rattle.outer_io.specs.Shown.{source_shown, sink_change, WriteFailed};
ghost use Rattle.line_reader.specs.Reader.{given};
ghost use Rattle.line_teller.specs.Ending.{Ended, StopsBefore, TakesOne, EndsText, IsNoted, IsEndOf, is_whole};
ghost use Rattle.line_teller.specs.Standing.{Pours, Steps, TellsOne, EndsStep};

use crate::ending::LinesEnd;
use crate::hearing::hear_next;
use crate::passing::{pass_note, pass_on};
use crate::sheet::Sheet;
use crate::teller::Teller;
use line_reader::TextReader;
use outer_io::{Sink, Source};
use std::alloc::Global;

/// Passes on what was told of a line: its note, and its text where more than `room` bytes wait with it.
pub fn pass_both<K: Sink, E: Sink>(
    text: &mut Sheet,
    note: &mut Sheet,
    out: &mut K,
    notes: &mut E,
    room: usize,
) -> Result<(), LinesEnd>
    ensures text { OnOk result (IsTrue K.tells → Pours (K.written out.old) text.old.text (K.written out.new) text.new.text) }
    ensures all { OnOk result (room ≡ 0 → text.new.text ≡ []) }
    ensures front { OnErr result (IsTrue K.tells → AppendsFront text.old.text (K.written out.old) (K.written out.new)) }
    ensures write { IfErr result (λ end. (end ≡ LinesEnd.Write) × WriteFailed (sink_change K.Sink out.old out.new)) }
    ensures empty { note.new.text ≡ [] }
    ensures noted { IsTrue E.tells → IsNoted note.old.text (sink_change E.Sink notes.old notes.new) }
    ensures later_out { K.faults out.old ≤ K.faults out.new }
    ensures later_notes { E.faults notes.old ≤ E.faults notes.new }
{
    pass_note(note, notes);
    match pass_on(text, out, room) {
        Ok(()) => Ok(()),
        Err(_) => Err(LinesEnd::Write),
    }
}

// Passes on what is left on the sheet where every line was told that could be read, and answers how the lines end with that.
fn finish<K: Sink>(end: LinesEnd, text: &mut Sheet, out: &mut K) -> LinesEnd
    ensures end { IsEndOf end result }
    ensures write { result ≡ LinesEnd.Write → (end ≡ LinesEnd.Write) ⊎ WriteFailed (sink_change K.Sink out.old out.new) }
    ensures text { IsTrue (is_whole end) → IsTrue K.tells → EndsText result text.old.text (sink_change K.Sink out.old out.new) }
    ensures silent { is_whole end ≡ false → IsTrue K.tells → K.written out.new ≡ K.written out.old }
    ensures memory { result ≡ LinesEnd.Memory → end ≡ LinesEnd.Memory }
    ensures later { K.faults out.old ≤ K.faults out.new }
{
    if !end.is_whole() {
        return end;
    }
    match pass_on(text, out, 0) {
        Ok(()) => end,
        Err(_) => LinesEnd::Write,
    }
}

// Tells the next line, or answers how the lines end.
fn tell_next<S: Source, K: Sink, E: Sink, T: Teller>(
    alloc: Global,
    reader: &mut TextReader<S>,
    teller: &mut T,
    text: &mut Sheet,
    note: &mut Sheet,
    out: &mut K,
    notes: &mut E,
    room: usize,
) -> Result<(), LinesEnd>
    requires goes_on { reader.old.reader.done ≡ false }
    requires longest { reader.old.longest ≡ T.longest }
    requires empty { note.old.text ≡ [] }
    ensures longest { reader.new.longest ≡ T.longest }
    ensures next { OnOk result ((reader.new.reader.done ≡ false) × (reader.new.reader.line ≡ reader.old.reader.line + 1)) }
    ensures few { reader.new.reader.line ≤ 131072 }
    ensures empty { OnOk result (note.new.text ≡ []) }
    ensures all { OnOk result (room ≡ 0 → text.new.text ≡ []) }
    ensures told { OnOk result (IsTrue S.tells → Steps T.tells reader.new.reader.line teller.old teller.new
        (given S.taken reader.old.reader) (given S.taken reader.new.reader)
        K.tells (sink_change K.Sink out.old out.new) text.old.text text.new.text E.tells (sink_change E.Sink notes.old notes.new)) }
    ensures ended { IfErr result (λ end. IsTrue S.tells → EndsStep T.tells (reader.old.reader.line + 1) teller.old teller.new end
        (source_shown S.Source reader.new.reader.source) (given S.taken reader.old.reader)
        K.tells (sink_change K.Sink out.old out.new) text.old.text E.tells (sink_change E.Sink notes.old notes.new)) }
    ensures untold { result ≡ Err LinesEnd.Memory → IsTrue S.tells →
        TakesOne (given S.taken reader.old.reader) (given S.taken reader.new.reader) }
    ensures silent { result ≡ Err LinesEnd.Memory → IsTrue K.tells → K.written out.new ≡ K.written out.old }
    ensures read { result ≡ Err LinesEnd.Read → Rose (S.faults reader.old.reader.source) (S.faults reader.new.reader.source) }
    ensures write { result ≡ Err LinesEnd.Write → WriteFailed (sink_change K.Sink out.old out.new) }
    ensures later { S.faults reader.old.reader.source ≤ S.faults reader.new.reader.source }
    ensures later_out { K.faults out.old ≤ K.faults out.new }
    ensures later_notes { E.faults notes.old ≤ E.faults notes.new }
    ensures bytes { IsTrue S.tells → S.taken reader.new.reader.source ++ S.left reader.new.reader.source
        ≡ S.taken reader.old.reader.source ++ S.left reader.old.reader.source }
{
    match hear_next(alloc, reader, teller, text, note) {
        Ok(()) => pass_both(text, note, out, notes, room),
        Err(end) => Err(finish(end, text, out)),
    }
}

/// Tells all lines of a source: their texts on the sink `out`, and their notes on `notes`. A note is written as soon as its line
/// is told, and a text as soon as more than `room` bytes wait, or at the end. A text that can't be written ends the lines; a note
/// that can't be is left out.
///
/// The reader is one that was just made over its source, for lines of at most the teller's longest.
pub fn tell_lines<S: Source, K: Sink, E: Sink, T: Teller>(
    alloc: Global,
    reader: &mut TextReader<S>,
    teller: &mut T,
    out: &mut K,
    notes: &mut E,
    room: usize,
) -> LinesEnd
    requires fresh { reader.old.reader.line ≡ 0 }
    requires goes_on { reader.old.reader.done ≡ false }
    requires longest { reader.old.longest ≡ T.longest }
    ensures ended { IsTrue S.tells → Ended T.tells teller.old teller.new result (source_shown S.Source reader.new.reader.source)
        K.tells (sink_change K.Sink out.old out.new) E.tells (sink_change E.Sink notes.old notes.new) }
    ensures read { result ≡ LinesEnd.Read → Rose (S.faults reader.old.reader.source) (S.faults reader.new.reader.source) }
    ensures write { result ≡ LinesEnd.Write → WriteFailed (sink_change K.Sink out.old out.new) }
    ensures later_out { K.faults out.old ≤ K.faults out.new }
    ensures later_notes { E.faults notes.old ≤ E.faults notes.new }
    ensures bytes { IsTrue S.tells → S.taken reader.new.reader.source ++ S.left reader.new.reader.source
        ≡ S.taken reader.old.reader.source ++ S.left reader.old.reader.source }
{
    let mut text = Sheet::new(alloc);
    let mut note = Sheet::new(alloc);
    'lines: loop {
        if let Err(end) = tell_next(
            alloc, reader, teller, &mut text, &mut note, out, notes, room,
        ) {
            return end;
        }
    }
}

/// Tells the next line of a source, or answers how the lines end. When it returns, the line's text is written on `out`, before any line behind
/// it was taken, and its note on `notes`. A text that can't be written ends the lines; a note that can't be is left out.
///
/// The reader takes lines of at most the teller's longest, and nothing is on the two sheets, before it and after it.
pub fn tell_one<S: Source, K: Sink, E: Sink, T: Teller>(
    alloc: Global,
    reader: &mut TextReader<S>,
    teller: &mut T,
    text: &mut Sheet,
    note: &mut Sheet,
    out: &mut K,
    notes: &mut E,
) -> Result<(), LinesEnd>
    requires goes_on { reader.old.reader.done ≡ false }
    requires longest { reader.old.longest ≡ T.longest }
    requires no_text { text.old.text ≡ [] }
    requires no_note { note.old.text ≡ [] }
    ensures longest { reader.new.longest ≡ T.longest }
    ensures next { OnOk result ((reader.new.reader.done ≡ false) × (reader.new.reader.line ≡ reader.old.reader.line + 1)) }
    ensures few { reader.new.reader.line ≤ 131072 }
    ensures no_text { OnOk result (text.new.text ≡ []) }
    ensures no_note { OnOk result (note.new.text ≡ []) }

    // One more line is told, and its text and note are written.
    ensures told { OnOk result (IsTrue S.tells → TellsOne T.tells reader.new.reader.line teller.old teller.new
        (given S.taken reader.old.reader) (given S.taken reader.new.reader)
        K.tells (sink_change K.Sink out.old out.new) E.tells (sink_change E.Sink notes.old notes.new)) }

    // The lines end, with one more or none.
    ensures ended { IfErr result (λ end. IsTrue S.tells → EndsStep T.tells (reader.old.reader.line + 1) teller.old teller.new end
        (source_shown S.Source reader.new.reader.source) (given S.taken reader.old.reader)
        K.tells (sink_change K.Sink out.old out.new) [] E.tells (sink_change E.Sink notes.old notes.new)) }

    // Where there is no memory for the line, it was taken, and nothing of it is written.
    ensures untold { result ≡ Err LinesEnd.Memory → IsTrue S.tells →
        TakesOne (given S.taken reader.old.reader) (given S.taken reader.new.reader) }
    ensures silent { result ≡ Err LinesEnd.Memory → IsTrue K.tells → K.written out.new ≡ K.written out.old }

    ensures read { result ≡ Err LinesEnd.Read → Rose (S.faults reader.old.reader.source) (S.faults reader.new.reader.source) }
    ensures write { result ≡ Err LinesEnd.Write → WriteFailed (sink_change K.Sink out.old out.new) }
    ensures later { S.faults reader.old.reader.source ≤ S.faults reader.new.reader.source }
    ensures later_out { K.faults out.old ≤ K.faults out.new }
    ensures later_notes { E.faults notes.old ≤ E.faults notes.new }
    ensures bytes { IsTrue S.tells → S.taken reader.new.reader.source ++ S.left reader.new.reader.source
        ≡ S.taken reader.old.reader.source ++ S.left reader.old.reader.source }
{
    tell_next(alloc, reader, teller, text, note, out, notes, 0)
}

/// Tells all lines of a source one by one: the text of each is written before the next one is taken. A text that can't be written ends the
/// lines; a note that can't be is left out. Where there is no memory for a line, the texts of those before it are written, and nothing of it.
///
/// The reader is one that was just made over its source, for lines of at most the teller's longest.
pub fn tell_one_by_one<S: Source, K: Sink, E: Sink, T: Teller>(
    alloc: Global,
    reader: &mut TextReader<S>,
    teller: &mut T,
    out: &mut K,
    notes: &mut E,
) -> LinesEnd
    requires fresh { reader.old.reader.line ≡ 0 }
    requires goes_on { reader.old.reader.done ≡ false }
    requires longest { reader.old.longest ≡ T.longest }
    ensures ended { IsTrue S.tells → Ended T.tells teller.old teller.new result (source_shown S.Source reader.new.reader.source)
        K.tells (sink_change K.Sink out.old out.new) E.tells (sink_change E.Sink notes.old notes.new) }
    ensures memory { result ≡ LinesEnd.Memory → IsTrue S.tells →
        StopsBefore T.tells teller.old (given S.taken reader.new.reader) K.tells (sink_change K.Sink out.old out.new) }
    ensures read { result ≡ LinesEnd.Read → Rose (S.faults reader.old.reader.source) (S.faults reader.new.reader.source) }
    ensures write { result ≡ LinesEnd.Write → WriteFailed (sink_change K.Sink out.old out.new) }
    ensures later { S.faults reader.old.reader.source ≤ S.faults reader.new.reader.source }
    ensures later_out { K.faults out.old ≤ K.faults out.new }
    ensures later_notes { E.faults notes.old ≤ E.faults notes.new }
    ensures bytes { IsTrue S.tells → S.taken reader.new.reader.source ++ S.left reader.new.reader.source
        ≡ S.taken reader.old.reader.source ++ S.left reader.old.reader.source }
{
    let mut text = Sheet::new(alloc);
    let mut note = Sheet::new(alloc);
    'lines: loop {
        if let Err(end) = tell_one(alloc, reader, teller, &mut text, &mut note, out, notes) {
            return end;
        }
    }
}
