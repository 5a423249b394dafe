//! The lines of a report, listed page by page: what was read is listed up to its last newline, and what stands behind that is kept.
ghost use Rattle.std.specs.Prelude.{◌≡◌, ◌≢◌, ◌<◌, ◌≤◌, ◌+◌, ◌++◌, [], length, take, drop, false, Err, IsTrue, IfOk, IfErr, OnOk, OnErr};
ghost use Rattle.std.specs.Str.Lines.{lines};
ghost use Rattle.outer_io.specs.Bytes.{Moves, AppendsFront};
ghost use Rattle.outer_io.specs.Faults.{Rose};
ghost use Rattle.outer_io.specs.Shown.{source_shown, sink_change, WriteFailed};
ghost use Rattle.line_teller.specs.Ending.{is_whole};
ghost use Rattle.line_teller.specs.Standing.{Pours};
ghost use Rattle.reading_list.specs.Said.{said_of};
ghost use Rattle.reading_list.specs.Listing.{text_of, listed};
ghost use Rattle.reading_list.specs.Pages.{Ended, StopsReading, TellsOne, ListsOne, ListsLines, StandsOn, EndsBehind};

use crate::lister::Lister;
use crate::page::{Page, ended_len};
use line_teller::{LinesEnd, Sheet, ended_by, pass_both, pass_on};
use outer_io::{Sink, Source};
use plain_text::TextLines;
use std::alloc::Global;

/// The most bytes of a report.
pub const REPORT_MAX: usize = 1_073_741_824;

// How many bytes of the list wait at most before they are written.
const ROOM: usize = 16_384;

// What is told of a line, on the two sheets.
fn tell_line(
    alloc: Global,
    lister: &mut Lister,
    number: u32,
    line: &[u8],
    text: &mut Sheet,
    note: &mut Sheet,
) -> Result<(), LinesEnd>
    requires { note.old.text ≡ [] }
    ensures told { OnOk result (TellsOne lister.old lister.new number line.now text.old.text text.new.text note.new.text) }
    ensures err { IfErr result (λ end. end ≡ LinesEnd.Memory) }
{
    let told = lister.tell(alloc, number, line, text, note);
    ended_by(told, text, note)
}

// Lists the line with this number.
fn list_line<K: Sink, E: Sink>(
    alloc: Global,
    lister: &mut Lister,
    number: u32,
    line: &[u8],
    text: &mut Sheet,
    note: &mut Sheet,
    out: &mut K,
    notes: &mut E,
) -> Result<(), LinesEnd>
    requires no_note { note.old.text ≡ [] }
    ensures no_note { OnOk result (note.new.text ≡ []) }
    ensures one { OnOk result (ListsOne lister.old lister.new number line.now
        K.tells (sink_change K.Sink out.old out.new) text.old.text text.new.text E.tells (sink_change E.Sink notes.old notes.new)) }
    ensures front { OnErr result (IsTrue K.tells →
        AppendsFront (text.old.text ++ text_of lister.old (said_of line.now)) (K.written out.old) (K.written out.new)) }
    ensures ends { IfErr result (λ end. is_whole end ≡ false) }
    ensures write { result ≡ Err LinesEnd.Write → WriteFailed (sink_change K.Sink out.old out.new) }
    ensures later_out { K.faults out.old ≤ K.faults out.new }
    ensures later_notes { E.faults notes.old ≤ E.faults notes.new }
{
    tell_line(alloc, lister, number, line, text, note)?;
    pass_both(text, note, out, notes, ROOM)?;
    Ok(())
}

// Lists lines behind as many others as are counted, and writes what was told of them.
fn list_page<K: Sink, E: Sink>(
    alloc: Global,
    lister: &mut Lister,
    count: u32,
    page: &[u8],
    text: &mut Sheet,
    note: &mut Sheet,
    out: &mut K,
    notes: &mut E,
) -> Result<u32, LinesEnd>
    requires few { count + length page.now < 4294967296 }
    requires no_text { text.old.text ≡ [] }
    requires no_note { note.old.text ≡ [] }
    ensures no_text { OnOk result (text.new.text ≡ []) }
    ensures no_note { OnOk result (note.new.text ≡ []) }
    ensures few { IfOk result (λ now. now ≤ count + length page.now) }
    ensures all { IfOk result (λ now. ListsLines lister.old lister.new count now (lines page.now)
        K.tells (sink_change K.Sink out.old out.new) E.tells (sink_change E.Sink notes.old notes.new)) }
    ensures front { OnErr result (IsTrue K.tells →
        AppendsFront (listed lister.old (lines page.now)) (K.written out.old) (K.written out.new)) }
    ensures ends { IfErr result (λ end. is_whole end ≡ false) }
    ensures write { result ≡ Err LinesEnd.Write → WriteFailed (sink_change K.Sink out.old out.new) }
    ensures later_out { K.faults out.old ≤ K.faults out.new }
    ensures later_notes { E.faults notes.old ≤ E.faults notes.new }
{
    let mut texts = TextLines::of_text(page);
    let mut now = count;
    'lines: while let Some(line) = texts.next() {
        now += 1;
        list_line(alloc, lister, now, line, text, note, out, notes)?;
    }
    match pass_on(text, out, 0) {
        Ok(()) => Ok(now),
        Err(_) => Err(LinesEnd::Write),
    }
}

// Reads on behind so many bytes that were taken, and answers how many more are, none at the report's end; or why it can't go on.
fn read_on<S: Source>(page: &mut Page, taken: usize, report: &mut S) -> Result<usize, LinesEnd>
    requires room { length page.old < 65536 }
    requires within { taken ≤ 1073741824 }
    ensures few { IfOk result (λ n. taken + n ≤ 1073741824) }
    ensures count { IfOk result (λ n. length page.new ≡ length page.old + n) }
    ensures kept { OnOk result (take (length page.old) page.new ≡ page.old) }
    ensures ok { IfOk result (λ n. IsTrue S.tells → Moves (drop (length page.old) page.new)
        (S.taken report.old) (S.left report.old) (S.taken report.new) (S.left report.new)) }
    ensures end { IfOk result (λ n. IsTrue S.tells → n ≡ 0 → S.left report.old ≡ []) }
    ensures ends { IfErr result (λ end. IsTrue S.tells →
        StopsReading end taken (S.taken report.old) (S.left report.old) (S.taken report.new) (S.left report.new)) }
    ensures read { result ≡ Err LinesEnd.Read → Rose (S.faults report.old) (S.faults report.new) }
    ensures write { result ≢ Err LinesEnd.Write }
    ensures later { S.faults report.old ≤ S.faults report.new }
{
    if taken < REPORT_MAX {
        return match page.fill(report, REPORT_MAX - taken) {
            Ok(count) => Ok(count),
            Err(_) => Err(LinesEnd::Read),
        };
    }
    let mut byte = [0];
    match report.read(&mut byte) {
        Ok(0) => Ok(0),
        Ok(_) => Err(LinesEnd::Cut),
        Err(_) => Err(LinesEnd::Read),
    }
}

// Reads on, and lists what is there up to the last newline; of the bytes taken this answers the number, and of the lines listed.
fn list_next<S: Source, K: Sink, E: Sink>(
    alloc: Global,
    lister: &mut Lister,
    count: u32,
    page: &mut Page,
    taken: usize,
    text: &mut Sheet,
    note: &mut Sheet,
    report: &mut S,
    out: &mut K,
    notes: &mut E,
) -> Result<(u32, usize), LinesEnd>
    requires few { count + length page.old ≤ taken }
    requires kept { length page.old ≤ 8194 }
    requires within { taken ≤ 1073741824 }
    requires no_text { text.old.text ≡ [] }
    requires no_note { note.old.text ≡ [] }
    ensures few { IfOk result (λ now. now.0 + length page.new ≤ now.1) }
    ensures kept { OnOk result (length page.new ≤ 8194) }
    ensures within { IfOk result (λ now. now.1 ≤ 1073741824) }
    ensures more { IfOk result (λ now. taken < now.1) }
    ensures no_text { OnOk result (text.new.text ≡ []) }
    ensures no_note { OnOk result (note.new.text ≡ []) }
    ensures stands { IfOk result (λ now. IsTrue S.tells → StandsOn lister.old lister.new count now.0 (S.taken report.old) (S.taken report.new)
        page.old page.new taken now.1 K.tells (sink_change K.Sink out.old out.new) E.tells (sink_change E.Sink notes.old notes.new)) }
    ensures ended { IfErr result (λ end. IsTrue S.tells → EndsBehind lister.old lister.new end count (S.taken report.old) page.old taken
        (source_shown S.Source report.new) K.tells (sink_change K.Sink out.old out.new) E.tells (sink_change E.Sink notes.old notes.new)) }
    ensures read { result ≡ Err LinesEnd.Read → Rose (S.faults report.old) (S.faults report.new) }
    ensures write { result ≡ Err LinesEnd.Write → WriteFailed (sink_change K.Sink out.old out.new) }
    ensures later { S.faults report.old ≤ S.faults report.new }
    ensures later_out { K.faults out.old ≤ K.faults out.new }
    ensures later_notes { E.faults notes.old ≤ E.faults notes.new }
    ensures bytes { IsTrue S.tells → S.taken report.new ++ S.left report.new ≡ S.taken report.old ++ S.left report.old }
{
    let more = read_on(page, taken, report)?;
    if more == 0 {
        let _last = list_page(alloc, lister, count, page.bytes(), text, note, out, notes)?;
        return Err(LinesEnd::Done);
    }
    let ended = ended_len(page.bytes());
    let (whole, _) = page.bytes().split_at(ended);
    let now = list_page(alloc, lister, count, whole, text, note, out, notes)?;
    page.give_up(ended);
    Ok((now, taken + more))
}

/// Lists all lines of a report: what is told of them on the sink `out`, and their notes on `notes`. A note is written as soon as its line is
/// told, and a text as soon as more than `ROOM` bytes wait or all that was read is listed. A text that can't be written ends the lines; a
/// note that can't be is left out.
pub(crate) fn list_pages<S: Source, K: Sink, E: Sink>(
    alloc: Global,
    lister: &mut Lister,
    report: &mut S,
    out: &mut K,
    notes: &mut E,
) -> LinesEnd
    requires untaken { IsTrue S.tells → S.taken report.old ≡ [] }
    ensures ended { IsTrue S.tells → Ended lister.old lister.new result (source_shown S.Source report.new)
        K.tells (sink_change K.Sink out.old out.new) E.tells (sink_change E.Sink notes.old notes.new) }
    ensures read { result ≡ LinesEnd.Read → Rose (S.faults report.old) (S.faults report.new) }
    ensures write { result ≡ LinesEnd.Write → WriteFailed (sink_change K.Sink out.old out.new) }
    ensures later_out { K.faults out.old ≤ K.faults out.new }
    ensures later_notes { E.faults notes.old ≤ E.faults notes.new }
    ensures bytes { IsTrue S.tells → S.taken report.new ++ S.left report.new ≡ S.taken report.old ++ S.left report.old }
{
    let mut page = Page::new();
    let mut text = Sheet::new(alloc);
    let mut note = Sheet::new(alloc);
    let mut count = 0;
    let mut taken = 0;
    'reads: loop {
        match list_next(
            alloc, lister, count, &mut page, taken, &mut text, &mut note, report, out, notes,
        ) {
            Ok((lines, bytes)) => {
                count = lines;
                taken = bytes;
            }
            Err(end) => return end,
        }
    }
}
