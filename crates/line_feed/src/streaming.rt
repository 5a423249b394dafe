//! All lines of a stream, told on two sinks.
ghost use Rattle.std.specs.Prelude.{ℕ, ◌≡◌, ◌≤◌, ◌<◌, ◌+◌, ◌-◌, ◌^◌, ◌++◌, [], ◌∷◌, ◌≢◌, List, length, take, drop, false, Ok, Err, IsTrue, OnOk, IfErr, MatchOption};
ghost use Rattle.outer_io.specs.Faults.{Rose};
ghost use Rattle.outer_io.specs.Shown.{source_shown, sink_change, WriteFailed};
ghost use Rattle.line_reader.specs.Newlines.{newlines};
ghost use Rattle.line_teller.specs.Telling.{Tells};
ghost use Rattle.line_feed.specs.Opened.{Open, Keeps, StandsAt, told_line};
ghost use Rattle.line_feed.specs.Pieces.{IsPlace, Adds};
ghost use Rattle.line_feed.specs.Streams.{StreamEnded, TellsMore, Goes, EndsRead, Stops, StopsAtLine};

use crate::opened::{LONGEST_MAX, OpenLine};
use crate::teller::StreamTeller;
use line_teller::{LinesEnd, Sheet, ended_by, pass_both};
use outer_io::{Sink, Source};
use plain_text::first_place;
use std::alloc::Global;

// How many bytes a read asks for.
const READ_MOST: usize = 16_384;

// Tells a line on two sheets.
fn hear<T: StreamTeller>(
    alloc: Global,
    number: u64,
    begun: &OpenLine,
    ended: bool,
    teller: &mut T,
    text: &mut Sheet,
    note: &mut Sheet,
) -> Result<(), LinesEnd>
    requires longest { begun.now.longest ≡ T.longest }
    ensures heard { OnOk result ((line : List ℕ) → Keeps begun.now line →
        Tells (T.tells teller.old number (told_line ended line)) teller.new text.old text.new note.old note.new) }
    ensures sound { OnOk result ((text.new.failed ≡ false) × (note.new.failed ≡ false)) }
    ensures memory { IfErr result (λ end. end ≡ LinesEnd.Memory) }
{
    match begun.text(ended) {
        Some(line) => {
            let told = teller.tell(alloc, number, line, text, note);
            ended_by(told, text, note)
        }
        None => {
            teller.tell_long(number, text, note);
            ended_by(Ok(()), text, note)
        }
    }
}

// Tells a line with this number: behind it stands its newline, or the stream ends there.
fn tell_line<K: Sink, E: Sink, T: StreamTeller>(
    alloc: Global,
    number: u64,
    begun: &OpenLine,
    ended: bool,
    teller: &mut T,
    text: &mut Sheet,
    note: &mut Sheet,
    out: &mut K,
    notes: &mut E,
) -> Result<(), LinesEnd>
    requires longest { begun.now.longest ≡ T.longest }
    requires no_text { text.old.text ≡ [] }
    requires no_note { note.old.text ≡ [] }
    ensures told { OnOk result ((line : List ℕ) → Keeps begun.now line →
        TellsMore T.tells number teller.old teller.new (told_line ended line ∷ [])
        K.tells (sink_change K.Sink out.old out.new) E.tells (sink_change E.Sink notes.old notes.new)) }
    ensures no_text { OnOk result (text.new.text ≡ []) }
    ensures no_note { OnOk result (note.new.text ≡ []) }
    ensures ended { IfErr result (λ end. (line : List ℕ) → Keeps begun.now line →
        StopsAtLine T.tells number (told_line ended line) teller.old teller.new end
        K.tells (sink_change K.Sink out.old out.new) E.tells (sink_change E.Sink notes.old notes.new)) }
    ensures read { result ≢ Err LinesEnd.Read }
    ensures write { result ≡ Err LinesEnd.Write → WriteFailed (sink_change K.Sink out.old out.new) }
    ensures later_out { K.faults out.old ≤ K.faults out.new }
    ensures later_notes { E.faults notes.old ≤ E.faults notes.new }
{
    match hear(alloc, number, begun, ended, teller, text, note) {
        Ok(()) => pass_both(text, note, out, notes, 0),
        Err(end) => Err(end),
    }
}

// The number of the line that isn't finished yet, unless the count is at its end.
fn next_number(begun: &OpenLine) -> Option<u64>
    ensures { MatchOption result (2 ^ 64 - 1 ≤ begun.now.finished) (λ number. number ≡ begun.now.finished + 1) }
{
    begun.finished().checked_add(1)
}

// Adds bytes without a newline to the begun line.
fn add(begun: &mut OpenLine, piece: &[u8]) -> Result<(), LinesEnd>
    ensures memory { IfErr result (λ end. end ≡ LinesEnd.Memory) }
    ensures read { result ≢ Err LinesEnd.Read }
    ensures longest { begun.new.longest ≡ begun.old.longest }
    ensures finished { begun.new.finished ≡ begun.old.finished }
    ensures kept { OnOk result ((line : List ℕ) → Keeps begun.old line → Keeps begun.new (line ++ piece.now)) }
{
    match begun.add(piece) {
        Ok(()) => Ok(()),
        Err(_) => Err(LinesEnd::Memory),
    }
}

// Tells the line that was added to last, behind which its newline stands, and begins the next one.
fn tell_open<K: Sink, E: Sink, T: StreamTeller>(
    alloc: Global,
    begun: &mut OpenLine,
    teller: &mut T,
    text: &mut Sheet,
    note: &mut Sheet,
    out: &mut K,
    notes: &mut E,
) -> Result<(), LinesEnd>
    requires longest { begun.old.longest ≡ T.longest }
    requires no_text { text.old.text ≡ [] }
    requires no_note { note.old.text ≡ [] }
    ensures longest { OnOk result (begun.new.longest ≡ T.longest) }
    ensures no_text { OnOk result (text.new.text ≡ []) }
    ensures no_note { OnOk result (note.new.text ≡ []) }
    ensures told { OnOk result ((bytes piece : List ℕ) (before : Open) → Adds before piece begun.old → StandsAt bytes before →
        Goes T.tells bytes (bytes ++ (piece ++ 10 ∷ [])) before begun.new teller.old teller.new
        K.tells (sink_change K.Sink out.old out.new) E.tells (sink_change E.Sink notes.old notes.new)) }
    ensures ended { IfErr result (λ end. (bytes piece rest : List ℕ) (before : Open) → Adds before piece begun.old → StandsAt bytes before →
        Stops T.tells bytes (bytes ++ (piece ++ 10 ∷ rest)) before teller.old teller.new end
        K.tells (sink_change K.Sink out.old out.new) E.tells (sink_change E.Sink notes.old notes.new)) }
    ensures read { result ≢ Err LinesEnd.Read }
    ensures write { result ≡ Err LinesEnd.Write → WriteFailed (sink_change K.Sink out.old out.new) }
    ensures later_out { K.faults out.old ≤ K.faults out.new }
    ensures later_notes { E.faults notes.old ≤ E.faults notes.new }
{
    let Some(number) = next_number(begun) else {
        return Err(LinesEnd::Cut);
    };
    match tell_line(alloc, number, begun, true, teller, text, note, out, notes) {
        Ok(()) => {
            begun.begin_next(number);
            Ok(())
        }
        Err(end) => Err(end),
    }
}

// Finishes the begun line by its last bytes, behind which its newline stands, and tells it.
fn finish_line<K: Sink, E: Sink, T: StreamTeller>(
    alloc: Global,
    piece: &[u8],
    begun: &mut OpenLine,
    teller: &mut T,
    text: &mut Sheet,
    note: &mut Sheet,
    out: &mut K,
    notes: &mut E,
) -> Result<(), LinesEnd>
    requires alone { newlines piece.now ≡ 0 }
    requires longest { begun.old.longest ≡ T.longest }
    requires no_text { text.old.text ≡ [] }
    requires no_note { note.old.text ≡ [] }
    ensures longest { OnOk result (begun.new.longest ≡ T.longest) }
    ensures no_text { OnOk result (text.new.text ≡ []) }
    ensures no_note { OnOk result (note.new.text ≡ []) }
    ensures told { OnOk result ((bytes : List ℕ) → StandsAt bytes begun.old →
        Goes T.tells bytes (bytes ++ (piece.now ++ 10 ∷ [])) begun.old begun.new teller.old teller.new
        K.tells (sink_change K.Sink out.old out.new) E.tells (sink_change E.Sink notes.old notes.new)) }
    ensures ended { IfErr result (λ end. (bytes rest : List ℕ) → StandsAt bytes begun.old →
        Stops T.tells bytes (bytes ++ (piece.now ++ 10 ∷ rest)) begun.old teller.old teller.new end
        K.tells (sink_change K.Sink out.old out.new) E.tells (sink_change E.Sink notes.old notes.new)) }
    ensures read { result ≢ Err LinesEnd.Read }
    ensures write { result ≡ Err LinesEnd.Write → WriteFailed (sink_change K.Sink out.old out.new) }
    ensures later_out { K.faults out.old ≤ K.faults out.new }
    ensures later_notes { E.faults notes.old ≤ E.faults notes.new }
{
    match add(begun, piece) {
        Ok(()) => tell_open(alloc, begun, teller, text, note, out, notes),
        Err(end) => Err(end),
    }
}

/// How many bytes stand behind the first `at` and in front of the first newline there.
pub(crate) fn next_place(read: &[u8], at: usize) -> Option<usize>
    requires { at ≤ length read.now }
    ensures { MatchOption result (newlines (drop at read.now) ≡ 0) (λ place. IsPlace read.now at place) }
{
    let (_, rest) = read.split_at(at);
    let place = first_place(rest, b'\n')?;
    Some(place)
}

// The bytes behind the first `at`.
fn rest_of(read: &[u8], at: usize) -> &[u8]
    requires { at ≤ length read.now }
    ensures { result.now ≡ drop at read.now }
{
    let (_, rest) = read.split_at(at);
    rest
}

// So many bytes behind the first `at`.
fn piece_of(read: &[u8], at: usize, place: usize) -> &[u8]
    requires { at + (place + 1) ≤ length read.now }
    ensures { result.now ≡ take place (drop at read.now) }
{
    let (piece, _) = rest_of(read, at).split_at(place);
    piece
}

// Tells all lines that these bytes finish, and keeps what they have of the next one.
fn tell_bytes<K: Sink, E: Sink, T: StreamTeller>(
    alloc: Global,
    read: &[u8],
    begun: &mut OpenLine,
    teller: &mut T,
    text: &mut Sheet,
    note: &mut Sheet,
    out: &mut K,
    notes: &mut E,
) -> Result<(), LinesEnd>
    requires longest { begun.old.longest ≡ T.longest }
    requires no_text { text.old.text ≡ [] }
    requires no_note { note.old.text ≡ [] }
    ensures longest { OnOk result (begun.new.longest ≡ T.longest) }
    ensures no_text { OnOk result (text.new.text ≡ []) }
    ensures no_note { OnOk result (note.new.text ≡ []) }
    ensures told { OnOk result ((bytes : List ℕ) → StandsAt bytes begun.old →
        Goes T.tells bytes (bytes ++ read.now) begun.old begun.new teller.old teller.new
        K.tells (sink_change K.Sink out.old out.new) E.tells (sink_change E.Sink notes.old notes.new)) }
    ensures ended { IfErr result (λ end. (bytes : List ℕ) → StandsAt bytes begun.old →
        Stops T.tells bytes (bytes ++ read.now) begun.old teller.old teller.new end
        K.tells (sink_change K.Sink out.old out.new) E.tells (sink_change E.Sink notes.old notes.new)) }
    ensures read { result ≢ Err LinesEnd.Read }
    ensures write { result ≡ Err LinesEnd.Write → WriteFailed (sink_change K.Sink out.old out.new) }
    ensures later_out { K.faults out.old ≤ K.faults out.new }
    ensures later_notes { E.faults notes.old ≤ E.faults notes.new }
{
    let mut at = 0;
    'lines: loop {
        let Some(place) = next_place(read, at) else {
            return add(begun, rest_of(read, at));
        };
        let piece = piece_of(read, at, place);
        if let Err(end) = finish_line(alloc, piece, begun, teller, text, note, out, notes) {
            return Err(end);
        }
        at += place + 1;
    }
}

// Tells the last line of a stream that is at its end, if it has one without a newline, and answers how the stream ends.
fn tell_last<K: Sink, E: Sink, T: StreamTeller>(
    alloc: Global,
    begun: &OpenLine,
    teller: &mut T,
    text: &mut Sheet,
    note: &mut Sheet,
    out: &mut K,
    notes: &mut E,
) -> LinesEnd
    requires longest { begun.now.longest ≡ T.longest }
    requires no_text { text.old.text ≡ [] }
    requires no_note { note.old.text ≡ [] }
    ensures ended { (bytes : List ℕ) → StandsAt bytes begun.now →
        EndsRead T.tells bytes bytes [] begun.now teller.old teller.new result
        K.tells (sink_change K.Sink out.old out.new) E.tells (sink_change E.Sink notes.old notes.new) }
    ensures write { result ≡ LinesEnd.Write → WriteFailed (sink_change K.Sink out.old out.new) }
    ensures read { result ≢ LinesEnd.Read }
    ensures later_out { K.faults out.old ≤ K.faults out.new }
    ensures later_notes { E.faults notes.old ≤ E.faults notes.new }
{
    if begun.is_empty() {
        return LinesEnd::Done;
    }
    let Some(number) = next_number(begun) else {
        return LinesEnd::Cut;
    };
    match tell_line(alloc, number, begun, false, teller, text, note, out, notes) {
        Ok(()) => LinesEnd::Done,
        Err(end) => end,
    }
}

// The first `count` bytes.
fn front_of(buffer: &[u8], count: usize) -> &[u8]
    requires { count ≤ length buffer.now }
    ensures { result.now ≡ take count buffer.now }
{
    let (front, _) = buffer.split_at(count);
    front
}

// Tells what a read of `count` bytes finishes, or the last line of a stream that is at its end.
fn tell_count<K: Sink, E: Sink, T: StreamTeller>(
    alloc: Global,
    buffer: &[u8],
    count: usize,
    begun: &mut OpenLine,
    teller: &mut T,
    text: &mut Sheet,
    note: &mut Sheet,
    out: &mut K,
    notes: &mut E,
) -> Result<(), LinesEnd>
    requires within { count ≤ length buffer.now }
    requires longest { begun.old.longest ≡ T.longest }
    requires no_text { text.old.text ≡ [] }
    requires no_note { note.old.text ≡ [] }
    ensures longest { OnOk result (begun.new.longest ≡ T.longest) }
    ensures no_text { OnOk result (text.new.text ≡ []) }
    ensures no_note { OnOk result (note.new.text ≡ []) }
    ensures told { OnOk result ((bytes : List ℕ) → StandsAt bytes begun.old →
        Goes T.tells bytes (bytes ++ take count buffer.now) begun.old begun.new teller.old teller.new
        K.tells (sink_change K.Sink out.old out.new) E.tells (sink_change E.Sink notes.old notes.new)) }
    ensures some { OnOk result (0 < length (take count buffer.now)) }
    ensures ended { IfErr result (λ end. (bytes left : List ℕ) → StandsAt bytes begun.old → (count ≡ 0 → left ≡ []) →
        EndsRead T.tells bytes (bytes ++ take count buffer.now) left begun.old teller.old teller.new end
        K.tells (sink_change K.Sink out.old out.new) E.tells (sink_change E.Sink notes.old notes.new)) }
    ensures read { result ≢ Err LinesEnd.Read }
    ensures write { result ≡ Err LinesEnd.Write → WriteFailed (sink_change K.Sink out.old out.new) }
    ensures later_out { K.faults out.old ≤ K.faults out.new }
    ensures later_notes { E.faults notes.old ≤ E.faults notes.new }
{
    if count == 0 {
        return Err(tell_last(alloc, begun, teller, text, note, out, notes));
    }
    tell_bytes(
        alloc,
        front_of(buffer, count),
        begun,
        teller,
        text,
        note,
        out,
        notes,
    )
}

/// Reads once, tells all lines that this finishes, and keeps what it has of the next one; or answers how the stream ends. When it returns, the
/// texts of all lines that were finished so far are written on `out`, and their notes on `notes`. A text that can't be written ends the stream;
/// a note that can't be is left out.
///
/// The begun line looks at no more bytes of a line than the teller's longest, and nothing is on the two sheets, before it and after it.
pub fn tell_read<S: Source, K: Sink, E: Sink, T: StreamTeller>(
    alloc: Global,
    source: &mut S,
    buffer: &mut [u8],
    begun: &mut OpenLine,
    teller: &mut T,
    text: &mut Sheet,
    note: &mut Sheet,
    out: &mut K,
    notes: &mut E,
) -> Result<(), LinesEnd>
    requires room { 0 < length buffer.old }
    requires longest { begun.old.longest ≡ T.longest }
    requires no_text { text.old.text ≡ [] }
    requires no_note { note.old.text ≡ [] }
    ensures room { length buffer.new ≡ length buffer.old }
    ensures longest { OnOk result (begun.new.longest ≡ T.longest) }
    ensures no_text { OnOk result (text.new.text ≡ []) }
    ensures no_note { OnOk result (note.new.text ≡ []) }

    // All lines that the bytes read finish are told, and their texts and notes are written.
    ensures told { OnOk result (IsTrue S.tells → StandsAt (S.taken source.old) begun.old →
        Goes T.tells (S.taken source.old) (S.taken source.new) begun.old begun.new teller.old teller.new
        K.tells (sink_change K.Sink out.old out.new) E.tells (sink_change E.Sink notes.old notes.new)) }
    ensures more { OnOk result (IsTrue S.tells → length (S.taken source.old) < length (S.taken source.new)) }

    // The stream ends, perhaps with more lines told.
    ensures ended { IfErr result (λ end. IsTrue S.tells → StandsAt (S.taken source.old) begun.old →
        EndsRead T.tells (S.taken source.old) (S.taken source.new) (S.left source.new) begun.old teller.old teller.new end
        K.tells (sink_change K.Sink out.old out.new) E.tells (sink_change E.Sink notes.old notes.new)) }
    ensures read { result ≡ Err LinesEnd.Read → Rose (S.faults source.old) (S.faults source.new) }
    ensures write { result ≡ Err LinesEnd.Write → WriteFailed (sink_change K.Sink out.old out.new) }
    ensures later { S.faults source.old ≤ S.faults source.new }
    ensures later_out { K.faults out.old ≤ K.faults out.new }
    ensures later_notes { E.faults notes.old ≤ E.faults notes.new }
    ensures bytes { IsTrue S.tells → S.taken source.new ++ S.left source.new ≡ S.taken source.old ++ S.left source.old }
{
    match source.read(buffer) {
        Ok(count) => tell_count(alloc, buffer, count, begun, teller, text, note, out, notes),
        Err(_) => Err(LinesEnd::Read),
    }
}

// The number of reads with the next one, unless the count is at its end.
fn next_read(reads: u64) -> Option<u64>
    ensures { MatchOption result (2 ^ 64 - 1 ≤ reads) (λ next. (next ≡ reads + 1) × (reads < 2 ^ 64 - 1)) }
{
    reads.checked_add(1)
}

/// Tells all lines of a stream, of which nothing was taken yet: their texts on the sink `out`, and their notes on `notes`. The lines that a read
/// finishes are told, one write for each text, before the next read. However many lines there are, no more is kept than the bytes of one read,
/// of one line that is no longer than the teller's longest, and of what is told of one line. A text that can't be written ends the stream; a
/// note that can't be is left out.
pub fn tell_stream<S: Source, K: Sink, E: Sink, T: StreamTeller>(
    alloc: Global,
    source: &mut S,
    longest: usize,
    teller: &mut T,
    out: &mut K,
    notes: &mut E,
) -> LinesEnd
    requires fresh { IsTrue S.tells → S.taken source.old ≡ [] }
    requires room { longest ≤ LONGEST_MAX }
    requires longest { longest ≡ T.longest }
    ensures ended { IsTrue S.tells → StreamEnded T.tells teller.old teller.new result (source_shown S.Source source.new)
        K.tells (sink_change K.Sink out.old out.new) E.tells (sink_change E.Sink notes.old notes.new) }
    ensures read { result ≡ LinesEnd.Read → Rose (S.faults source.old) (S.faults source.new) }
    ensures write { result ≡ LinesEnd.Write → WriteFailed (sink_change K.Sink out.old out.new) }
    ensures later { S.faults source.old ≤ S.faults source.new }
    ensures later_out { K.faults out.old ≤ K.faults out.new }
    ensures later_notes { E.faults notes.old ≤ E.faults notes.new }
    ensures bytes { IsTrue S.tells → S.taken source.new ++ S.left source.new ≡ S.taken source.old ++ S.left source.old }
{
    let mut buffer = [0u8; READ_MOST];
    let mut begun = OpenLine::new(alloc, longest);
    let mut text = Sheet::new(alloc);
    let mut note = Sheet::new(alloc);
    let mut reads = 0;
    'reads: loop {
        let Some(next) = next_read(reads) else {
            return LinesEnd::Cut;
        };
        if let Err(end) = tell_read(
            alloc,
            source,
            &mut buffer,
            &mut begun,
            teller,
            &mut text,
            &mut note,
            out,
            notes,
        ) {
            return end;
        }
        reads = next;
    }
}
