//! The lines of a source, as bytes.
ghost use Rattle.std.specs.Prelude.{◌≡◌, ◌≤◌, ◌<◌, ◌+◌, ◌-◌, length, take, drop};
ghost use Rattle.line_reader.specs.Reading.{line_text, LendsLine};

use crate::held::HeldBytes;
use crate::lines::{BYTES_MAX, LINES_MAX};
use crate::next::{NextText, ReadFault};
use crate::search::{Ending, find_end};
use outer_io::Source;
use std::marker::Model;

// How many bytes count behind these bytes and lines.
fn most_bytes(start: usize, line: u32) -> usize
    requires { start ≤ BYTES_MAX }
    ensures line { line < LINES_MAX → result ≡ BYTES_MAX - start }
    ensures none { LINES_MAX ≤ line → result ≡ 0 }
{
    if line < LINES_MAX {
        BYTES_MAX - start
    } else {
        0
    }
}

// The bytes of a line without its newline and one carriage return in front of that. An unfinished line has neither.
fn without_end(bytes: &[u8]) -> &[u8]
    ensures { result.now ≡ line_text bytes.now }
{
    match bytes {
        [line @ .., b'\r', b'\n'] => line,
        [line @ .., b'\n'] => line,
        _ => bytes,
    }
}

// Lends a line that the first held bytes are, of which some may have been given up before: how many bytes these are, with its
// end. A line that is too long is given up, and none is lent.
fn lend(held: &mut HeldBytes, longest: usize, given_up: usize, count: usize) -> usize
    requires within { count ≤ length held.old }
    requires some { 0 < given_up + count }
    ensures { LendsLine longest given_up count held.old held.new result }
{
    let (bytes, _) = held.bytes().split_at(count);
    if given_up == 0 && without_end(bytes).len() <= longest {
        return count;
    }
    held.advance(count);
    0
}

/// The lines of a source as bytes, one after another, the last one lent until the next is read.
///
/// A line ends with a newline, in front of which one carriage return is dropped, or at the source's end if it isn't empty there.
#[derive(Drop)]
pub struct TextReader<S: Source> {
    source: S,
    // The line that is lent, with its end, and what was read behind it.
    held: HeldBytes,
    // How many bytes the line that is lent has, with its end.
    lent: usize,
    // The most bytes of a line, without its end.
    longest: usize,
    // How many bytes the lines that were given have, with their ends.
    start: usize,
    line: u32,
    // Whether an unfinished last line was given.
    ended: bool,
    done: bool,
}

impl<S: Source> Model for TextReader<S> {
    ghost use Rattle.std.specs.Prelude.{take};
    ghost use Rattle.line_reader.specs.Reader.{TextReading, text_reading_code};
    ghost use Rattle.line_reader.specs.Reading.{line_text};
    ghost use Rattle.line_reader.specs.Keeps.{IsTextReader};

    ghost Value = { TextReading S };

    ghost coded = { text_reading_code S.code };

    ghost view = { λ t. record {
      reader = record { source = t.source; line = t.line; done = t.done };
      longest = t.longest;
      text = line_text (take t.lent t.held);
    } };

    ghost invariant = { λ t. IsTextReader S.tells t.longest t.lent t.start t.line t.ended t.done
        (S.taken t.source) (S.left t.source) t.held };
}

impl<S: Source> TextReader<S> {
    ghost use Rattle.std.specs.Prelude.{◌≡◌, ◌≤◌, ◌+◌, ◌++◌, [], length, take, false, not, Ok, IsTrue, OnErr, if◌then◌else◌};
    ghost use Rattle.outer_io.specs.Faults.{Rose};
    ghost use Rattle.line_reader.specs.Lines.{all_lines};
    ghost use Rattle.line_reader.specs.Reader.{given, gives_text, GivesText, IsAtEnd, IsPastLimit, IsBrokenOff};

    /// The lines of a source of which nothing was taken yet. A line with more than `longest` bytes is too long.
    pub fn new(source: S, longest: usize) -> TextReader<S>
        requires fresh { IsTrue S.tells → S.taken source ≡ [] }
        requires room { longest ≤ 15_359 }
        ensures { result ≡ record { reader = record { source = source; line = 0; done = false }; longest = longest; text = [] } }
    {
        TextReader {
            source,
            held: HeldBytes::new(),
            lent: 0,
            longest,
            start: 0,
            line: 0,
            ended: false,
            done: false,
        }
    }

    /// What comes next. After an end, a cut or a fault no more line is given.
    ///
    /// Each read asks the source for at least 1,024 bytes. No memory is taken.
    pub fn next(&mut self) -> Result<NextText, ReadFault>
        requires { self.old.reader.done ≡ false }

        // A line is the next of the source's lines. It is lent, unless it is too long.
        ensures lines { IsTrue S.tells →
            GivesText result self.old.longest self.new.text (given S.taken self.old.reader) (given S.taken self.new.reader) }
        ensures short { length self.new.text ≤ self.old.longest }
        ensures longest { self.new.longest ≡ self.old.longest }
        ensures number { self.new.reader.line ≡ self.old.reader.line + (if gives_text result then 1 else 0) }
        ensures few { self.new.reader.line ≤ 131072 }
        ensures done { self.new.reader.done ≡ not (gives_text result) }

        // How the source cuts its bytes into pieces makes no difference.
        ensures pieces { IsTrue S.tells → given S.taken self.new.reader
            ≡ take self.new.reader.line (all_lines (S.taken self.new.reader.source ++ S.left self.new.reader.source)) }

        // The source is at its end exactly where no byte is left, and cut exactly where it has one behind a limit.
        ensures end { result ≡ Ok NextText.End → IsTrue S.tells →
            IsAtEnd (S.taken self.new.reader.source) (S.left self.new.reader.source) (given S.taken self.new.reader) }
        ensures cut { result ≡ Ok NextText.Cut → IsTrue S.tells →
            IsPastLimit (S.taken self.new.reader.source) (S.left self.new.reader.source) (given S.taken self.new.reader) }

        // Only a fault of the source is a fault. The bytes taken are within the limits, and every whole line of them was given before.
        ensures fault { OnErr result (IsTrue S.tells →
            IsBrokenOff (S.taken self.new.reader.source) (given S.taken self.new.reader)) }
        ensures cause { OnErr result (Rose (S.faults self.old.reader.source) (S.faults self.new.reader.source)) }
        ensures later { S.faults self.old.reader.source ≤ S.faults self.new.reader.source }

        // No byte is lost.
        ensures bytes { IsTrue S.tells → S.taken self.new.reader.source ++ S.left self.new.reader.source
            ≡ S.taken self.old.reader.source ++ S.left self.old.reader.source }
    {
        self.held.advance(self.lent);
        self.lent = 0;
        if self.ended {
            self.done = true;
            return Ok(NextText::End);
        }
        let most = most_bytes(self.start, self.line);
        match find_end(&mut self.source, &mut self.held, self.longest, most) {
            Ending::Line {
                given_up,
                count,
                last,
            } => {
                self.lent = lend(&mut self.held, self.longest, given_up, count);
                self.start += given_up + count;
                self.line += 1;
                self.ended = last;
                if self.lent == 0 {
                    return Ok(NextText::TooLong);
                }
                Ok(NextText::Line)
            }
            Ending::Source => {
                self.done = true;
                Ok(NextText::End)
            }
            Ending::Limit => {
                self.done = true;
                Ok(NextText::Cut)
            }
            Ending::Fault => {
                self.done = true;
                Err(ReadFault)
            }
        }
    }

    /// The bytes of the last line that was given, without its end: none where it was too long, and before the first.
    pub fn text(&self) -> &[u8]
        ensures { result.now ≡ self.now.text }
    {
        let (line, _) = self.held.bytes().split_at(self.lent);
        without_end(line)
    }

    /// Whether no more line is given: the last answer was an end, a cut or a fault.
    pub fn done(&self) -> bool
        ensures { result ≡ self.now.reader.done }
    {
        self.done
    }

    /// The number of the last line given, 0 before the first.
    pub fn line(&self) -> u32
        ensures number { result ≡ self.now.reader.line }
        ensures few { self.now.reader.line ≤ 131072 }
    {
        self.line
    }

    /// The source.
    pub fn source(&self) -> &S
        ensures { result.now ≡ self.now.reader.source }
    {
        &self.source
    }

    /// The source, without the bytes that were read ahead.
    pub fn into_source(self) -> S
        ensures { result ≡ self.reader.source }
    {
        let TextReader {
            source,
            held: _,
            lent: _,
            longest: _,
            start: _,
            line: _,
            ended: _,
            done: _,
        } = self;
        source
    }
}
