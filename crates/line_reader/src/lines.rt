//! The lines of a receiver.
ghost use Rattle.std.specs.Prelude.{◌≡◌, true, Ok};
ghost use Rattle.line_reader.specs.Grammar.{line_of};
ghost use Rattle.line_reader.specs.Reader.{next_of, gives_line};

use crate::grammar::{LINE_MAX, read_line};
use crate::line::BadLine;
use crate::next::{Next, NextText, ReadFault};
use crate::text_reader::TextReader;
use outer_io::Source;
use std::marker::Model;

/// The most lines of a source.
pub const LINES_MAX: u32 = 131_072;

/// The most bytes of a source.
pub const BYTES_MAX: usize = 67_108_864;

// What a line says.
fn said(text: &[u8]) -> Result<Next, ReadFault>
    ensures line { gives_line result ≡ true }
    ensures says { result ≡ Ok (next_of (line_of text.now)) }
{
    match read_line(text) {
        Ok(line) => Ok(Next::Line(line)),
        Err(bad) => Ok(Next::Bad(bad)),
    }
}

/// The lines of a receiver, one after another, bad ones too. They are numbered from 1.
///
/// A line ends with a newline, in front of which one carriage return is dropped, or at the source's end if it isn't empty there.
#[derive(Drop)]
pub struct Lines<S: Source> {
    reader: TextReader<S>,
}

impl<S: Source> Model for Lines<S> {
    ghost use Rattle.std.specs.Prelude.{◌≡◌};
    ghost use Rattle.line_reader.specs.Reader.{Reader, reader_code};

    ghost Value = { Reader S };

    ghost coded = { reader_code S.code };

    ghost view = { λ l. l.reader.reader };

    ghost invariant = { λ l. l.reader.longest ≡ 1024 };
}

impl<S: Source> Lines<S> {
    ghost use Rattle.std.specs.Prelude.{◌≡◌, ◌≤◌, ◌+◌, ◌++◌, [], take, false, not, Ok, IsTrue, OnErr, if◌then◌else◌};
    ghost use Rattle.outer_io.specs.Faults.{Rose};
    ghost use Rattle.line_reader.specs.Lines.{all_lines};
    ghost use Rattle.line_reader.specs.Reader.{given, gives_line, Gives, IsAtEnd, IsPastLimit, IsBrokenOff};

    /// The lines of a source of which nothing was taken yet.
    pub fn new(source: S) -> Lines<S>
        requires { IsTrue S.tells → S.taken source ≡ [] }
        ensures { result ≡ record { source = source; line = 0; done = false } }
    {
        Lines {
            reader: TextReader::new(source, LINE_MAX),
        }
    }

    /// What comes next. After an end, a cut or a fault no more line is given.
    ///
    /// Each read asks the source for at least 1,024 bytes. No memory is taken.
    pub fn next(&mut self) -> Result<Next, ReadFault>
        requires { self.old.done ≡ false }

        // A line or a bad line is the next of the source's lines, and says what is answered.
        ensures lines { IsTrue S.tells → Gives result (given S.taken self.old) (given S.taken self.new) }
        ensures number { self.new.line ≡ self.old.line + (if gives_line result then 1 else 0) }
        ensures few { self.new.line ≤ 131072 }
        ensures done { self.new.done ≡ not (gives_line result) }

        // How the source cuts its bytes into pieces makes no difference.
        ensures pieces { IsTrue S.tells → given S.taken self.new
            ≡ take self.new.line (all_lines (S.taken self.new.source ++ S.left self.new.source)) }

        // The source is at its end exactly where no byte is left, and cut exactly where it has one behind a limit.
        ensures end { result ≡ Ok Next.End → IsTrue S.tells →
            IsAtEnd (S.taken self.new.source) (S.left self.new.source) (given S.taken self.new) }
        ensures cut { result ≡ Ok Next.Cut → IsTrue S.tells →
            IsPastLimit (S.taken self.new.source) (S.left self.new.source) (given S.taken self.new) }

        // Only a fault of the source is a fault. The bytes taken are within the limits, and every whole line of them was given before.
        ensures fault { OnErr result (IsTrue S.tells → IsBrokenOff (S.taken self.new.source) (given S.taken self.new)) }
        ensures cause { OnErr result (Rose (S.faults self.old.source) (S.faults self.new.source)) }
        ensures later { S.faults self.old.source ≤ S.faults self.new.source }

        // No byte is lost.
        ensures bytes { IsTrue S.tells →
            S.taken self.new.source ++ S.left self.new.source ≡ S.taken self.old.source ++ S.left self.old.source }
    {
        match self.reader.next() {
            Ok(NextText::Line) => said(self.reader.text()),
            Ok(NextText::TooLong) => Ok(Next::Bad(BadLine::TooLong)),
            Ok(NextText::End) => Ok(Next::End),
            Ok(NextText::Cut) => Ok(Next::Cut),
            Err(fault) => Err(fault),
        }
    }

    /// Whether no more line is given: the last answer was an end, a cut or a fault.
    pub fn done(&self) -> bool
        ensures { result ≡ self.now.done }
    {
        self.reader.done()
    }

    /// The number of the last line given, 0 before the first.
    pub fn line(&self) -> u32
        ensures number { result ≡ self.now.line }
        ensures few { self.now.line ≤ 131072 }
    {
        self.reader.line()
    }

    /// The source.
    pub fn source(&self) -> &S
        ensures { result.now ≡ self.now.source }
    {
        self.reader.source()
    }

    /// The source, without the bytes that were read ahead.
    pub fn into_source(self) -> S
        ensures { result ≡ self.source }
    {
        self.reader.into_source()
    }
}
