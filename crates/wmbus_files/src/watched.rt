//! Receivers that go past their limit while others are still heard.
ghost use Rattle.std.specs.Prelude.{◌≡◌, ℕ, ◌<◌, ◌≤◌, List, [], ◌++◌, length, take, None, Some, IfOk, OnErr};
ghost use Rattle.std.specs.Str.Lines.{lines};
ghost use Rattle.outer_io.specs.Faults.{Rose};
ghost use Rattle.line_reader.specs.Lines.{is_over};
ghost use Rattle.wmbus_files.specs.Watched.{is_unfinished, IsCountOf, IsWatched};

use line_reader::{BYTES_MAX, LINES_MAX};
use outer_io::{Failed, Source, StdSource};
use plain_text::TextLines;

/// How many bytes were taken, how many lines they have, and whether the last of these has no newline yet.
#[derive(Clone, Copy)]
struct Taken {
    bytes: usize,
    lines: usize,
    unfinished: bool,
}

// Whether the last line of these bytes, if they have one, has no newline.
fn is_unfinished(bytes: &[u8]) -> bool
    ensures { result ≡ is_unfinished bytes.now }
{
    match bytes.last() {
        Some(last) => *last != b'\n',
        None => false,
    }
}

// How many lines these bytes have, an unfinished one among them.
fn line_count(bytes: &[u8]) -> usize
    ensures { result ≡ length (lines bytes.now) }
{
    TextLines::of_text(bytes).count()
}

impl Taken {
    fn nothing() -> Taken
        ensures { IsCountOf [] result }
    {
        Taken {
            bytes: 0,
            lines: 0,
            unfinished: false,
        }
    }

    // Counts the bytes of a read, all at once, and answers whether a byte of all that were taken lies behind a limit.
    fn add(&mut self, read: &[u8]) -> bool
        ensures over { (before : List ℕ) → IsCountOf before self.old → result ≡ is_over (before ++ read.now) }
        ensures count { (before : List ℕ) → IsCountOf before self.old → IsCountOf (before ++ read.now) self.new }
    {
        if read.is_empty() {
            return self.is_over();
        }
        // (a line that was begun before goes on, and isn't one more)
        let begun = line_count(read) - usize::from(self.unfinished);
        self.bytes = self.bytes.saturating_add(read.len());
        self.lines = self.lines.saturating_add(begun);
        self.unfinished = is_unfinished(read);
        self.is_over()
    }

    fn is_over(&self) -> bool
        ensures { (bytes : List ℕ) → IsCountOf bytes self.now → result ≡ is_over bytes }
    {
        self.bytes > BYTES_MAX || self.lines > LINES_MAX as usize
    }
}

/// A file or a pipe that is read. Where it is one receiver of several, it says once on the standard error that the receiver went past its
/// limit: its other lines aren't heard any more, and the session goes on until the others end.
#[derive(Drop)]
pub struct WatchedSource<'r, R> {
    rt: &'r R,
    source: StdSource,
    // The number of the receiver, from 1, as long as it has something to say.
    receiver: Option<usize>,
    taken: Taken,
}

impl<'r, R: Eprint> WatchedSource<'r, R> {
    /// A source that says nothing.
    pub fn silent(rt: &'r R, source: StdSource) -> WatchedSource<'r, R>
        ensures { result.receiver ≡ None }
    {
        WatchedSource {
            rt,
            source,
            receiver: None,
            taken: Taken::nothing(),
        }
    }

    /// The source of the receiver with this number, from 1, of several.
    pub fn of_receiver(rt: &'r R, source: StdSource, receiver: usize) -> WatchedSource<'r, R>
        ensures receiver { result.receiver ≡ Some receiver }
        ensures count { IsCountOf [] result.taken }
    {
        WatchedSource {
            rt,
            source,
            receiver: Some(receiver),
            taken: Taken::nothing(),
        }
    }

    // Says that the receiver went past its limit, where it did so by these bytes.
    fn watch(&mut self, read: &[u8])
        ensures source { self.new.source ≡ self.old.source }
        ensures watched { (before : List ℕ) → IsCountOf before self.old.taken →
            IsWatched (before ++ read.now) self.old.receiver self.new.receiver self.new.taken }
    {
        let Some(receiver) = self.receiver else {
            return;
        };
        if self.taken.add(read) {
            self.receiver = None;
            let _ = eprintln!(self.rt;
                "wmbus: receiver {receiver} isn't heard any more: it is past 131,072 lines or 67,108,864 bytes; end this session and go on in the next"
            );
        }
    }

    // Reads, and watches what was read: the receiver has something to say until a byte is taken behind a limit.
    fn read_watched(&mut self, into: &mut [u8]) -> Result<usize, Failed>
        requires { 0 < length into.old }
        ensures room { IfOk result (λ n. n ≤ length into.old) }
        ensures later { self.old.source.faults ≤ self.new.source.faults }
        ensures cause { OnErr result (Rose self.old.source.faults self.new.source.faults) }
        ensures watched { IfOk result (λ n. (before : List ℕ) → IsCountOf before self.old.taken →
            IsWatched (before ++ take n into.new) self.old.receiver self.new.receiver self.new.taken) }
    {
        let count = self.source.read(into)?;
        self.watch(&into[..count]);
        Ok(count)
    }
}

impl<R: Eprint> Source for WatchedSource<'_, R> {
    ghost use Rattle.std.specs.Prelude.{false, []};

    ghost tells = { false };

    ghost taken = { λ _. [] };

    ghost left = { λ _. [] };

    ghost faults = { λ s. s.source.faults };

    fn read(&mut self, into: &mut [u8]) -> Result<usize, Failed> {
        self.read_watched(into)
    }
}
