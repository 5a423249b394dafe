//! The bytes that were read and belong to no line that was given.
ghost use Rattle.std.specs.Prelude.{◌≡◌, ◌≤◌, ◌+◌, ◌-◌, [], length, take, drop, slice_range, IsTrue, IfOk, OnErr};
ghost use Rattle.line_reader.specs.Reading.{Takes};
ghost use Rattle.outer_io.specs.Faults.{Rose};

use outer_io::{Failed, Source};
use std::marker::Model;

/// How many bytes have room.
pub(crate) const HELD_MAX: usize = 16_384;

/// How many bytes each read asks for at least.
pub(crate) const READ_LEAST: usize = 1_024;

/// Bytes in the order in which they were read.
#[derive(Drop)]
pub(crate) struct HeldBytes {
    bytes: [u8; HELD_MAX],
    start: usize,
    end: usize,
}

impl Model for HeldBytes {
    ghost use Rattle.std.specs.Prelude.{ℕ, ◌≤◌, List, slice_range};
    ghost use Rattle.line_reader.specs.declared.held.TheConstants.{HELD_MAX};

    ghost Value = { List ℕ };

    ghost view = { λ h. slice_range h.bytes h.start h.end };

    ghost invariant = { λ h. (h.start ≤ h.end) × (h.end ≤ HELD_MAX) };
}

// Asks a source for at least 1,024 bytes.
fn read_into<S: Source>(source: &mut S, room: &mut [u8]) -> Result<usize, Failed>
    requires { 1024 ≤ length room.old }
    ensures room { IfOk result (λ n. n ≤ length room.old) }
    ensures ok { IfOk result (λ n. IsTrue S.tells → Takes S.taken S.left (take n room.new) source.old source.new) }
    ensures end { IfOk result (λ n. IsTrue S.tells → n ≡ 0 → S.left source.old ≡ []) }
    ensures err { OnErr result (IsTrue S.tells → Takes S.taken S.left [] source.old source.new) }
    ensures later { S.faults source.old ≤ S.faults source.new }
    ensures cause { OnErr result (Rose (S.faults source.old) (S.faults source.new)) }
{
    source.read(room)
}

// Reads behind the first `end` bytes.
fn read_behind<S: Source>(source: &mut S, bytes: &mut [u8], end: usize) -> Result<usize, Failed>
    requires { end + 1024 ≤ length bytes.old }
    ensures room { IfOk result (λ n. end + n ≤ length bytes.old) }
    ensures kept { take end bytes.new ≡ take end bytes.old }
    ensures ok { IfOk result (λ n. IsTrue S.tells → Takes S.taken S.left (take n (drop end bytes.new)) source.old source.new) }
    ensures end { IfOk result (λ n. IsTrue S.tells → n ≡ 0 → S.left source.old ≡ []) }
    ensures err { OnErr result (IsTrue S.tells → Takes S.taken S.left [] source.old source.new) }
    ensures later { S.faults source.old ≤ S.faults source.new }
    ensures cause { OnErr result (Rose (S.faults source.old) (S.faults source.new)) }
{
    let (_, room) = bytes.split_at_mut(end);
    read_into(source, room)
}

// Where the bytes from `start` to `end` stand, at the front where they had too little room behind them.
fn with_room(bytes: &mut [u8], start: usize, end: usize) -> (usize, usize)
    requires ordered { start ≤ end }
    requires within { end ≤ length bytes.old }
    requires room { (end - start) + 1024 ≤ length bytes.old }
    ensures same { slice_range bytes.new result.0 result.1 ≡ slice_range bytes.old start end }
    ensures ordered { result.0 ≤ result.1 }
    ensures room { result.1 + 1024 ≤ length bytes.old }
{
    if bytes.len() - end >= READ_LEAST {
        return (start, end);
    }
    bytes.copy_within(start..end, 0);
    (0, end - start)
}

impl HeldBytes {
    ghost use Rattle.std.specs.Prelude.{◌≡◌, ◌≤◌, ◌+◌, [], length, take, drop, IsTrue, IfOk, OnErr};
    ghost use Rattle.line_reader.specs.Reading.{Takes};
    ghost use Rattle.outer_io.specs.Faults.{Rose};

    /// No bytes.
    pub(crate) fn new() -> HeldBytes
        ensures { result ≡ [] }
    {
        HeldBytes {
            bytes: [0; HELD_MAX],
            start: 0,
            end: 0,
        }
    }

    /// The bytes.
    pub(crate) fn bytes(&self) -> &[u8]
        ensures bytes { result.now ≡ self.now }
        ensures most { length self.now ≤ 16384 }
    {
        &self.bytes[self.start..self.end]
    }

    /// How many bytes there are.
    pub(crate) fn len(&self) -> usize
        ensures { result ≡ length self.now }
    {
        self.end - self.start
    }

    /// Gives up the first `count` bytes.
    pub(crate) fn advance(&mut self, count: usize)
        requires { count ≤ length self.old }
        ensures { self.new ≡ drop count self.old }
    {
        self.start += count;
    }

    /// Reads more behind the bytes, and answers how many, none at the source's end. `Failed` leaves the bytes as they were.
    pub(crate) fn fill<S: Source>(&mut self, source: &mut S) -> Result<usize, Failed>
        requires { length self.old + 1024 ≤ 16384 }
        ensures count { IfOk result (λ n. length self.new ≡ length self.old + n) }
        ensures kept { take (length self.old) self.new ≡ self.old }
        ensures ok { IfOk result (λ n. IsTrue S.tells →
            Takes S.taken S.left (drop (length self.old) self.new) source.old source.new) }
        ensures end { IfOk result (λ n. IsTrue S.tells → n ≡ 0 → S.left source.old ≡ []) }
        ensures same { OnErr result (self.new ≡ self.old) }
        ensures err { OnErr result (IsTrue S.tells → Takes S.taken S.left [] source.old source.new) }
        ensures later { S.faults source.old ≤ S.faults source.new }
        ensures cause { OnErr result (Rose (S.faults source.old) (S.faults source.new)) }
    {
        let (start, end) = with_room(&mut self.bytes, self.start, self.end);
        self.start = start;
        self.end = end;
        let count = read_behind(source, &mut self.bytes, end)?;
        self.end += count;
        Ok(count)
    }
}
