//! The bytes of a report that were read and belong to no line that was listed.
ghost use Rattle.std.specs.Prelude.{◌≡◌, ◌<◌, ◌≤◌, ◌+◌, [], length, take, drop, IsTrue, IfOk, OnErr};
ghost use Rattle.outer_io.specs.Bytes.{Moves};
ghost use Rattle.outer_io.specs.Faults.{Rose};
ghost use Rattle.reading_list.specs.Pages.{EndsAt};

use memchr::memrchr;
use outer_io::{Failed, Source};
use std::marker::Model;

// How many bytes have room.
const PAGE_MAX: usize = 65_536;

// How many bytes of a line are kept until its end is read: enough to tell that it is too long, with a carriage return among them.
const OPEN_MAX: usize = 8_194;

/// Bytes in the order in which they were read.
#[derive(Drop)]
pub(crate) struct Page {
    bytes: [u8; PAGE_MAX],
    end: usize,
}

impl Model for Page {
    ghost use Rattle.std.specs.Prelude.{ℕ, ◌≤◌, List, take};
    ghost use Rattle.reading_list.specs.declared.page.TheConstants.{PAGE_MAX};

    ghost Value = { List ℕ };

    ghost view = { λ p. take p.end p.bytes };

    ghost invariant = { λ p. p.end ≤ PAGE_MAX };
}

/// How many of the first bytes the lines have that end with a newline.
pub(crate) fn ended_len(bytes: &[u8]) -> usize
    ensures within { result ≤ length bytes.now }
    ensures ends { EndsAt bytes.now result }
{
    match memrchr(b'\n', bytes) {
        Some(place) => place + 1,
        None => 0,
    }
}

// Reads at most `most` bytes behind the first `end`.
fn read_behind<S: Source>(
    source: &mut S,
    bytes: &mut [u8],
    end: usize,
    most: usize,
) -> Result<usize, Failed>
    requires some { 0 < most }
    requires within { end + most ≤ length bytes.old }
    ensures few { IfOk result (λ n. n ≤ most) }
    ensures kept { take end bytes.new ≡ take end bytes.old }
    ensures ok { IfOk result (λ n. IsTrue S.tells →
        Moves (take n (drop end bytes.new)) (S.taken source.old) (S.left source.old) (S.taken source.new) (S.left source.new)) }
    ensures end { IfOk result (λ n. IsTrue S.tells → n ≡ 0 → S.left source.old ≡ []) }
    ensures err { OnErr result (IsTrue S.tells →
        Moves [] (S.taken source.old) (S.left source.old) (S.taken source.new) (S.left source.new)) }
    ensures later { S.faults source.old ≤ S.faults source.new }
    ensures cause { OnErr result (Rose (S.faults source.old) (S.faults source.new)) }
{
    let (_, behind) = bytes.split_at_mut(end);
    let (room, _) = behind.split_at_mut(most);
    source.read(room)
}

impl Page {
    ghost use Rattle.std.specs.Prelude.{◌≡◌, ◌<◌, ◌≤◌, ◌+◌, [], length, take, drop, IsTrue, IfOk, OnErr};
    ghost use Rattle.outer_io.specs.Bytes.{Moves};
    ghost use Rattle.outer_io.specs.Faults.{Rose};

    /// No bytes.
    pub(crate) fn new() -> Page
        ensures { result ≡ [] }
    {
        Page {
            bytes: [0; PAGE_MAX],
            end: 0,
        }
    }

    /// The bytes.
    pub(crate) fn bytes(&self) -> &[u8]
        ensures bytes { result.now ≡ self.now }
        ensures most { length self.now ≤ 65536 }
    {
        &self.bytes[..self.end]
    }

    /// Reads at most `most` bytes more, and answers how many, none at the source's end.
    pub(crate) fn fill<S: Source>(&mut self, source: &mut S, most: usize) -> Result<usize, Failed>
        requires some { 0 < most }
        requires room { length self.old < 65536 }
        ensures few { IfOk result (λ n. n ≤ most) }
        ensures count { IfOk result (λ n. length self.new ≡ length self.old + n) }
        ensures kept { take (length self.old) self.new ≡ self.old }
        ensures ok { IfOk result (λ n. IsTrue S.tells → Moves (drop (length self.old) self.new)
            (S.taken source.old) (S.left source.old) (S.taken source.new) (S.left source.new)) }
        ensures end { IfOk result (λ n. IsTrue S.tells → n ≡ 0 → S.left source.old ≡ []) }
        ensures err { OnErr result (IsTrue S.tells →
            Moves [] (S.taken source.old) (S.left source.old) (S.taken source.new) (S.left source.new)) }
        ensures later { S.faults source.old ≤ S.faults source.new }
        ensures cause { OnErr result (Rose (S.faults source.old) (S.faults source.new)) }
    {
        let room = most.min(PAGE_MAX - self.end);
        let count = read_behind(source, &mut self.bytes, self.end, room)?;
        self.end += count;
        Ok(count)
    }

    /// Gives up the first bytes, so many, and keeps of those behind them what may be needed of a line without its end.
    pub(crate) fn give_up(&mut self, count: usize)
        requires { count ≤ length self.old }
        ensures { self.new ≡ take 8194 (drop count self.old) }
    {
        let kept = OPEN_MAX.min(self.end - count);
        self.bytes.copy_within(count..count + kept, 0);
        self.end = kept;
    }
}
