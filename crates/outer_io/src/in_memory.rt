//! Sources and sinks in memory, of which chosen calls fail.
ghost use Rattle.std.specs.Prelude.{◌≡◌, ◌<◌, ◌≤◌, ◌+◌, ◌++◌, ◌↔◌, ℕ, [], true, length, take, Some, None, IsErr, IfOk, OnOk, OnErr, min};
ghost use Rattle.std.specs.Option.{ForSome};
ghost use Rattle.outer_io.specs.Faults.{Rose, next_count};
ghost use Rattle.outer_io.specs.Bytes.{Moves};
ghost use Rattle.outer_io.specs.InMemory.{IsNextListed, limited};

use crate::listed::Calls;
use crate::{Failed, Sink, Source};
use std::alloc::Global;
use std::marker::Model;

// As many, or the size where there is one and it is less.
fn limited(size: Option<usize>, count: usize) -> usize
    requires { ForSome size (λ n. 0 < n) }
    ensures is { result ≡ limited size count }
    ensures some { 0 < count → 0 < result }
    ensures few { result ≤ count }
{
    match size {
        None => count,
        Some(size) => size.min(count),
    }
}

// Copies as many first bytes as there are, at most so many.
fn copy_front(into: &mut [u8], bytes: &[u8], most: usize) -> usize
    requires { most ≤ length into.old }
    ensures count { result ≡ min most (length bytes.now) }
    ensures front { take result into.new ≡ take result bytes.now }
{
    let count = most.min(bytes.len());
    into[..count].copy_from_slice(&bytes[..count]);
    count
}

/// Bytes in memory. The reads whose numbers, counted from 1, are listed fail and take nothing; each other one takes all
/// that is left, as far as the reader has room and the source's size allows.
#[derive(Drop)]
pub struct MemorySource {
    bytes: Vec<u8>,
    at: usize,
    size: Option<usize>,
    calls: Calls,
}

impl Model for MemorySource {
    ghost use Rattle.std.specs.Prelude.{◌<◌, ◌≤◌, take, drop, vec_len};
    ghost use Rattle.std.specs.Option.{ForSome};
    ghost use Rattle.outer_io.specs.InMemory.{ReadState};

    ghost Value = { ReadState };

    ghost view = { λ s. record {
      taken = take s.at s.bytes.items;
      left = drop s.at s.bytes.items;
      size = s.size;
      listed = s.calls.listed.items;
      calls = s.calls.made;
      faults = s.calls.faults;
    } };

    ghost invariant = { λ s. (s.at ≤ vec_len s.bytes) × ForSome s.size (λ n. 0 < n) };
}

impl MemorySource {
    /// A source of these bytes, of which the reads with the numbers in `fail`, counted from 1, fail. Each other read takes
    /// all that is left, or as much of it as there is room for.
    pub fn new(bytes: Vec<u8>, fail: Vec<u64>) -> MemorySource
        ensures { result ≡ record { taken = []; left = bytes.items; size = None; listed = fail.items; calls = 0; faults = 0 } }
    {
        MemorySource {
            bytes,
            at: 0,
            size: None,
            calls: Calls::new(fail),
        }
    }

    /// A source as `new` makes one, but that gives its bytes in pieces: a read takes at most `size` of them, at least 1.
    pub fn pieces(bytes: Vec<u8>, size: usize, fail: Vec<u64>) -> MemorySource
        requires { 0 < size }
        ensures { result ≡ record { taken = []; left = bytes.items; size = Some size; listed = fail.items; calls = 0; faults = 0 } }
    {
        MemorySource {
            bytes,
            at: 0,
            size: Some(size),
            calls: Calls::new(fail),
        }
    }

    /// A source of these bytes, of which no read fails.
    pub fn steady(alloc: Global, bytes: Vec<u8>) -> MemorySource
        ensures { result ≡ record { taken = []; left = bytes.items; size = None; listed = []; calls = 0; faults = 0 } }
    {
        MemorySource::new(bytes, Vec::new(alloc))
    }
}

impl Source for MemorySource {
    ghost tells = { true };

    ghost taken = { λ s. s.taken };

    ghost left = { λ s. s.left };

    ghost faults = { λ s. s.faults };

    fn read(&mut self, into: &mut [u8]) -> Result<usize, Failed>
        requires { 0 < length into.old }

        // As every source does.
        ensures room { IfOk result (λ n. n ≤ length into.old) }
        ensures ok { IfOk result (λ n. Moves (take n into.new) self.old.taken self.old.left self.new.taken self.new.left) }
        ensures end { IfOk result (λ n. n ≡ 0 → self.old.left ≡ []) }
        ensures err { OnErr result (Moves [] self.old.taken self.old.left self.new.taken self.new.left) }
        ensures later { self.old.faults ≤ self.new.faults }
        ensures cause { OnErr result (Rose self.old.faults self.new.faults) }

        // It fails exactly at its listed reads, and takes all that is left, as far as room and size allow, at the others.
        ensures listed { IsErr result ↔ IsNextListed self.old.listed self.old.calls }
        ensures all { IfOk result (λ n. n ≡ min (limited self.old.size (length into.old)) (length self.old.left)) }
        ensures same_list { self.new.listed ≡ self.old.listed }
        ensures same_size { self.new.size ≡ self.old.size }
        ensures calls { self.new.calls ≡ next_count self.old.calls }
        ensures faultless { OnOk result (self.new.faults ≡ self.old.faults) }
        ensures one_fault { OnErr result (self.new.faults ≡ next_count self.old.faults) }
    {
        if self.calls.next_fails() {
            return Err(self.calls.fault());
        }
        let (_, rest) = self.bytes.split_at(self.at);
        let most = limited(self.size, into.len());
        let count = copy_front(into, rest, most);
        self.at += count;
        Ok(count)
    }
}

/// Bytes in memory. The writes whose numbers, counted from 1, are listed fail and take nothing, and so do those that find
/// no memory; each other one takes all bytes, as far as the sink's size allows.
#[derive(Drop)]
pub struct MemorySink {
    bytes: Vec<u8>,
    size: Option<usize>,
    calls: Calls,
}

impl Model for MemorySink {
    ghost use Rattle.std.specs.Prelude.{◌<◌};
    ghost use Rattle.std.specs.Option.{ForSome};
    ghost use Rattle.outer_io.specs.InMemory.{WriteState};

    ghost Value = { WriteState };

    ghost view = { λ s. record {
      written = s.bytes.items;
      size = s.size;
      listed = s.calls.listed.items;
      calls = s.calls.made;
      faults = s.calls.faults;
    } };

    ghost invariant = { λ s. ForSome s.size (λ n. 0 < n) };
}

impl MemorySink {
    /// An empty sink, of which the writes with the numbers in `fail`, counted from 1, fail.
    pub fn new(alloc: Global, fail: Vec<u64>) -> MemorySink
        ensures { result ≡ record { written = []; size = None; listed = fail.items; calls = 0; faults = 0 } }
    {
        MemorySink {
            bytes: Vec::new(alloc),
            size: None,
            calls: Calls::new(fail),
        }
    }

    /// A sink as `new` makes one, but that takes its bytes in pieces: a write takes at most `size` of them, at least 1.
    pub fn pieces(alloc: Global, size: usize, fail: Vec<u64>) -> MemorySink
        requires { 0 < size }
        ensures { result ≡ record { written = []; size = Some size; listed = fail.items; calls = 0; faults = 0 } }
    {
        MemorySink {
            bytes: Vec::new(alloc),
            size: Some(size),
            calls: Calls::new(fail),
        }
    }

    /// An empty sink, of which no write fails but for want of memory.
    pub fn steady(alloc: Global) -> MemorySink
        ensures { result ≡ record { written = []; size = None; listed = []; calls = 0; faults = 0 } }
    {
        MemorySink::new(alloc, Vec::new(alloc))
    }

    /// The bytes written so far.
    pub fn bytes(&self) -> &[u8]
        ensures { result.now ≡ self.now.written }
    {
        &self.bytes
    }
}

impl Sink for MemorySink {
    ghost tells = { true };

    ghost written = { λ s. s.written };

    ghost faults = { λ s. s.faults };

    fn write(&mut self, bytes: &[u8]) -> Result<usize, Failed>
        requires { 0 < length bytes.now }

        // As every sink does.
        ensures some { IfOk result (λ n. (0 < n) × (n ≤ length bytes.now)) }
        ensures ok { IfOk result (λ n. self.new.written ≡ self.old.written ++ take n bytes.now) }
        ensures err { OnErr result (self.new.written ≡ self.old.written) }
        ensures later { self.old.faults ≤ self.new.faults }
        ensures cause { OnErr result (Rose self.old.faults self.new.faults) }

        // It fails at its listed writes, else only for want of memory, and takes all bytes, as far as its size allows, where it
        // does not fail.
        ensures listed { IsNextListed self.old.listed self.old.calls → IsErr result }
        ensures all { IfOk result (λ n. n ≡ limited self.old.size (length bytes.now)) }
        ensures same_list { self.new.listed ≡ self.old.listed }
        ensures same_size { self.new.size ≡ self.old.size }
        ensures calls { self.new.calls ≡ next_count self.old.calls }
        ensures faultless { OnOk result (self.new.faults ≡ self.old.faults) }
        ensures one_fault { OnErr result (self.new.faults ≡ next_count self.old.faults) }
    {
        let count = limited(self.size, bytes.len());
        if self.calls.next_fails() || self.bytes.extend_from_slice(&bytes[..count]).is_err() {
            return Err(self.calls.fault());
        }
        Ok(count)
    }
}
