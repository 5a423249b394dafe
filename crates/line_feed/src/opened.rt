//! The line of a stream that isn't finished yet.
ghost use Rattle.std.specs.Prelude.{◌≡◌};
ghost use Rattle.std.specs.Str.Lines.{strip_carriage_return};

use outer_io::Memory;
use std::alloc::Global;
use std::marker::Model;

/// The most bytes of a line that a stream can be asked to look at.
pub const LONGEST_MAX: usize = 65_535;

// The bytes of a line behind which its newline stands, without a carriage return at their end.
fn without_return(bytes: &[u8]) -> &[u8]
    ensures { result.now ≡ strip_carriage_return bytes.now }
{
    match bytes {
        [line @ .., b'\r'] => line,
        _ => bytes,
    }
}

/// Where a stream stands between two reads: how many of its lines were finished, and what was read of the next one. Of a line that is
/// longer than a line may be nothing is kept.
#[derive(Drop)]
pub struct OpenLine {
    kept: Vec<u8>,
    long: bool,
    finished: u64,
    longest: usize,
}

impl Model for OpenLine {
    ghost use Rattle.std.specs.Prelude.{◌≤◌, ◌+◌, vec_len};
    ghost use Rattle.line_feed.specs.declared.opened.TheConstants.{LONGEST_MAX};
    ghost use Rattle.line_feed.specs.Opened.{Open};

    ghost Value = { Open };

    ghost view = { λ o. record { kept = o.kept.items; long = o.long; finished = o.finished; longest = o.longest } };

    ghost invariant = { λ o. (o.longest ≤ LONGEST_MAX) × (vec_len o.kept ≤ o.longest + 1) };
}

impl OpenLine {
    ghost use Rattle.std.specs.Prelude.{ℕ, ◌≡◌, ◌≤◌, ◌<◌, ◌+◌, ◌++◌, [], List, length, true, false, ◌↔◌, OnOk, MatchOption};
    ghost use Rattle.line_feed.specs.Opened.{Keeps, told_line};

    /// Before the first byte of a stream, of whose lines at most `longest` bytes are looked at.
    pub fn new(alloc: Global, longest: usize) -> OpenLine
        requires { longest ≤ LONGEST_MAX }
        ensures { result ≡ record { kept = []; long = false; finished = 0; longest = longest } }
    {
        OpenLine {
            kept: Vec::new(alloc),
            long: false,
            finished: 0,
            longest,
        }
    }

    /// How many lines were finished.
    pub fn finished(&self) -> u64
        ensures { result ≡ self.now.finished }
    {
        self.finished
    }

    // Adds bytes to the line, none of which is a newline.
    pub(crate) fn add(&mut self, piece: &[u8]) -> Result<(), Memory>
        ensures kept { OnOk result ((line : List ℕ) → Keeps self.old line → Keeps self.new (line ++ piece.now)) }
        ensures finished { self.new.finished ≡ self.old.finished }
        ensures longest { self.new.longest ≡ self.old.longest }
    {
        if self.long {
            return Ok(());
        }
        if piece.len() > self.longest + 1 - self.kept.len() {
            self.kept.clear();
            self.long = true;
            return Ok(());
        }
        self.kept.extend_from_slice(piece)?;
        Ok(())
    }

    // Whether nothing was read of the line yet.
    pub(crate) fn is_empty(&self) -> bool
        ensures { (line : List ℕ) → Keeps self.now line → (result ≡ true) ↔ (line ≡ []) }
    {
        !self.long && self.kept.is_empty()
    }

    // The line, where it isn't too long: its newline stands behind it, or the stream ends there.
    pub(crate) fn text(&self, ended: bool) -> Option<&[u8]>
        ensures { (line : List ℕ) → Keeps self.now line → MatchOption result
            (self.now.longest < length (told_line ended line))
            (λ text. text.now ≡ told_line ended line) }
    {
        if self.long {
            return None;
        }
        let text = if ended {
            without_return(&self.kept)
        } else {
            &self.kept
        };
        if text.len() > self.longest {
            return None;
        }
        Some(text)
    }

    // Begins the line behind this one, which was finished as the one with this number.
    pub(crate) fn begin_next(&mut self, number: u64)
        ensures { self.new ≡ record { kept = []; long = false; finished = number; longest = self.old.longest } }
    {
        self.kept.clear();
        self.long = false;
        self.finished = number;
    }
}
