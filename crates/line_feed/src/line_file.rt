//! A file of lines that is appended to.
ghost use Rattle.std.specs.Prelude.{◌≡◌, ◌<◌, ◌≤◌, ◌++◌, List, ℕ, length, take, IsTrue, IfOk, OnOk, OnErr};
ghost use Rattle.outer_io.specs.Faults.{Rose};
ghost use Rattle.line_feed.specs.Files.{ShowsEnd};

use outer_io::{Failed, Sink};

/// A file that is appended to: what was written are the bytes that it has.
pub trait LineFile: Sink {
    /// Puts the last bytes of the file at the front of `into`, as many as it has and there is room for, and answers how many. Nothing changes.
    fn last(&mut self, into: &mut [u8]) -> Result<usize, Failed>
        ensures room { IfOk result (λ n. n ≤ length into.old) }
        ensures length { length into.new ≡ length into.old }
        ensures shown { IfOk result (λ n. IsTrue Self.tells → ShowsEnd (Self.written self.old) (take n into.new) (length into.old)) }
        ensures same { IsTrue Self.tells → Self.written self.new ≡ Self.written self.old }
        ensures later { Self.faults self.old ≤ Self.faults self.new }
        ensures cause { OnErr result (Rose (Self.faults self.old) (Self.faults self.new)) };

    /// Takes the last `count` bytes away. `Failed` takes none.
    fn cut(&mut self, count: usize) -> Result<(), Failed>
        ensures cut { OnOk result (IsTrue Self.tells → (front half : List ℕ) → Self.written self.old ≡ front ++ half → length half ≡ count →
            Self.written self.new ≡ front) }
        ensures same { OnErr result (IsTrue Self.tells → Self.written self.new ≡ Self.written self.old) }
        ensures later { Self.faults self.old ≤ Self.faults self.new }
        ensures cause { OnErr result (Rose (Self.faults self.old) (Self.faults self.new)) };
}
