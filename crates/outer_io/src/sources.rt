//! Where bytes come from.
ghost use Rattle.std.specs.Prelude.{◌≡◌, ◌<◌, ◌≤◌, ℕ, Bool, List, [], length, take, IsTrue, IfOk, OnErr};
ghost use Rattle.outer_io.specs.Faults.{Rose};
ghost use Rattle.outer_io.specs.Bytes.{Moves};

use crate::Failed;

/// A source of bytes.
pub trait Source {
    /// Whether contracts know the bytes of the sources of this type.
    ghost tells: { Bool };

    /// The bytes taken so far, where the type tells them.
    ghost taken: { Self → List ℕ };

    /// The bytes that are left, where the type tells them.
    ghost left: { Self → List ℕ };

    /// How often a read has failed, a count that never falls.
    ghost faults: { Self → ℕ };

    /// Takes some of the bytes that are left, at most as many as `into` has room for, and puts them at its front.
    /// `Ok(0)` says that the source is at its end. `Failed` takes nothing.
    fn read(&mut self, into: &mut [u8]) -> Result<usize, Failed>
        requires { 0 < length into.old }
        ensures room { IfOk result (λ n. n ≤ length into.old) }
        ensures ok { IfOk result (λ n. IsTrue tells →
            Moves (take n into.new) (taken self.old) (left self.old) (taken self.new) (left self.new)) }
        ensures end { IfOk result (λ n. IsTrue tells → n ≡ 0 → left self.old ≡ []) }
        ensures err { OnErr result (IsTrue tells →
            Moves [] (taken self.old) (left self.old) (taken self.new) (left self.new)) }
        ensures later { faults self.old ≤ faults self.new }
        ensures cause { OnErr result (Rose (faults self.old) (faults self.new)) };
}
