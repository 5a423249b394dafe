//! Where bytes go.
ghost use Rattle.std.specs.Prelude.{◌≡◌, ◌<◌, ◌≤◌, ◌++◌, ℕ, Bool, List, length, take, IsTrue, IfOk, OnOk, OnErr};
ghost use Rattle.outer_io.specs.Faults.{Rose};
ghost use Rattle.outer_io.specs.Bytes.{AppendsFront};

use crate::Failed;

/// A sink of bytes.
pub trait Sink {
    /// Whether contracts know the bytes of the sinks of this type.
    ghost tells: { Bool };

    /// The bytes written so far, where the type tells them.
    ghost written: { Self → List ℕ };

    /// How often a write has failed, a count that never falls.
    ghost faults: { Self → ℕ };

    /// Appends some first bytes of `bytes`, at least one. `Failed` appends nothing.
    fn write(&mut self, bytes: &[u8]) -> Result<usize, Failed>
        requires { 0 < length bytes.now }
        ensures some { IfOk result (λ n. (0 < n) × (n ≤ length bytes.now)) }
        ensures ok { IfOk result (λ n. IsTrue tells → written self.new ≡ written self.old ++ take n bytes.now) }
        ensures err { OnErr result (IsTrue tells → written self.new ≡ written self.old) }
        ensures later { faults self.old ≤ faults self.new }
        ensures cause { OnErr result (Rose (faults self.old) (faults self.new)) };
}

/// Appends all bytes. On `Failed` some first ones of them were appended.
#[tactic(auto, using(crate::proofs::Parts::written_more))]
pub fn write_all<K: Sink>(sink: &mut K, bytes: &[u8]) -> Result<(), Failed>
    ensures ok { OnOk result (IsTrue K.tells → K.written sink.new ≡ K.written sink.old ++ bytes.now) }
    ensures err { OnErr result (IsTrue K.tells → AppendsFront bytes.now (K.written sink.old) (K.written sink.new)) }
    ensures later { K.faults sink.old ≤ K.faults sink.new }
    ensures cause { OnErr result (Rose (K.faults sink.old) (K.faults sink.new)) }
{
    let mut at = 0;
    while at < bytes.len() {
        let (_, rest) = bytes.split_at(at);
        at += sink.write(rest)?;
    }
    Ok(())
}
