//! A buffer that holds a message.
ghost use Rattle.std.specs.Prelude.{◌≡◌, ◌+◌, ◌≤◌, ◌++◌, ◌↔◌, [], length, IfOk, IsTrue};
ghost use Rattle.std.specs.Borrow.{sem};

use std::alloc::{AllocError, Global};
use std::marker::Model;

/// How many bytes a buffer has room for. The longest message, of 16 fragments with 242 bytes each, has 3,872.
pub const SCRATCH_MAX: usize = 4096;

/// A buffer of at most 4,096 bytes, in which a message is put together and decrypted. Room for all of them is taken when
/// it is made, so that no other call takes memory.
#[derive(Drop)]
pub struct Scratch {
    bytes: Vec<u8>,
}

impl Model for Scratch {
    ghost use Rattle.std.specs.Prelude.{◌≤◌, ℕ, List, length, vec_capacity};
    ghost use Rattle.afl_layer.specs.declared.scratch.TheConstants.{SCRATCH_MAX};

    ghost Value = { List ℕ };

    ghost view = { λ s. s.bytes.items };

    ghost invariant = { λ s. (length s.bytes.items ≤ SCRATCH_MAX) × (SCRATCH_MAX ≤ vec_capacity s.bytes) };
}

impl Scratch {
    ghost use Rattle.afl_layer.specs.Scratch.{LendsBytes};

    /// An empty buffer.
    pub fn new(alloc: Global) -> Result<Scratch, AllocError>
        ensures { IfOk result (λ s. s ≡ []) }
    {
        Ok(Scratch {
            bytes: Vec::with_capacity(alloc, SCRATCH_MAX)?,
        })
    }

    /// Takes all bytes out.
    pub fn clear(&mut self)
        ensures { self.new ≡ [] }
    {
        self.bytes.clear();
    }

    /// Puts bytes behind those that are there. The buffer has to have room for them.
    pub fn extend(&mut self, bytes: &[u8])
        requires { length self.old + length bytes.now ≤ 4096 }
        ensures { self.new ≡ self.old ++ bytes.now }
    {
        self.bytes.extend_from_slice(bytes).unwrap();
    }

    /// How many bytes there are.
    pub fn len(&self) -> usize
        ensures { result ≡ length self.now }
    {
        self.bytes.len()
    }

    /// Whether there is no byte.
    pub fn is_empty(&self) -> bool
        ensures { IsTrue result ↔ (self.now ≡ []) }
    {
        self.bytes.is_empty()
    }

    /// The bytes.
    pub fn bytes(&self) -> &[u8]
        ensures bytes { result.now ≡ self.now }
        ensures most { length self.now ≤ 4096 }
    {
        self.bytes.as_slice()
    }

    /// The bytes, to be changed in place.
    pub fn bytes_mut(&mut self) -> &mut [u8]
        ensures* writes_back { sem 𝓛 (LendsBytes self.entry result) }
        ensures bytes { result.now ≡ self.old }
    {
        self.bytes.as_mut_slice()
    }
}
