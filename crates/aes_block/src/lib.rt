//! AES-128 (FIPS 197): the round keys of a key, and one block of 16 bytes encrypted or decrypted in place.
//!
//! The code works on columns as words of 32 bits, with tables; the contracts speak of FIPS 197's mathematics alone
//! (`specs/Field.antt`, `specs/Block.antt`). Nothing is claimed of the cipher's strength, nor of constant time: the
//! tables are looked up at places that depend on the key and the block.
#![tactic(auto)]

ghost use Rattle.std.specs.Prelude.{◌≡◌, ◌+◌, ◌<◌, ℕ, List};
ghost use Rattle.aes_block.specs.Block.{add, sub_bytes, shift_rows, mix_columns, round_key, encrypt, decrypt};
ghost use Rattle.aes_block.specs.Words.{AreWordsOf};

pub use inverse::InverseKeys;
use rounds::{added, forward_round, last_round, loaded, next_words, stored};
use std::marker::Model;

mod inverse;
/// What holds of the definitions themselves.
pub mod laws;
mod rounds;
/// The tables of the substitution and of the mixing.
pub mod tables;

/// A key of 16 bytes, ready for use: the 44 words of its round keys (FIPS 197, section 5.2).
#[derive(Clone, Copy)]
pub struct Keys {
    words: [u32; 44],
}

// A contract sees the key alone.
impl Model for Keys {
    ghost use Rattle.std.specs.Prelude.{◌≡◌, ℕ, List};
    ghost use Rattle.std.proofs.Common.{sym};
    ghost use Rattle.aes_block.specs.Words.{first_key, round_words, AreExpanded};

    ghost Value = { List ℕ };

    ghost view = { λ k. first_key k.words };

    ghost invariant = { λ k. AreExpanded k.words };

    ghost inverse = { λ key. record { words = round_words 11 key } };

    ghost inverse_ok = { λ k h. λ i. record { words = sym h.whole i } };
}

impl Keys {
    /// Makes the round keys of a key.
    pub fn new(key: &[u8; 16]) -> Keys
        ensures { result ≡ key.now }
    {
        let mut words = [0; 44];
        let mut last = loaded(key);
        words[..4].copy_from_slice(&last);
        for n in 0..10 {
            last = next_words(last, n);
            words[4 * n + 4..4 * n + 8].copy_from_slice(&last);
        }
        Keys { words }
    }

    // The words of round key n.
    pub(crate) fn round_words(&self, n: usize) -> [u32; 4]
        requires { n < 11 }
        ensures { AreWordsOf result (round_key self.now n) }
    {
        [
            self.words[4 * n],
            self.words[4 * n + 1],
            self.words[4 * n + 2],
            self.words[4 * n + 3],
        ]
    }

    // The words of a block and round key n, added.
    pub(crate) fn add_round_key(&self, words: [u32; 4], n: usize) -> [u32; 4]
        requires { n < 11 }
        ensures { (b : List ℕ) → AreWordsOf words b → AreWordsOf result (add b (round_key self.now n)) }
    {
        added(words, self.round_words(n))
    }

    // Round n, which isn't the last. The rounds of a block stand one by one below: in a loop LLVM would keep the four
    // words in one vector, and take it apart again for each look-up.
    fn round(&self, words: [u32; 4], n: usize) -> [u32; 4]
        requires { n < 11 }
        ensures { (b : List ℕ) →
            AreWordsOf words b → AreWordsOf result (add (mix_columns (shift_rows (sub_bytes b))) (round_key self.now n)) }
    {
        self.add_round_key(forward_round(words), n)
    }

    /// Encrypts a block in place (FIPS 197, section 5.1).
    pub fn encrypt(&self, block: &mut [u8; 16])
        ensures { block.new ≡ encrypt self.now block.old }
    {
        let state = self.add_round_key(loaded(block), 0);
        let state = self.round(state, 1);
        let state = self.round(state, 2);
        let state = self.round(state, 3);
        let state = self.round(state, 4);
        let state = self.round(state, 5);
        let state = self.round(state, 6);
        let state = self.round(state, 7);
        let state = self.round(state, 8);
        let state = self.round(state, 9);
        *block = stored(self.add_round_key(last_round(state), 10));
    }

    /// Decrypts a block in place (FIPS 197, section 5.3). Where many blocks are decrypted under a key, `InverseKeys` saves
    /// making it ready for each.
    pub fn decrypt(&self, block: &mut [u8; 16])
        ensures { block.new ≡ decrypt self.now block.old }
    {
        InverseKeys::new(self).decrypt(block);
    }
}

/// Adds a block to another in place, element by element: the exclusive or of their bytes.
pub fn add_block(block: &mut [u8; 16], other: &[u8; 16])
    ensures { block.new ≡ add block.old other.now }
{
    for i in 0..16 {
        block[i] ^= other[i];
    }
}
