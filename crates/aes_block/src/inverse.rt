//! The equivalent inverse cipher (FIPS 197, section 5.3.5): the round keys of the inner rounds are mixed back once a key, so
//! that a round looks up one table a byte, as a round of the cipher does.
ghost use Rattle.std.specs.Prelude.{◌≡◌, ◌+◌, ◌≤◌, ◌<◌, ℕ, List};
ghost use Rattle.aes_block.specs.Block.{add, inverse_sub_bytes, inverse_shift_rows, inverse_mix_columns, round_key, decrypt};
ghost use Rattle.aes_block.specs.Words.{AreWordsOf};

use crate::Keys;
use crate::rounds::{added, backward_round, inverse_mixed_words, inverse_round, loaded, stored};
use std::marker::Model;

/// A key ready for decryption: its round keys, and the words of the inner ones mixed back.
#[derive(Drop)]
pub struct InverseKeys<'k> {
    keys: &'k Keys,
    mixed: [[u32; 4]; 9],
}

// A contract sees the key alone.
impl<'k> Model for InverseKeys<'k> {
    ghost use Rattle.std.specs.Prelude.{ℕ, List};
    ghost use Rattle.aes_block.specs.Words.{AreMixedBack};

    ghost Value = { List ℕ };

    ghost view = { λ k. k.keys.now };

    ghost invariant = { λ k. AreMixedBack k.mixed k.keys.now };
}

impl<'k> InverseKeys<'k> {
    /// Makes the round keys of a key ready for decryption.
    pub fn new(keys: &'k Keys) -> InverseKeys<'k>
        ensures { result ≡ keys.now }
    {
        let mut mixed = [[0; 4]; 9];
        for n in 0..9 {
            mixed[n] = inverse_mixed_words(keys.round_words(n + 1));
        }
        InverseKeys { keys, mixed }
    }

    // The words of a block and round key n, added.
    fn add_round_key(&self, words: [u32; 4], n: usize) -> [u32; 4]
        requires { n < 11 }
        ensures { (b : List ℕ) → AreWordsOf words b → AreWordsOf result (add b (round_key self.now n)) }
    {
        self.keys.add_round_key(words, n)
    }

    // The inverse cipher's round with round key n, which is neither the first nor the last.
    fn round_back(&self, words: [u32; 4], n: usize) -> [u32; 4]
        requires first { 1 ≤ n }
        requires last { n < 10 }
        ensures { (b : List ℕ) →
            AreWordsOf words b
            → AreWordsOf result (inverse_mix_columns (add (inverse_sub_bytes (inverse_shift_rows b)) (round_key self.now n))) }
    {
        added(backward_round(words), self.mixed[n - 1])
    }

    /// Decrypts a block in place (FIPS 197, section 5.3).
    pub fn decrypt(&self, block: &mut [u8; 16])
        ensures { block.new ≡ decrypt self.now block.old }
    {
        let state = self.add_round_key(loaded(block), 10);
        let state = self.round_back(state, 9);
        let state = self.round_back(state, 8);
        let state = self.round_back(state, 7);
        let state = self.round_back(state, 6);
        let state = self.round_back(state, 5);
        let state = self.round_back(state, 4);
        let state = self.round_back(state, 3);
        let state = self.round_back(state, 2);
        let state = self.round_back(state, 1);
        *block = stored(self.add_round_key(inverse_round(state), 0));
    }
}
