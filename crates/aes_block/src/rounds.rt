//! The steps of the rounds on the four words of a block, and the step from one round key to the next.

ghost use Rattle.std.specs.Prelude.{◌≡◌, ◌<◌, ℕ, List};
ghost use Rattle.std.specs.Int.{w32, to_be_bytes};
ghost use Rattle.aes_block.specs.Field.{substitute, inverse_substitute};
ghost use Rattle.aes_block.specs.Block.{add, sub_bytes, inverse_sub_bytes, shift_rows, inverse_shift_rows, column_product, mix_columns};
ghost use Rattle.aes_block.specs.Block.{inverse_mix_columns, mix_polynomial, inverse_mix_polynomial, power_of_x, next_round_key};
ghost use Rattle.aes_block.specs.Words.{word, rows, AreWordsOf};

use crate::tables::{
    inverse_mixed_substitution, inverse_mixture, inverse_substituted, mixed_substitution,
    substituted,
};

// The substituted bytes of four words, one row of each, as a mixed column.
fn mixed_word(a: u32, b: u32, c: u32, d: u32) -> u32
    ensures { result ≡ word (column_product mix_polynomial (rows substitute a b c d)) }
{
    mixed_substitution(0, a.to_be_bytes()[0])
        ^ mixed_substitution(1, b.to_be_bytes()[1])
        ^ mixed_substitution(2, c.to_be_bytes()[2])
        ^ mixed_substitution(3, d.to_be_bytes()[3])
}

// The same as a column that isn't mixed.
fn substituted_word(a: u32, b: u32, c: u32, d: u32) -> u32
    ensures { result ≡ word (rows substitute a b c d) }
{
    u32::from_be_bytes([
        substituted(a.to_be_bytes()[0]),
        substituted(b.to_be_bytes()[1]),
        substituted(c.to_be_bytes()[2]),
        substituted(d.to_be_bytes()[3]),
    ])
}

// The bytes of four words, one row of each, with the substitution taken back, as a column that is mixed back.
fn inverse_mixed_substituted_word(a: u32, b: u32, c: u32, d: u32) -> u32
    ensures { result ≡ word (column_product inverse_mix_polynomial (rows inverse_substitute a b c d)) }
{
    inverse_mixed_substitution(0, a.to_be_bytes()[0])
        ^ inverse_mixed_substitution(1, b.to_be_bytes()[1])
        ^ inverse_mixed_substitution(2, c.to_be_bytes()[2])
        ^ inverse_mixed_substitution(3, d.to_be_bytes()[3])
}

// The bytes of four words, one row of each, with the substitution taken back.
fn inverse_substituted_word(a: u32, b: u32, c: u32, d: u32) -> u32
    ensures { result ≡ word (rows inverse_substitute a b c d) }
{
    u32::from_be_bytes([
        inverse_substituted(a.to_be_bytes()[0]),
        inverse_substituted(b.to_be_bytes()[1]),
        inverse_substituted(c.to_be_bytes()[2]),
        inverse_substituted(d.to_be_bytes()[3]),
    ])
}

// A column mixed back.
fn inverse_mixed_word(column: u32) -> u32
    ensures { result ≡ word (column_product inverse_mix_polynomial (to_be_bytes w32 column)) }
{
    let [a, b, c, d] = column.to_be_bytes();
    inverse_mixture(0, a) ^ inverse_mixture(1, b) ^ inverse_mixture(2, c) ^ inverse_mixture(3, d)
}

/// A round up to its round key.
pub fn forward_round(s: [u32; 4]) -> [u32; 4]
    ensures { (b : List ℕ) → AreWordsOf s b → AreWordsOf result (mix_columns (shift_rows (sub_bytes b))) }
{
    [
        mixed_word(s[0], s[1], s[2], s[3]),
        mixed_word(s[1], s[2], s[3], s[0]),
        mixed_word(s[2], s[3], s[0], s[1]),
        mixed_word(s[3], s[0], s[1], s[2]),
    ]
}

/// The last round, which doesn't mix, up to its round key.
pub fn last_round(s: [u32; 4]) -> [u32; 4]
    ensures { (b : List ℕ) → AreWordsOf s b → AreWordsOf result (shift_rows (sub_bytes b)) }
{
    [
        substituted_word(s[0], s[1], s[2], s[3]),
        substituted_word(s[1], s[2], s[3], s[0]),
        substituted_word(s[2], s[3], s[0], s[1]),
        substituted_word(s[3], s[0], s[1], s[2]),
    ]
}

/// A round of the inverse cipher up to its round key.
pub fn inverse_round(s: [u32; 4]) -> [u32; 4]
    ensures { (b : List ℕ) → AreWordsOf s b → AreWordsOf result (inverse_sub_bytes (inverse_shift_rows b)) }
{
    [
        inverse_substituted_word(s[0], s[3], s[2], s[1]),
        inverse_substituted_word(s[1], s[0], s[3], s[2]),
        inverse_substituted_word(s[2], s[1], s[0], s[3]),
        inverse_substituted_word(s[3], s[2], s[1], s[0]),
    ]
}

/// A round of the equivalent inverse cipher up to its round key: the same, and the columns mixed back.
pub fn backward_round(s: [u32; 4]) -> [u32; 4]
    ensures { (b : List ℕ) → AreWordsOf s b → AreWordsOf result (inverse_mix_columns (inverse_sub_bytes (inverse_shift_rows b))) }
{
    [
        inverse_mixed_substituted_word(s[0], s[3], s[2], s[1]),
        inverse_mixed_substituted_word(s[1], s[0], s[3], s[2]),
        inverse_mixed_substituted_word(s[2], s[1], s[0], s[3]),
        inverse_mixed_substituted_word(s[3], s[2], s[1], s[0]),
    ]
}

/// The columns mixed back.
pub fn inverse_mixed_words(s: [u32; 4]) -> [u32; 4]
    ensures { (b : List ℕ) → AreWordsOf s b → AreWordsOf result (inverse_mix_columns b) }
{
    [
        inverse_mixed_word(s[0]),
        inverse_mixed_word(s[1]),
        inverse_mixed_word(s[2]),
        inverse_mixed_word(s[3]),
    ]
}

/// The words of two blocks, added.
pub fn added(s: [u32; 4], t: [u32; 4]) -> [u32; 4]
    ensures { (b k : List ℕ) → AreWordsOf s b → AreWordsOf t k → AreWordsOf result (add b k) }
{
    [s[0] ^ t[0], s[1] ^ t[1], s[2] ^ t[2], s[3] ^ t[3]]
}

/// The words of a block.
pub fn loaded(block: &[u8; 16]) -> [u32; 4]
    ensures { AreWordsOf result block.now }
{
    let b = *block;
    [
        u32::from_be_bytes([b[0], b[1], b[2], b[3]]),
        u32::from_be_bytes([b[4], b[5], b[6], b[7]]),
        u32::from_be_bytes([b[8], b[9], b[10], b[11]]),
        u32::from_be_bytes([b[12], b[13], b[14], b[15]]),
    ]
}

/// The block of four words.
pub fn stored(s: [u32; 4]) -> [u8; 16]
    ensures { (b : List ℕ) → AreWordsOf s b → result ≡ b }
{
    let mut block = [0; 16];
    block[..4].copy_from_slice(&s[0].to_be_bytes());
    block[4..8].copy_from_slice(&s[1].to_be_bytes());
    block[8..12].copy_from_slice(&s[2].to_be_bytes());
    block[12..].copy_from_slice(&s[3].to_be_bytes());
    block
}

// x^n in the field, for n from 0 on (FIPS 197, section 5.2).
const ROUND_CONSTANTS: [u8; 10] = [0x01, 0x02, 0x04, 0x08, 0x10, 0x20, 0x40, 0x80, 0x1b, 0x36];

#[tactic(auto, using(crate::proofs::ByteTables::round_constant_at))]
fn round_constant(n: usize) -> u8
    requires { n < 10 }
    ensures { result ≡ power_of_x n }
{
    ROUND_CONSTANTS[n]
}

/// The words of the round key after round key n.
pub fn next_words(k: [u32; 4], n: usize) -> [u32; 4]
    requires { n < 10 }
    ensures { (b : List ℕ) → AreWordsOf k b → AreWordsOf result (next_round_key n b) }
{
    let [a, b, c, d] = k[3].to_be_bytes();
    let turned = u32::from_be_bytes([
        substituted(b) ^ round_constant(n),
        substituted(c),
        substituted(d),
        substituted(a),
    ]);
    let first = k[0] ^ turned;
    let second = k[1] ^ first;
    let third = k[2] ^ second;
    [first, second, third, k[3] ^ third]
}
