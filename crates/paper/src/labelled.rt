//! Pieces of text that many texts share: words with their numbers or bytes.
ghost use Rattle.paper.specs.Puts.{Puts};
ghost use Rattle.paper.specs.Pieces.{optional_text, labelled, labelled_two, labelled_if, labelled_bytes};

use crate::pieces::{Paper, put_hex, put_number, put_text};

/// Puts a number, or a dash for none.
pub fn put_optional<P: Paper>(paper: &mut P, number: Option<u32>)
    ensures { Puts P.takes paper.old (optional_text number) paper.new }
{
    match number {
        None => put_text(paper, "-"),
        Some(number) => put_number(paper, u64::from(number)),
    }
}

/// Puts a word and its number.
#[tactic(auto, unfolding(crate::specs::Pieces::labelled), using(crate::proofs::Calls::two_make))]
pub fn put_labelled<P: Paper>(paper: &mut P, word: &str, number: u64)
    ensures { Puts P.takes paper.old (labelled word.now number) paper.new }
{
    put_text(paper, word);
    put_number(paper, number);
}

/// Puts a word and its two numbers.
#[tactic(auto, unfolding(crate::specs::Pieces::labelled_two), using(crate::proofs::Calls::four_make))]
pub fn put_labelled_two<P: Paper>(paper: &mut P, word: &str, first: u64, second: u64)
    ensures { Puts P.takes paper.old (labelled_two word.now first second) paper.new }
{
    put_text(paper, word);
    put_number(paper, first);
    put_text(paper, " ");
    put_number(paper, second);
}

/// Puts a word and its number, or nothing for none.
#[tactic(auto, using(crate::proofs::Calls::none))]
pub fn put_labelled_if<P: Paper>(paper: &mut P, word: &str, number: Option<u32>)
    ensures { Puts P.takes paper.old (labelled_if word.now number) paper.new }
{
    match number {
        None => {}
        Some(number) => put_labelled(paper, word, u64::from(number)),
    }
}

/// Puts a word and bytes in hexadecimal.
#[tactic(auto, unfolding(crate::specs::Pieces::labelled_bytes), using(crate::proofs::Calls::two_make))]
pub fn put_labelled_bytes<P: Paper>(paper: &mut P, word: &str, bytes: &[u8])
    ensures { Puts P.takes paper.old (labelled_bytes word.now bytes.now) paper.new }
{
    put_text(paper, word);
    put_hex(paper, bytes);
}
