//! What is written in words is read back: numbers, hexadecimal digits, the fields of a line, and lines. These functions do nothing: each
//! one's contract is a law.
#![tactic(auto)]

ghost use Rattle.written_words.specs.Laws.{NumbersAreReadBack, DigitsAreWords, WordsAreFields, LinesAreReadBack};

/// A number in decimal digits is a word, which is read as that number.
pub fn numbers_are_read_back()
    ensures { NumbersAreReadBack }
{}

/// Bytes in hexadecimal digits are a word.
#[tactic(auto, using(crate::proofs::Words::hex_word))]
pub fn digits_are_words()
    ensures { DigitsAreWords }
{}

/// Words with a blank between two of them are the fields of their line.
pub fn words_are_fields()
    ensures { WordsAreFields }
{}

/// A line that has no other end within is the first of its text, whatever lines come behind it.
#[tactic(auto, using(crate::proofs::Words::ended_line))]
pub fn lines_are_read_back()
    ensures { LinesAreReadBack }
{}
