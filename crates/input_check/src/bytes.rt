//! What is wrong with the bytes of a state or a roster as a whole.
ghost use Rattle.std.specs.Prelude.{◌≡◌, ◌≤◌, length};
ghost use Rattle.paper.specs.Puts.{Puts};
ghost use Rattle.input_check.specs.Bytes.{has_mark, unmarked, has_byte, mark_words, said_of, tab_words, return_words, bytes_words};

use paper::{Paper, put_text};

/// Whether a byte order mark of UTF-8 stands in front.
pub(crate) fn has_mark(bytes: &[u8]) -> bool
    ensures { result ≡ has_mark bytes.now }
{
    let [a, b, c, ..] = bytes else {
        return false;
    };
    *a == 0xef && *b == 0xbb && *c == 0xbf
}

/// The text behind the mark.
pub(crate) fn unmarked(bytes: &[u8]) -> &[u8]
    ensures text { result.now ≡ unmarked bytes.now }
    ensures short { length result.now ≤ length bytes.now }
{
    let [_, _, _, text @ ..] = bytes else {
        return bytes;
    };
    if has_mark(bytes) { text } else { bytes }
}

fn has_byte(byte: u8, bytes: &[u8]) -> bool
    ensures { result ≡ has_byte byte bytes.now }
{
    bytes.iter().any(|other| *other == byte)
}

// Puts what is said of a file; the word says what the file is.
#[tactic(auto, unfolding(crate::specs::Bytes::said_of), using(paper::proofs::Calls::three_make))]
fn put_said<P: Paper>(paper: &mut P, word: &str, words: &str)
    ensures { Puts P.takes paper.old (said_of word.now words.now) paper.new }
{
    put_text(paper, word);
    put_text(paper, ": ");
    put_text(paper, words);
}

/// Puts that a mark stands in front, where one does; the word says what the file is.
#[tactic(auto, using(paper::proofs::Calls::none))]
pub(crate) fn put_mark_words<P: Paper>(paper: &mut P, word: &str, bytes: &[u8])
    ensures { Puts P.takes paper.old (mark_words word.now bytes.now) paper.new }
{
    if has_mark(bytes) {
        put_said(
            paper,
            word,
            "a byte order mark (ef bb bf) stands in front, which is no part of it: save it without one\n",
        );
    }
}

#[tactic(auto, using(paper::proofs::Calls::none))]
fn put_tab_words<P: Paper>(paper: &mut P, word: &str, bytes: &[u8])
    ensures { Puts P.takes paper.old (tab_words word.now bytes.now) paper.new }
{
    if has_byte(b'\t', bytes) {
        put_said(
            paper,
            word,
            "there are tabs in it: write one space in the place of each\n",
        );
    }
}

#[tactic(auto, using(paper::proofs::Calls::none))]
fn put_return_words<P: Paper>(paper: &mut P, word: &str, bytes: &[u8])
    ensures { Puts P.takes paper.old (return_words word.now bytes.now) paper.new }
{
    if has_byte(b'\r', bytes) {
        put_said(
            paper,
            word,
            "there are carriage returns in it: one in front of a newline is right, any other is not\n",
        );
    }
}

/// Puts what may be behind the faults of a file with these bytes; the word says what the file is.
#[tactic(auto, unfolding(crate::specs::Bytes::bytes_words), using(paper::proofs::Calls::two_make))]
pub(crate) fn put_bytes_words<P: Paper>(paper: &mut P, word: &str, bytes: &[u8])
    ensures { Puts P.takes paper.old (bytes_words word.now bytes.now) paper.new }
{
    put_tab_words(paper, word, bytes);
    put_return_words(paper, word, bytes);
}
