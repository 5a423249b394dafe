//! Bytes that are put one after another, the last one first, as the standard sends numbers and texts.

ghost use Rattle.std.specs.Prelude.{◌≡◌};
ghost use Rattle.paper.specs.Puts.{Puts};
ghost use Rattle.full_text.specs.Values.{backwards, byte_text, character_text, is_plain};

use paper::{Paper, put_hex, put_labelled_bytes};

/// How each byte is put.
#[derive(Clone, Copy)]
pub enum ByteForm {
    /// As two hexadecimal digits.
    Digits,
    /// As a character.
    Character,
}

/// Whether a byte is a character that stands in JSON and between commas as it is.
fn is_plain(byte: u8) -> bool
    ensures { result ≡ is_plain byte }
{
    byte >= b' ' && byte <= b'~' && byte != b'"' && byte != b'\\' && byte != b',' && byte != b'%'
}

#[tactic(auto, using(paper::proofs::Calls::once))]
fn put_plain<P: Paper>(paper: &mut P, bytes: &[u8])
    ensures { Puts P.takes paper.old bytes.now paper.new }
{
    paper.put(bytes);
}

fn put_character<P: Paper>(paper: &mut P, byte: u8)
    ensures { Puts P.takes paper.old (character_text byte) paper.new }
{
    if is_plain(byte) {
        put_plain(paper, &[byte]);
    } else {
        put_labelled_bytes(paper, "%", &[byte]);
    }
}

fn put_byte<P: Paper>(paper: &mut P, form: ByteForm, byte: u8)
    ensures { Puts P.takes paper.old (byte_text form byte) paper.new }
{
    match form {
        ByteForm::Digits => put_hex(paper, &[byte]),
        ByteForm::Character => put_character(paper, byte),
    }
}

/// Puts all bytes, the last one first.
pub fn put_backwards<P: Paper>(paper: &mut P, form: ByteForm, sent: &[u8])
    ensures { Puts P.takes paper.old (backwards form sent.now) paper.new }
{
    let mut left = sent.len();
    'bytes: while left > 0 {
        left -= 1;
        put_byte(paper, form, sent[left]);
    }
}
