//! A text inside a string of JSON.
ghost use Rattle.std.specs.Prelude.{◌≡◌, ◌<◌};
ghost use Rattle.std.specs.Char.{digit_char};
ghost use Rattle.json.specs.Print.{escape_letter, escape_byte, escape};
ghost use Rattle.paper.specs.Puts.{Puts};

use paper::Paper;

// The letter behind the backslash of a byte that has a short escape, and 0 for another byte.
fn escape_letter(byte: u8) -> u8
    ensures { result ≡ escape_letter byte }
{
    if byte == b'"' || byte == b'\\' {
        return byte;
    }
    if byte == 8 {
        return b'b';
    }
    if byte == 12 {
        return b'f';
    }
    if byte == b'\n' {
        return b'n';
    }
    if byte == b'\r' {
        return b'r';
    }
    if byte == b'\t' {
        return b't';
    }
    0
}

fn digit(value: u8) -> u8
    requires { value < 16 }
    ensures { result ≡ digit_char value }
{
    if value < 10 {
        b'0' + value
    } else {
        b'a' - 10 + value
    }
}

#[tactic(auto, unfolding(json::specs::Print::escape_byte), using(paper::proofs::Calls::once))]
fn put_escaped_byte<P: Paper>(paper: &mut P, byte: u8)
    ensures { Puts P.takes paper.old (escape_byte byte) paper.new }
{
    let letter = escape_letter(byte);
    if letter > 0 {
        return paper.put(&[b'\\', letter]);
    }
    if byte < 32 {
        return paper.put(&[b'\\', b'u', b'0', b'0', digit(byte / 16), digit(byte % 16)]);
    }
    paper.put(&[byte]);
}

#[tactic(auto, using(paper::proofs::Items::one_at))]
fn put_escaped<P: Paper>(paper: &mut P, bytes: &[u8])
    ensures { Puts P.takes paper.old (escape bytes.now) paper.new }
{
    for byte in bytes {
        put_escaped_byte(paper, *byte);
    }
}

/// A paper that stands inside a string of JSON on another paper: what is put on it is escaped there.
#[derive(Drop)]
pub(crate) struct Inside<'p, P: Paper> {
    paper: &'p mut P,
}

impl<'p, P: Paper> Inside<'p, P> {
    /// Inside a string that was begun on this paper.
    pub(crate) fn new(paper: &'p mut P) -> Inside<'p, P>
        ensures same { result.paper.ghost_name ≡ paper.entry.ghost_name }
        ensures paper { result.paper.now ≡ paper.old }
    {
        Inside { paper }
    }
}

impl<'p, P: Paper> Paper for Inside<'p, P> {
    ghost use Rattle.json.specs.Print.{escape};
    ghost use Rattle.paper.specs.Puts.{Puts};

    ghost takes = { λ p bytes q. (q.paper.ghost_name ≡ p.paper.ghost_name) × Puts P.takes p.paper.now (escape bytes) q.paper.now };

    fn put(&mut self, bytes: &[u8]) {
        put_escaped(self.paper, bytes);
    }
}
