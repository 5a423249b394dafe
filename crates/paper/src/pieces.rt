//! Paper, and the pieces of text that are put on it.
ghost use Rattle.std.specs.Prelude.{◌≡◌, ◌++◌, ◌≤◌, ℕ, List, length};
ghost use Rattle.std.specs.Fmt.{decimal, signed_decimal};
ghost use Rattle.paper.specs.Puts.{Puts};
ghost use Rattle.hex.specs.Hex.{encode_lower};

use itoa::Buffer;

/// What a text is put on, piece by piece. No call takes memory, and none answers a fault: a paper keeps it for later.
pub trait Paper {
    /// The second paper is the first one, with these bytes put behind its text.
    ghost takes: { Self → List ℕ → Self → Type 0 };

    /// Puts more bytes behind the text.
    fn put(&mut self, bytes: &[u8])
        ensures { takes self.old bytes.now self.new };
}

/// What has a text that can be put on paper.
pub trait Printed {
    /// The text.
    ghost text: { Self → List ℕ };

    /// Puts the text on a paper.
    fn print<P: Paper>(&self, paper: &mut P)
        ensures { Puts P.takes paper.old (text self.now) paper.new };
}

/// Puts a text.
#[tactic(auto, using(crate::proofs::Calls::once))]
pub fn put_text<P: Paper>(paper: &mut P, text: &str)
    ensures { Puts P.takes paper.old text.now paper.new }
{
    paper.put(text.as_bytes());
}

/// Puts a number, in decimal.
pub fn put_number<P: Paper>(paper: &mut P, number: u64)
    ensures { Puts P.takes paper.old (decimal number) paper.new }
{
    let mut buffer = Buffer::new();
    put_text(paper, buffer.format(number));
}

/// Puts a number below zero or not, in decimal.
pub fn put_signed<P: Paper>(paper: &mut P, number: i128)
    ensures { Puts P.takes paper.old (signed_decimal number) paper.new }
{
    let mut buffer = Buffer::new();
    put_text(paper, buffer.format(number));
}

// How many bytes are put in hexadecimal at once.
const HEX_MOST: usize = 64;

// Puts a few bytes in hexadecimal.
#[tactic(auto, using(crate::proofs::Calls::once))]
fn put_few_hex<P: Paper>(paper: &mut P, bytes: &[u8])
    requires { length bytes.now ≤ HEX_MOST }
    ensures { Puts P.takes paper.old (encode_lower bytes.now) paper.new }
{
    let mut digits = [0; 2 * HEX_MOST];
    let (text, _) = digits.split_at_mut(2 * bytes.len());
    let _fits = hex::encode_to_slice(bytes, text);
    paper.put(text);
}

/// Puts bytes in hexadecimal.
pub fn put_hex<P: Paper>(paper: &mut P, bytes: &[u8])
    ensures { Puts P.takes paper.old (encode_lower bytes.now) paper.new }
{
    let mut left = bytes;
    while left.len() > HEX_MOST {
        let (few, later) = left.split_at(HEX_MOST);
        put_few_hex(paper, few);
        left = later;
    }
    put_few_hex(paper, left);
}
