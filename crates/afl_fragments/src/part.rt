//! Fragments.
ghost use Rattle.std.specs.Prelude.{◌≡◌, ◌≤◌, ◌<◌, ◌^◌, length, take, All, IfSome};
ghost use Rattle.afl_layer.specs.Header.{Fits};
ghost use Rattle.afl_fragments.specs.Fragment.{IsFragment, IsSpelt, spelt};

use afl_layer::{Afl, write_afl};
use lists::put;
use std::marker::Model;

/// The most bytes of a message that one fragment carries: a telegram has at most 256 bytes, of which ten are the link's
/// and four at least the header's.
pub const PART_MAX: usize = 242;

/// A fragment of a message: its header (EN 13757-7, authentication and fragmentation layer), and the piece of the message
/// behind it, at most 242 bytes. What stands in the array behind the piece counts nowhere.
#[derive(Drop)]
pub struct Part {
    afl: Afl,
    bytes: [u8; PART_MAX],
    len: usize,
}

impl Model for Part {
    ghost use Rattle.std.specs.Prelude.{◌≤◌, take};
    ghost use Rattle.afl_fragments.specs.declared.part.TheConstants.{PART_MAX};
    ghost use Rattle.afl_fragments.specs.Fragment.{Fragment, IsFragment};

    ghost Value = { Fragment };

    ghost view = { λ p. record { afl = p.afl; bytes = take p.len p.bytes } };

    ghost invariant = { λ p. (p.len ≤ PART_MAX) × IsFragment p.afl };
}

/// The most bytes of a fragment as it is sent.
pub const SPELT_MAX: usize = 263;

fn show_two(field: Option<u16>)
    ensures { IfSome field (λ n. n < 2 ^ 16) }
{}

fn show_four(field: Option<u32>)
    ensures { IfSome field (λ n. n < 2 ^ 32) }
{}

fn show_eight(field: Option<[u8; 8]>)
    ensures { IfSome field (λ mac. length mac ≡ 8) }
{}

fn show_fid(fid: u8)
    ensures { fid < 2 ^ 8 }
{}

// The fields of a header have the sizes of their types.
fn show_fits(afl: Afl)
    ensures { Fits afl }
{
    show_fid(afl.fid);
    show_two(afl.ki);
    show_four(afl.mcr);
    show_eight(afl.mac);
    show_two(afl.ml);
}

// Bytes are bytes.
fn show_bytes(bytes: &[u8])
    ensures { All (λ b. b < 256) bytes.now }
{
    let (_front, _rest) = bytes.split_at(0);
}

impl Part {
    /// It can be sent again. Nothing is done: what is held is written with it.
    pub fn show(&self)
        ensures { IsSpelt self.now }
    {
        let mut out = [0; SPELT_MAX];
        let len = self.spell(&mut out);
        show_bytes(&out[..len]);
    }

    /// Writes the fragment as it is sent, and answers how many bytes it has.
    pub fn spell(&self, out: &mut [u8; SPELT_MAX]) -> usize
        ensures text { take result out.new ≡ spelt self.now }
        ensures fragment { IsFragment self.now.afl }
        ensures fits { Fits self.now.afl }
        ensures most { length self.now.bytes ≤ 242 }
    {
        show_fits(self.afl);
        let mut header = [0; 21];
        let len = write_afl(&self.afl, &mut header);
        let end = put(out, 0, &header[..len]);
        put(out, end, &self.bytes[..self.len])
    }

    /// The fragment with this header and this piece.
    pub fn new(afl: Afl, bytes: &[u8]) -> Part
        requires fragment { IsFragment afl }
        requires most { length bytes.now ≤ 242 }
        ensures header { result.afl ≡ afl }
        ensures piece { result.bytes ≡ bytes.now }
    {
        let mut kept = [0; PART_MAX];
        kept[..bytes.len()].copy_from_slice(bytes);
        Part {
            afl,
            bytes: kept,
            len: bytes.len(),
        }
    }

    /// The header.
    pub fn afl(&self) -> Afl
        ensures header { result ≡ self.now.afl }
        ensures fragment { IsFragment self.now.afl }
        ensures first { 1 ≤ self.now.afl.fid }
    {
        self.afl
    }

    /// The piece of the message.
    pub fn bytes(&self) -> &[u8]
        ensures piece { result.now ≡ self.now.bytes }
        ensures most { length self.now.bytes ≤ 242 }
    {
        &self.bytes[..self.len]
    }
}
