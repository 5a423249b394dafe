//! What a receiver of a made session reads, and where its downlinks go. No read and no write of these fails, so their counts of faults
//! stand at 0.
ghost use Rattle.std.specs.Prelude.{◌≡◌, ◌<◌, ◌≤◌, ℕ, true, false, [], length, take, min};
ghost use Rattle.made_input.specs.Streams.{IsPlace, place_in_all, bytes_at};

use crate::texts::MadeText;
use outer_io::{Failed, Sink, Source};
use std::marker::Model;

// Copies as many first bytes as there are and as there is room for.
fn copy_front(into: &mut [u8], bytes: &[u8]) -> usize
    ensures count { result ≡ min (length into.old) (length bytes.now) }
    ensures front { take result into.new ≡ take result bytes.now }
{
    let count = into.len().min(bytes.len());
    into[..count].copy_from_slice(&bytes[..count]);
    count
}

// The place of the first byte that is left, or that behind all pieces: the piece, and the place in it.
fn next_place(pieces: &[Vec<u8>], piece: usize, at: usize) -> (usize, usize)
    requires { IsPlace (λ p. p.items) pieces.now piece at }
    ensures place { IsPlace (λ p. p.items) pieces.now result.0 result.1 }
    ensures same { place_in_all (λ p. p.items) pieces.now result.0 result.1 ≡ place_in_all (λ p. p.items) pieces.now piece at }
    ensures some { result.0 < length pieces.now → result.1 < length (bytes_at (λ p. p.items) pieces.now result.0) }
{
    let mut piece = piece;
    let mut at = at;
    'pieces: while piece < pieces.len() && at == pieces[piece].len() {
        piece += 1;
        at = 0;
    }
    (piece, at)
}

/// The text that a receiver hears. A read takes all that is left of a piece, as far as the reader has room.
#[derive(Drop)]
pub struct HeardText {
    pieces: Vec<Vec<u8>>,
    piece: usize,
    at: usize,
}

impl Model for HeardText {
    ghost use Rattle.std.specs.Prelude.{take, drop};
    ghost use Rattle.std.specs.List.{flat_map};
    ghost use Rattle.made_input.specs.Streams.{Text, IsPlace, place_in_all};

    ghost Value = { Text };

    ghost view = { λ t.
        let place = place_in_all (λ p. p.items) t.pieces.items t.piece t.at in
        let bytes = flat_map (λ p. p.items) t.pieces.items in
        record { taken = take place bytes; left = drop place bytes } };

    ghost invariant = { λ t. IsPlace (λ p. p.items) t.pieces.items t.piece t.at };
}

impl HeardText {
    /// A text of which nothing was taken yet.
    pub fn new(text: MadeText) -> HeardText
        ensures { result ≡ record { taken = []; left = text } }
    {
        HeardText {
            pieces: text.into_pieces(),
            piece: 0,
            at: 0,
        }
    }
}

impl Source for HeardText {
    ghost tells = { true };

    ghost taken = { λ t. t.taken };

    ghost left = { λ t. t.left };

    ghost faults = { λ _. 0 };

    fn read(&mut self, into: &mut [u8]) -> Result<usize, Failed> {
        let (piece, at) = next_place(&self.pieces, self.piece, self.at);
        let Some(bytes) = self.pieces.get(piece) else {
            return Ok(0);
        };
        let (_, rest) = bytes.split_at(at);
        let count = copy_front(into, rest);
        self.piece = piece;
        self.at = at + count;
        Ok(count)
    }
}

/// Takes downlinks, and keeps none.
#[derive(Clone, Copy)]
pub struct NoDownlinks;

impl Sink for NoDownlinks {
    ghost tells = { false };

    ghost written = { λ _. [] };

    ghost faults = { λ _. 0 };

    fn write(&mut self, bytes: &[u8]) -> Result<usize, Failed> {
        Ok(bytes.len())
    }
}
