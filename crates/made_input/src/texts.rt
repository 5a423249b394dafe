//! The text that a receiver of a made session hears.
ghost use Rattle.std.specs.Prelude.{◌≡◌, ◌++◌, [], IfOk, OnOk};
ghost use Rattle.std.specs.List.{flat_map};

use outer_io::Memory;
use std::alloc::Global;
use std::marker::Model;

// Pieces, one behind the other.
fn joined(alloc: Global, pieces: &[Vec<u8>]) -> Result<Vec<u8>, Memory>
    ensures { IfOk result (λ bytes. bytes.items ≡ flat_map (λ p. p.items) pieces.now) }
{
    let mut bytes = Vec::new(alloc);
    for piece in pieces {
        bytes.extend_from_slice(piece)?;
    }
    Ok(bytes)
}

/// A text in pieces, one behind the other: each stays where the thread that made it wrote it.
#[derive(Drop)]
pub struct MadeText {
    pieces: Vec<Vec<u8>>,
}

impl Model for MadeText {
    ghost use Rattle.std.specs.Prelude.{ℕ, List};
    ghost use Rattle.std.specs.List.{flat_map};

    ghost Value = { List ℕ };

    ghost view = { λ t. flat_map (λ p. p.items) t.pieces.items };
}

impl MadeText {
    /// A text of no pieces.
    pub(crate) fn new(alloc: Global) -> MadeText
        ensures { result ≡ [] }
    {
        MadeText {
            pieces: Vec::new(alloc),
        }
    }

    /// Puts a piece behind the text.
    pub(crate) fn push(&mut self, piece: Vec<u8>) -> Result<(), Memory>
        ensures { OnOk result (self.new ≡ self.old ++ piece.items) }
    {
        self.pieces.push(piece)?;
        Ok(())
    }

    /// The pieces.
    pub(crate) fn into_pieces(self) -> Vec<Vec<u8>>
        ensures { flat_map (λ p. p.items) result.items ≡ self }
    {
        self.pieces
    }

    /// The text in one piece.
    pub fn joined(&self, alloc: Global) -> Result<Vec<u8>, Memory>
        ensures { IfOk result (λ bytes. bytes.items ≡ self.now) }
    {
        joined(alloc, self.pieces.as_slice())
    }
}
