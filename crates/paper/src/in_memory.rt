//! A text in memory.
ghost use Rattle.std.specs.Prelude.{◌≡◌, [], false, IfOk};

use crate::pieces::{Paper, Printed};
use outer_io::Memory;
use std::alloc::Global;
use std::marker::Model;

// A paper in memory. Once there was none for a text, nothing more is kept.
#[derive(Drop)]
struct MemoryPaper {
    bytes: Vec<u8>,
    failed: bool,
}

impl Model for MemoryPaper {
    ghost use Rattle.paper.specs.InMemory.{Kept};

    ghost Value = { Kept };

    ghost view = { λ p. record { text = p.bytes.items; failed = p.failed } };
}

impl Paper for MemoryPaper {
    ghost use Rattle.paper.specs.InMemory.{Keeps};

    ghost takes = { Keeps };

    fn put(&mut self, bytes: &[u8]) {
        if !self.failed {
            self.failed = self.bytes.extend_from_slice(bytes).is_err();
        }
    }
}

impl MemoryPaper {
    ghost use Rattle.std.specs.Prelude.{◌≡◌, [], false, IfOk};

    // A paper with no text.
    fn new(alloc: Global) -> MemoryPaper
        ensures { result ≡ record { text = []; failed = false } }
    {
        MemoryPaper {
            bytes: Vec::new(alloc),
            failed: false,
        }
    }

    // The whole text, if there was memory for it.
    fn into_bytes(self) -> Result<Vec<u8>, Memory>
        ensures { IfOk result (λ bytes. (self.failed ≡ false) × (bytes.items ≡ self.text)) }
    {
        if self.failed {
            Err(Memory)
        } else {
            Ok(self.bytes)
        }
    }
}

/// A text in memory, if there is memory for it.
pub fn written<T: Printed>(alloc: Global, thing: &T) -> Result<Vec<u8>, Memory>
    ensures { IfOk result (λ bytes. bytes.items ≡ T.text thing.now) }
{
    let mut paper = MemoryPaper::new(alloc);
    thing.print(&mut paper);
    Ok(paper.into_bytes()?)
}
