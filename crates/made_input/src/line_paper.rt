//! Paper for one line.
ghost use Rattle.std.specs.Prelude.{◌≡◌, IfOk};

use outer_io::Memory;
use paper::{Paper, Printed};
use std::alloc::Global;
use std::marker::Model;

// Room for the line of a made telegram, so that it is taken once.
const LINE_ROOM: usize = 128;

// A paper in memory. Once there was none for a text, nothing more is kept.
#[derive(Drop)]
struct LinePaper {
    bytes: Vec<u8>,
    failed: bool,
}

impl Model for LinePaper {
    ghost use Rattle.paper.specs.InMemory.{Kept};

    ghost Value = { Kept };

    ghost view = { λ p. record { text = p.bytes.items; failed = p.failed } };
}

impl Paper for LinePaper {
    ghost use Rattle.paper.specs.InMemory.{Keeps};

    ghost takes = { Keeps };

    fn put(&mut self, bytes: &[u8]) {
        if !self.failed {
            self.failed = self.bytes.extend_from_slice(bytes).is_err();
        }
    }
}

impl LinePaper {
    ghost use Rattle.std.specs.Prelude.{◌≡◌, [], false, IfOk};

    // A paper with no text.
    fn new(alloc: Global) -> Result<LinePaper, Memory>
        ensures { IfOk result (λ paper. paper ≡ record { text = []; failed = false }) }
    {
        Ok(LinePaper {
            bytes: Vec::with_capacity(alloc, LINE_ROOM)?,
            failed: false,
        })
    }

    // The whole text, if there was memory for it.
    fn into_bytes(self) -> Result<Vec<u8>, Memory>
        ensures { IfOk result (λ bytes. (self.failed ≡ false) × (bytes.items ≡ self.text)) }
    {
        if self.failed {
            Err(Memory)
        } else {
            Ok(self.bytes)
        }
    }
}

/// A line in memory, if there is memory for it.
pub(crate) fn written_line<T: Printed>(alloc: Global, thing: &T) -> Result<Vec<u8>, Memory>
    ensures { IfOk result (λ bytes. bytes.items ≡ T.text thing.now) }
{
    let mut paper = LinePaper::new(alloc)?;
    thing.print(&mut paper);
    Ok(paper.into_bytes()?)
}
