//! A paper in memory that is used again and again.
ghost use Rattle.std.specs.Prelude.{◌≡◌, [], false};

use paper::Paper;
use std::alloc::Global;
use std::marker::Model;

/// Text in memory, which is given on and cleared. Once there was no memory for a piece, nothing more is kept.
#[derive(Drop)]
pub struct Sheet {
    bytes: Vec<u8>,
    failed: bool,
}

impl Model for Sheet {
    ghost use Rattle.paper.specs.InMemory.{Kept};

    ghost Value = { Kept };

    ghost view = { λ s. record { text = s.bytes.items; failed = s.failed } };
}

impl Paper for Sheet {
    ghost use Rattle.paper.specs.InMemory.{Keeps};

    ghost takes = { Keeps };

    fn put(&mut self, bytes: &[u8]) {
        if !self.failed {
            self.failed = self.bytes.extend_from_slice(bytes).is_err();
        }
    }
}

impl Sheet {
    ghost use Rattle.std.specs.Prelude.{◌≡◌, [], false, length};

    /// No text.
    pub fn new(alloc: Global) -> Sheet
        ensures { result ≡ record { text = []; failed = false } }
    {
        Sheet {
            bytes: Vec::new(alloc),
            failed: false,
        }
    }

    /// The text.
    pub fn bytes(&self) -> &[u8]
        ensures { result.now ≡ self.now.text }
    {
        &self.bytes
    }

    /// Whether there was no memory for some piece since the sheet was made.
    pub fn failed(&self) -> bool
        ensures { result ≡ self.now.failed }
    {
        self.failed
    }

    /// Gives up the text.
    pub fn clear(&mut self)
        ensures { self.new ≡ record { text = []; failed = self.old.failed } }
    {
        self.bytes.clear();
    }
}
