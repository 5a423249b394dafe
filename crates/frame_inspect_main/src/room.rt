//! Room for what is shown.
use crate::shown::Shown;
use bytes::BytesMut;
use outer_io::Memory;
use paper::{Paper, Printed};
use std::alloc::Global;
use std::marker::Model;

// How many bytes of memory a room takes at once.
const ROOM_MIN: usize = 65_536;

/// Room in which one worker writes what it shows, one item behind another, so that an item takes no memory of its own.
#[derive(Drop)]
pub struct Room {
    bytes: BytesMut,
    failed: bool,
}

impl Model for Room {
    ghost use Rattle.paper.specs.InMemory.{Kept};

    ghost Value = { Kept };

    ghost view = { λ r. record { text = r.bytes.items; failed = r.failed } };
}

// What is put once there was no memory is lost, and the room knows it.
impl Paper for Room {
    ghost use Rattle.paper.specs.InMemory.{Keeps};

    ghost takes = { Keeps };

    fn put(&mut self, bytes: &[u8]) {
        if !self.failed {
            self.failed = self.bytes.extend_from_slice(bytes).is_err();
        }
    }
}

impl Room {
    ghost use Rattle.std.specs.Prelude.{◌≡◌, [], false, IfOk};

    /// Room with nothing written in it.
    pub fn new(alloc: Global) -> Result<Room, Memory>
        ensures { IfOk result (λ room. room ≡ record { text = []; failed = false }) }
    {
        Ok(Room {
            bytes: BytesMut::with_capacity(alloc, ROOM_MIN)?,
            failed: false,
        })
    }

    // Gives up what stands there and isn't shown.
    fn begin(&mut self)
        ensures { self.new ≡ record { text = []; failed = false } }
    {
        self.bytes.clear();
        self.failed = false;
    }

    // What was written, if there was memory for it.
    fn end(&mut self) -> Result<Shown, Memory>
        ensures { IfOk result (λ shown. (self.old.failed ≡ false) × (shown ≡ self.old.text)) }
    {
        if self.failed {
            return Err(Memory);
        }
        let len = self.bytes.len();
        Ok(Shown::new(self.bytes.freeze_to(len)?))
    }

    /// Shows a text, if there is memory for it.
    pub fn shown<T: Printed>(&mut self, thing: &T) -> Result<Shown, Memory>
        ensures { IfOk result (λ shown. shown ≡ T.text thing.now) }
    {
        self.begin();
        thing.print(self);
        Ok(self.end()?)
    }
}
