//! The downlink that is sent with a command.
ghost use Rattle.std.specs.Prelude.{vec_capacity, IfOk};
ghost use Rattle.meter_slots.specs.Sending.{IsRoom};

use downlink_maker::Downlink;
use outer_io::Memory;
use std::alloc::Global;
use std::marker::Model;
use std::mem;

/// A downlink, where one is sent. It stands in memory of its own, so that an outcome without one is small.
#[derive(Drop)]
pub struct SentDownlink {
    downlinks: Vec<Downlink>,
}

// A contract sees the downlink, where there is one.
impl Model for SentDownlink {
    ghost use Rattle.std.specs.Prelude.{Option, slice_get};
    ghost use Rattle.downlink_maker.specs.Sent.{Sent};

    ghost Value = { Option Sent };

    ghost view = { λ s. slice_get s.downlinks.items 0 };
}

// Takes the room that was kept, or new room.
pub(crate) fn take_room(alloc: Global, kept: &mut Vec<Downlink>) -> Result<Vec<Downlink>, Memory>
    ensures { IfOk result (λ room. IsRoom room.items (vec_capacity room)) }
{
    let mut room = mem::replace(kept, Vec::new(alloc));
    room.clear();
    room.reserve(1)?;
    Ok(room)
}

impl SentDownlink {
    ghost use Rattle.std.specs.Prelude.{◌≡◌, option_copied, vec_capacity};
    ghost use Rattle.meter_slots.specs.Sending.{IsRoom};

    // No downlink.
    fn none(alloc: Global) -> SentDownlink
        ensures { result ≡ None }
    {
        SentDownlink {
            downlinks: Vec::new(alloc),
        }
    }

    // This downlink, in room that was taken before.
    fn some(alloc: Global, downlink: Downlink, room: &mut Vec<Downlink>) -> SentDownlink
        requires { IsRoom room.old.items (vec_capacity room.old) }
        ensures { result ≡ Some downlink }
    {
        let mut downlinks = mem::replace(room, Vec::new(alloc));
        downlinks.push_reserved(downlink);
        SentDownlink { downlinks }
    }

    // The downlink, where there is one, in room that was taken before: the room stays where there is none.
    pub(crate) fn new(
        alloc: Global,
        downlink: Option<Downlink>,
        room: &mut Vec<Downlink>,
    ) -> SentDownlink
        requires { IsRoom room.old.items (vec_capacity room.old) }
        ensures { result ≡ downlink }
    {
        match downlink {
            None => SentDownlink::none(alloc),
            Some(downlink) => SentDownlink::some(alloc, downlink, room),
        }
    }

    /// The downlink, where there is one.
    pub fn get(&self) -> Option<&Downlink>
        ensures { option_copied result ≡ self.now }
    {
        self.downlinks.first()
    }

    // The same again, in room that was taken before.
    pub(crate) fn copied(&self, alloc: Global, room: &mut Vec<Downlink>) -> SentDownlink
        requires { IsRoom room.old.items (vec_capacity room.old) }
        ensures { result ≡ self.now }
    {
        match self.get() {
            None => SentDownlink::none(alloc),
            Some(downlink) => SentDownlink::some(alloc, downlink.copied(), room),
        }
    }
}
