//! An event of a journal.
use crate::entry::Event;
use std::marker::Model;
use std::snapshot::Snapshot;

/// What came to a slot, as its journal says it. Only contracts see it, so that it takes no room, however long a telegram was.
#[derive(Drop)]
pub struct PastEvent {
    event: Snapshot<Event>,
}

// A contract sees the event.
impl Model for PastEvent {
    ghost use Rattle.meter_slots.specs.declared.entry.Event.{Event};

    ghost Value = { Event };

    ghost view = { λ p. p.event.value };
}

impl PastEvent {
    ghost use Rattle.std.specs.Prelude.{◌≡◌};

    // This event.
    pub(crate) fn of(event: &Event) -> PastEvent
        ensures { result ≡ event.now }
    {
        PastEvent {
            event: Snapshot::of(event),
        }
    }
}
