//! What a slot hears and what it answers.
ghost use Rattle.std.specs.Prelude.{◌≡◌, ◌≤◌, length};
ghost use Rattle.meter_slots.specs.Laws.{IsPayload};

use crate::past::PastEvent;
use crate::sent::SentDownlink;
use downlink_maker::Downlink;
use frame_formats::{Format, Telegram};
use message_check::Reason;
use meter_address::Payload;
use std::alloc::Global;

/// What comes to a slot.
#[derive(Drop)]
pub enum Event {
    /// A telegram was heard at this moment.
    Hear {
        /// The format of its frame.
        format: Format,
        /// The moment, in the receiver's own unit.
        at: u64,
        /// The telegram, without CRCs.
        telegram: Telegram,
    },
    /// A tick of the meter: the window in which it listens closes, and fragments grow old.
    Tick,
    /// A command with this payload is to be sent to the meter.
    Put(Payload),
    /// The command with this id isn't to be sent any more.
    Cancel(u32),
    /// The meter's second key is this one from now on.
    Rekey([u8; 16]),
}

// What a payload shows of its bytes.
#[tactic(auto, using(crate::proofs::Starting::each_byte))]
fn show_payload(bytes: &[u8])
    requires least { 1 ≤ length bytes.now }
    requires most { length bytes.now ≤ 94 }
    ensures { IsPayload bytes.now }
{
    let (_front, _rest) = bytes.split_at(0);
}

impl Event {
    ghost use Rattle.meter_slots.specs.Laws.{PutsPayload};

    // A command that is put has 1 to 94 bytes. Nothing is done: the journal's proof needs it.
    pub(crate) fn show_payload(&self)
        ensures { PutsPayload self.now }
    {
        if let Event::Put(payload) = self {
            show_payload(payload.bytes());
        }
    }
}

/// What a slot answers.
#[derive(Drop)]
pub enum Outcome {
    /// A message is stored as a reading.
    Stored {
        /// The message counter in mode 7, the access number in mode 5.
        counter: u32,
        /// The id of the command that it confirms.
        confirmed: Option<u32>,
        /// The downlink that is sent with a command, since the meter listens now.
        sent: SentDownlink,
    },
    /// A fragment is held, and no message is whole yet.
    PartKept,
    /// The tick is taken.
    Ticked {
        /// The id of the command that expires: it was sent three times, and never confirmed.
        expired: Option<u32>,
    },
    /// The command is queued with this id.
    Queued(u32),
    /// The command with this id is taken out of the queue.
    Cancelled(u32),
    /// The second key is taken.
    Rekeyed,
    /// The event is refused. Nothing but the journal changes, and the fragments that are held.
    Refused(Reason),
}

impl Outcome {
    ghost use Rattle.std.specs.Prelude.{vec_capacity};
    ghost use Rattle.meter_slots.specs.Sending.{IsRoom};

    // The same outcome again, its downlink in room that was taken before.
    pub(crate) fn copied(&self, alloc: Global, room: &mut Vec<Downlink>) -> Outcome
        requires { IsRoom room.old.items (vec_capacity room.old) }
        ensures { result ≡ self.now }
    {
        match self {
            Outcome::Stored {
                counter,
                confirmed,
                sent,
            } => Outcome::Stored {
                counter: *counter,
                confirmed: *confirmed,
                sent: sent.copied(alloc, room),
            },
            Outcome::PartKept => Outcome::PartKept,
            Outcome::Ticked { expired } => Outcome::Ticked { expired: *expired },
            Outcome::Queued(id) => Outcome::Queued(*id),
            Outcome::Cancelled(id) => Outcome::Cancelled(*id),
            Outcome::Rekeyed => Outcome::Rekeyed,
            Outcome::Refused(reason) => Outcome::Refused(*reason),
        }
    }
}

/// An event of a slot, with its answer.
#[derive(Drop)]
pub struct Entry {
    /// The receiver that it came from, from 1.
    pub source: u32,
    /// The number of its line there, from 1.
    pub line: u32,
    /// What came.
    pub event: PastEvent,
    /// What was answered.
    pub outcome: Outcome,
}
