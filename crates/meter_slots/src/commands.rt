//! The commands of a meter: the queue, the window, and the counter of the downlinks.
ghost use Rattle.std.specs.Prelude.{◌≡◌, ◌≤◌, Option, IfSome, is_some, option_map, length, slice_get, All};
ghost use Rattle.command_queue.specs.declared.command.Command.{Command};
ghost use Rattle.command_queue.specs.Orders.{IsOldestAfterTry};
ghost use Rattle.meter_slots.specs.Journal.{downlink_with};
ghost use Rattle.meter_slots.specs.Laws.{IsPayload, HasPayload, AreReady};

use crate::entry::Outcome;
use crate::hearing::Judged;
use crate::sent::SentDownlink;
use command_queue::{Command, Queue, QueueFault, Window};
use downlink_maker::{Downlink, make_downlink};
use message_check::Reason;
use meter_address::{Address, Commission, Payload};
use std::alloc::Global;
use std::marker::Model;

/// The commands that wait, the window in which one of them waits for a response, and the last counter of a downlink.
#[derive(Drop)]
pub(crate) struct Commands {
    queue: Queue,
    window: Window,
    down: u32,
}

impl Model for Commands {
    ghost use Rattle.command_queue.specs.Orders.{Orders, orders_of, Agrees};

    ghost Value = { Orders };

    ghost view = { λ c. orders_of c.queue c.window c.down };

    ghost invariant = { λ c. Agrees c.window c.queue };
}

// The downlink of the command that is sent now: the oldest one.
fn downlink_now(
    own: Address,
    commission: &Commission,
    queue: &Queue,
    send: bool,
    down: u32,
) -> Option<Downlink>
    ensures { (sent : Option Command) → send ≡ is_some sent → IfSome sent (IsOldestAfterTry queue.now)
        → result ≡ option_map (downlink_with own commission.now down) sent }
{
    if !send {
        return None;
    }
    let oldest = queue.at(0)?;
    Some(make_downlink(own, commission, oldest.id, down, &oldest.payload))
}

// What a command shows of its payload.
#[tactic(auto, using(crate::proofs::Starting::each_byte))]
fn show_payload(bytes: &[u8])
    requires least { 1 ≤ length bytes.now }
    requires most { length bytes.now ≤ 94 }
    ensures { IsPayload bytes.now }
{
    let (_front, _rest) = bytes.split_at(0);
}

// What the command at a place shows of its payload.
fn show_payload_at(queue: &Queue, place: usize)
    ensures { IfSome (slice_get queue.now.commands place) HasPayload }
{
    if let Some(command) = queue.at(place) {
        show_payload(command.payload.bytes());
    }
}

// The payloads of the commands of a queue are payloads.
#[tactic(auto, using(crate::proofs::Starting::all_more))]
fn show_payloads(queue: &Queue)
    ensures { All HasPayload queue.now.commands }
{
    for place in 0..queue.pending() {
        show_payload_at(queue, place);
    }
}

impl Commands {
    ghost use Rattle.std.specs.Prelude.{◌≡◌, ℕ, List, option_map, vec_capacity};
    ghost use Rattle.command_queue.specs.Pending.{IsSound, put_answer, take_answer};
    ghost use Rattle.command_queue.specs.Orders.{Agrees, after_put, after_cancel, expired, after_tick};
    ghost use Rattle.command_queue.specs.Moves.{fresh_orders};
    ghost use Rattle.meter_slots.specs.Journal.{heard, queued, cancelled, orders_heard, stored_counter};
    ghost use Rattle.meter_slots.specs.Keeping.{verdict_as, stored_by};
    ghost use Rattle.meter_slots.specs.Sending.{IsRoom};
    ghost use Rattle.meter_slots.specs.Restoring.{window_fits, may_restore, restored};
    ghost use Rattle.command_queue.specs.declared.command.Command.{Command};

    // No command waits yet.
    pub(crate) fn new(ids: u32, down: u32) -> Commands
        ensures { result ≡ fresh_orders ids down }
    {
        Commands {
            queue: Queue::new(ids),
            window: Window::Idle,
            down,
        }
    }

    // Whether the window may wait for a command behind those that wait, or not.
    fn window_fits(&self, tries: u8, waits: bool) -> bool
        ensures { (c : Command) → c.tries ≡ tries → result ≡ window_fits self.now.queue.commands c waits }
    {
        match self.queue.at(0) {
            Some(_) => !waits,
            None => { if waits { 1 <= tries } else { tries < 3 } }
        }
    }

    // A command that waited before, for which the window waits or not. Where it may not stand behind the others nothing changes.
    #[tactic(auto, unfolding(crate::specs::Restoring::may_restore, crate::specs::Restoring::restored, command_queue::specs::Pending::with_follower))]
    pub(crate) fn restore(&mut self, command: Command, waits: bool) -> bool
        ensures answer { result ≡ may_restore self.old command waits }
        ensures after { self.new ≡ restored self.old command waits }
    {
        let id = command.id;
        if !self.window_fits(command.tries, waits) {
            return false;
        }
        if !self.queue.restore(command) {
            return false;
        }
        if waits {
            self.window = Window::Waiting(id);
        }
        true
    }

    // Each command that waits has 1 to 94 bytes. Nothing is done: the journal's proof needs it.
    pub(crate) fn show_payloads(&self)
        ensures { AreReady self.now }
    {
        show_payloads(&self.queue);
    }

    // Nothing is done: what is written needs it.
    pub(crate) fn show(&self)
        ensures agrees { Agrees self.now.window self.now.queue }
        ensures sound { IsSound self.now.queue }
    {
        let _ = self.queue.pending();
    }

    pub(crate) fn queue(&self) -> &Queue
        ensures { result.now ≡ self.now.queue }
    {
        &self.queue
    }

    pub(crate) fn window(&self) -> Window
        ensures { result ≡ self.now.window }
    {
        self.window
    }

    pub(crate) fn down(&self) -> u32
        ensures { result ≡ self.now.down }
    {
        self.down
    }

    // A command with this payload is to be sent.
    #[tactic(auto, using(command_queue::proofs::Agreement::agrees_put))]
    pub(crate) fn put(&mut self, payload: &Payload) -> Outcome
        ensures outcome { result ≡ queued (put_answer self.old.queue) }
        ensures after { self.new ≡ after_put self.old payload.now }
    {
        match self.queue.put(payload.copied()) {
            Ok(id) => Outcome::Queued(id),
            Err(QueueFault::Full) => Outcome::Refused(Reason::QueueFull),
            Err(QueueFault::IdsSpent) => Outcome::Refused(Reason::IdsSpent),
        }
    }

    // The command with this id isn't to be sent any more.
    pub(crate) fn cancel(&mut self, id: u32) -> Outcome
        ensures outcome { result ≡ cancelled id (take_answer id self.old.queue) }
        ensures after { self.new ≡ after_cancel self.old id }
    {
        match self.window.cancel(&mut self.queue, id) {
            Ok(_) => Outcome::Cancelled(id),
            Err(_) => Outcome::Refused(Reason::NoSuch(id)),
        }
    }

    // The window closes.
    pub(crate) fn tick(&mut self) -> Outcome
        ensures outcome { result ≡ Outcome.Ticked (expired self.old) }
        ensures after { self.new ≡ after_tick self.old }
    {
        let expired = self.window.tick(&mut self.queue);
        Outcome::Ticked { expired }
    }

    // A message was judged: one that is stored moves the commands. The downlink stands in room that was taken before.
    pub(crate) fn hear(
        &mut self,
        alloc: Global,
        own: Address,
        commission: &Commission,
        judged: &Judged,
        response: bool,
        room: &mut Vec<Downlink>,
    ) -> Outcome
        requires { IsRoom room.old.items (vec_capacity room.old) }
        ensures outcome { (bytes : List ℕ)
            → result ≡ heard own commission.now self.old judged.now.access response (verdict_as bytes judged.now.verdict) }
        ensures after { self.new ≡ orders_heard self.old judged.now.access response result }
        ensures stored { (bytes : List ℕ) → stored_counter result ≡ stored_by (verdict_as bytes judged.now.verdict) }
    {
        match &judged.verdict {
            Err(reason) => Outcome::Refused(*reason),
            Ok(None) => Outcome::PartKept,
            Ok(Some(opened)) => {
                let moved = self
                    .window
                    .uplink(&mut self.queue, judged.access, response, &mut self.down);
                let downlink = downlink_now(own, commission, &self.queue, moved.send, self.down);
                Outcome::Stored {
                    counter: opened.counter,
                    confirmed: moved.confirmed,
                    sent: SentDownlink::new(alloc, downlink, room),
                }
            }
        }
    }
}
