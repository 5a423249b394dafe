//! What the entries of a slot come to, and what an event is answered by it.
ghost use Rattle.std.specs.Prelude.{◌≡◌, ◌++◌, ℕ, List, [], length, option_to_list, ◌≤◌, IfOk, OnErr, vec_capacity};
ghost use Rattle.afl_fragments.specs.Held.{held_bytes};
ghost use Rattle.meter_slots.specs.Journal.{reading_at, stored_in};
ghost use Rattle.meter_slots.specs.Sending.{IsRoom};
ghost use Rattle.meter_slots.specs.Keeping.{held_by, verdict_as, room_for, Admits, VerdictHasRoom};

use crate::commands::Commands;
use crate::entry::{Event, Outcome};
use crate::fragments::{Fragments, held_bytes, take_place, tick};
use crate::hearing::{has_response_control, hear, receive};
use crate::judge::{Judge, Verdict};
use crate::known::KnownMeter;
use crate::reading::{Reading, Room};
use crate::repeated::LastWhole;
use crate::sent::take_room;
use crate::start::MeterStart;
use afl_layer::{SCRATCH_MAX, Scratch};
use command_queue::{Queue, Window};
use downlink_maker::Downlink;
use frame_formats::Telegram;
use message_check::{Layers, Reason};
use meter_address::{Address, Commission};
use outer_io::Memory;
use std::alloc::Global;
use std::marker::Model;

/// What a slot keeps of what its entries come to: what messages are judged by, the fragments that are held, and the commands.
#[derive(Drop)]
pub(crate) struct Standing {
    // What may be heard again.
    heard: LastWhole,
    judge: Judge,
    commands: Commands,
    // The buffer in which messages are opened, from the first one on.
    message: Option<Scratch>,
    // Room for the next downlink, from the first message on.
    room: Vec<Downlink>,
    parts: Fragments,
}

impl Model for Standing {
    ghost use Rattle.std.specs.Option.{ForSome};
    ghost use Rattle.meter_slots.specs.Keeping.{Kept, Brings, held_by};

    ghost Value = { Kept };

    ghost view = { λ s. record { commission = s.judge.commission; last = s.judge.last; parts = held_by s.parts; orders = s.commands } };

    ghost invariant = { λ s. ForSome s.heard (Brings s.judge.commission) };
}

/// What an event is answered, and the reading that is stored with it.
#[derive(Drop)]
pub struct Served {
    /// What is answered.
    pub outcome: Outcome,
    /// The reading, where one is stored.
    pub reading: Option<Reading>,
}

// How many bytes the payload of what a telegram stores has at most. A whole message is joined to no fragment that is held.
fn room_needed(parts: &Fragments, telegram: &Telegram, layers: &Result<Layers, Reason>) -> usize
    requires { IfOk layers.now (λ l. l.body ≤ length telegram.now) }
    ensures { result ≡ room_for layers.now (held_by parts.now) telegram.now }
{
    match layers {
        Err(_) => 0,
        Ok(layers) => {
            let len = telegram.bytes().len() - layers.body;
            if layers.is_fragment() {
                held_bytes(parts).min(SCRATCH_MAX) + len
            } else {
                len
            }
        }
    }
}

// The buffer that was kept, or a new one.
fn take_buffer(alloc: Global, kept: &mut Option<Scratch>) -> Result<Scratch, Memory> {
    match kept.take() {
        Some(buffer) => Ok(buffer),
        None => Ok(Scratch::new(alloc)?),
    }
}

// What hearing a telegram takes memory for.
#[derive(Drop)]
struct Rooms {
    // Room for the payload of what is stored.
    payload: Room,
    // The buffer in which messages are opened.
    message: Scratch,
    // Room for a downlink.
    downlink: Vec<Downlink>,
}

// Takes all of it, and a place for the telegram's fragment, where it has one.
fn take_rooms(
    alloc: Global,
    parts: &mut Fragments,
    message: &mut Option<Scratch>,
    downlink: &mut Vec<Downlink>,
    telegram: &Telegram,
    layers: &Result<Layers, Reason>,
) -> Result<Rooms, Memory>
    requires within { IfOk layers.now (λ l. l.body ≤ length telegram.now) }
    ensures held { held_by parts.new ≡ held_by parts.old }
    ensures place { IfOk result (λ _. IfOk layers.now (λ l. Admits l.afl parts.new)) }
    ensures payload { IfOk result (λ rooms. room_for layers.now (held_by parts.new) telegram.now ≤ rooms.payload) }
    ensures downlink { IfOk result (λ rooms. IsRoom rooms.downlink.items (vec_capacity rooms.downlink)) }
{
    take_place(alloc, parts, layers)?;
    Ok(Rooms {
        payload: Room::with_capacity(alloc, room_needed(parts, telegram, layers))?,
        message: take_buffer(alloc, message)?,
        downlink: take_room(alloc, downlink)?,
    })
}

// The reading of what is stored, which stands in the buffer, in room that was taken before.
fn reading_from(at: u64, room: Room, verdict: &Verdict, message: &Scratch) -> Option<Reading>
    requires { VerdictHasRoom message.now room verdict.now }
    ensures { option_to_list result ≡ reading_at at (stored_in (verdict_as message.now verdict.now)) }
{
    let Ok(Some(opened)) = verdict else {
        return None;
    };
    let (_, payload) = message.bytes().split_at(opened.from);
    Some(Reading {
        at,
        counter: opened.counter,
        payload: room.fill(payload),
    })
}

// An answer with which nothing is stored.
fn plain(outcome: Outcome) -> Served
    ensures outcome { result.outcome ≡ outcome }
    ensures reading { result.reading ≡ None }
{
    Served {
        outcome,
        reading: None,
    }
}

impl Standing {
    ghost use Rattle.std.specs.Prelude.{◌≡◌, ◌≤◌, ◌++◌, List, option_to_list, IfOk, IfSome, OnErr};
    ghost use Rattle.std.specs.Option.{ForSome, option_copied};
    ghost use Rattle.meter_address.specs.Commission.{most_last};
    ghost use Rattle.afl_fragments.specs.Held.{Told, StandsFor};
    ghost use Rattle.afl_fragments.specs.Short.{cut_down};
    ghost use Rattle.meter_slots.specs.declared.entry.Event.TheVariants.{Hear};
    ghost use Rattle.frame_formats.specs.declared.format.Format.{Format};
    ghost use Rattle.meter_slots.specs.Journal.{commission_of, told_by, access_at, key_answer, other_given, rekeyed};
    ghost use Rattle.meter_slots.specs.Laws.{AreReady};
    ghost use Rattle.meter_slots.specs.Journal.{orders_after, answer, stored, reading_of};
    ghost use Rattle.meter_slots.specs.Keeping.{standing_for, last_after, Moves, StoresInRange, IsRefusedAlone};

    /// What is known before the first entry, and the last reading.
    pub(crate) fn new(alloc: Global, start: MeterStart) -> (Standing, Option<Reading>)
        ensures commission { result.0.commission ≡ commission_of start }
        ensures last { result.0.last ≡ start.last }
        ensures fits { ForSome start.last (λ n. n ≤ most_last start.mode) }
        ensures parts { StandsFor result.0.parts start.told }
        ensures orders { result.0.orders ≡ start.orders }
        ensures ready { AreReady start.orders }
        ensures reading { result.1 ≡ start.reading }
    {
        start.show_commands();
        let MeterStart {
            mut commission,
            parts,
            commands,
            reading,
        } = start;
        commission.down = commands.down();
        commission.ids = commands.queue().ids();
        let standing = Standing {
            judge: Judge::new(commission),
            parts,
            commands,
            message: None,
            room: Vec::new(alloc),
            heard: LastWhole::none(),
        };
        (standing, reading)
    }

    /// What is known behind the last entry, with this last reading.
    pub(crate) fn known<'a>(&'a self, reading: Option<&'a Reading>) -> KnownMeter<'a>
        requires held { (told : List Told) × StandsFor self.now.parts told }
        requires fits { ForSome self.now.last (λ n. n ≤ most_last self.now.commission.mode) }
        ensures told { (told : List Told) → StandsFor self.now.parts told → result.told ≡ cut_down told }
        ensures commission { commission_of result ≡ record self.now.commission {
          last = self.now.last;
          down = self.now.orders.down;
          ids = self.now.orders.queue.ids;
        } }
        ensures orders { result.orders ≡ self.now.orders }
        ensures reading { result.reading ≡ option_copied reading.entry }
    {
        let mut commission = *self.judge.commission();
        commission.last = self.judge.last();
        KnownMeter {
            commission,
            parts: &self.parts,
            commands: &self.commands,
            reading,
        }
    }

    /// The commission, with the second key that the meter has now.
    pub(crate) fn commission(&self) -> &Commission
        ensures { result.now ≡ self.now.commission }
    {
        self.judge.commission()
    }

    /// The last number.
    pub(crate) fn last(&self) -> Option<u32>
        ensures { result ≡ self.now.last }
    {
        self.judge.last()
    }

    /// The commands that wait.
    pub(crate) fn queue(&self) -> &Queue
        ensures { result.now ≡ self.now.orders.queue }
    {
        self.commands.queue()
    }

    /// Whether one of them was sent and waits for a response.
    pub(crate) fn window(&self) -> Window
        ensures { result ≡ self.now.orders.window }
    {
        self.commands.window()
    }

    /// The last counter of a downlink.
    pub(crate) fn down(&self) -> u32
        ensures { result ≡ self.now.orders.down }
    {
        self.commands.down()
    }

    // Answers a telegram. For want of memory nothing changes.
    fn hear(
        &mut self,
        alloc: Global,
        own: Address,
        at: u64,
        telegram: &Telegram,
    ) -> Result<Served, Memory>
        ensures outcome { IfOk result (λ served. (format : Format) (told : List Told) → StandsFor self.old.parts told
            → served.outcome ≡ answer self.old.commission own (standing_for self.old told) (Hear format at telegram.now)) }
        ensures reading { IfOk result (λ served. (format : Format) (told : List Told) → StandsFor self.old.parts told
            → option_to_list served.reading
            ≡ reading_at at (stored self.old.commission (standing_for self.old told) (Hear format at telegram.now))) }
        ensures commission { IfOk result (λ _. self.new.commission ≡ self.old.commission) }
        ensures last { IfOk result (λ served. self.new.last ≡ last_after self.old.last served.outcome) }
        ensures parts { IfOk result (λ served. (format : Format) (told : List Told) → StandsFor self.old.parts told
            → StandsFor self.new.parts (told_by self.old.commission (Hear format at telegram.now) served.outcome ++ told)) }
        ensures orders { IfOk result (λ served. (format : Format) (told : List Told) → StandsFor self.old.parts told
            → self.new.orders ≡ orders_after self.old.orders
            (access_at self.old.commission (standing_for self.old told) (Hear format at telegram.now))
            (Hear format at telegram.now) served.outcome) }
        ensures number { IfOk result (λ served. StoresInRange self.old.commission.mode served.outcome) }
        ensures err { OnErr result (self.new ≡ self.old) }
    {
        let mode = self.judge.mode();
        let layers = receive(mode, telegram);
        let rooms = take_rooms(
            alloc,
            &mut self.parts,
            &mut self.message,
            &mut self.room,
            telegram,
            &layers,
        )?;
        let Rooms {
            payload,
            mut message,
            mut downlink,
        } = rooms;
        let judged = hear(&self.judge, &mut self.parts, telegram, layers, &mut message);
        let response = has_response_control(telegram.control());
        let outcome = self.commands.hear(
            alloc,
            own,
            self.judge.commission(),
            &judged,
            response,
            &mut downlink,
        );
        self.judge.count(&outcome);
        let reading = reading_from(at, payload, &judged.verdict, &message);
        self.heard.learn(mode, telegram, &layers, &judged.verdict);
        self.message = Some(message);
        self.room = downlink;
        Ok(Served { outcome, reading })
    }

    // Why a telegram is refused that was stored before.
    fn known_refusal(&self, telegram: &Telegram) -> Option<Reason>
        ensures { IfSome result (IsRefusedAlone self.now.commission self.now.last telegram.now) }
    {
        let got = self.heard.counter_of(telegram)?;
        let last = self.judge.last()?;
        if got <= last {
            Some(Reason::Stale { got, last })
        } else {
            None
        }
    }

    // Takes a second key, under which what was heard may say something else.
    fn rekey(&mut self, key: &[u8; 16]) -> Outcome
        ensures outcome { result ≡ key_answer self.old.commission.mode }
        ensures after { self.new ≡ record self.old {
          commission = rekeyed self.old.commission (other_given self.old.commission.mode key.now self.old.commission.other);
        } }
    {
        self.heard.forget();
        self.judge.rekey(key)
    }

    /// Answers an event. For want of memory nothing changes.
    pub(crate) fn answer(
        &mut self,
        alloc: Global,
        own: Address,
        event: &Event,
    ) -> Result<Served, Memory>
        ensures outcome { IfOk result (λ served. (told : List Told) → StandsFor self.old.parts told
            → served.outcome ≡ answer self.old.commission own (standing_for self.old told) event.now) }
        ensures reading { IfOk result (λ served. (told : List Told) → StandsFor self.old.parts told → option_to_list served.reading
            ≡ reading_of event.now (stored self.old.commission (standing_for self.old told) event.now)) }
        ensures moves { IfOk result (λ served. (told : List Told) → StandsFor self.old.parts told
            → Moves self.old self.new told event.now served.outcome) }
        ensures number { IfOk result (λ served. StoresInRange self.old.commission.mode served.outcome) }
        ensures err { OnErr result (self.new ≡ self.old) }
    {
        match event {
            Event::Hear { at, telegram, .. } => match self.known_refusal(telegram) {
                Some(reason) => Ok(plain(Outcome::Refused(reason))),
                None => Ok(self.hear(alloc, own, *at, telegram)?),
            },
            Event::Tick => {
                tick(&mut self.parts);
                Ok(plain(self.commands.tick()))
            }
            Event::Put(payload) => Ok(plain(self.commands.put(payload))),
            Event::Cancel(id) => Ok(plain(self.commands.cancel(*id))),
            Event::Rekey(key) => Ok(plain(self.rekey(key))),
        }
    }
}
