//! The queue of the commands that wait.
ghost use Rattle.std.specs.Prelude.{◌≡◌, ◌<◌, ◌-◌, length, take};
ghost use Rattle.std.specs.List.{HoldsAt, remove};
ghost use Rattle.command_queue.specs.Pending.{HasTryLeft, one_try_more};

use crate::command::{Command, NoSuch, QueueFault, TRIES_MAX};
use meter_address::Payload;
use std::marker::Model;
use std::{array, mem};

/// How many commands a queue has at most.
pub const QUEUE_MAX: usize = 8;

/// The commands that wait to be sent to a meter, the oldest one first, in eight fixed places. What stands
/// behind them counts nowhere.
#[derive(Drop)]
pub struct Queue {
    commands: [Command; QUEUE_MAX],
    count: usize,
    ids: u32,
}

impl Model for Queue {
    ghost use Rattle.std.specs.Prelude.{◌≤◌, length, take};
    ghost use Rattle.command_queue.specs.Pending.{Pending, IsSound};

    ghost Value = { Pending };

    ghost view = { λ q. record { ids = q.ids; commands = take q.count q.commands } };

    ghost invariant = { λ q. (q.count ≤ length q.commands) × IsSound (record { ids = q.ids; commands = take q.count q.commands }) };
}

impl Queue {
    ghost use Rattle.std.specs.Prelude.{◌≡◌, ◌≢◌, ◌<◌, ◌≤◌, ◌+◌, ◌-◌, ◌^◌, ◌↔◌};
    ghost use Rattle.std.specs.Prelude.{[], length, slice_get, All, Err, IsNone, IfSome, IfNone, OnErr};
    ghost use Rattle.std.specs.List.{HoldsAt};
    ghost use Rattle.std.specs.Option.{option_copied};
    ghost use Rattle.command_queue.specs.Pending.{IsSound, HasTryLeft, no_such, put_answer};
    ghost use Rattle.command_queue.specs.Pending.{with_command, take_answer, without_command, with_try};
    ghost use Rattle.command_queue.specs.Pending.{newest_id, most_tries, may_follow, with_follower};

    /// No command waits yet; `ids` is the last id that was given.
    pub fn new(ids: u32) -> Queue
        ensures { result ≡ record { ids = ids; commands = [] } }
    {
        Queue {
            commands: array::from_fn(|_| unused()),
            count: 0,
            ids,
        }
    }

    /// Puts a command at the end of the queue and answers its id.
    #[tactic(auto, unfolding(crate::specs::Pending::put_answer, crate::specs::Pending::with_command))]
    pub fn put(&mut self, payload: Payload) -> Result<u32, QueueFault>
        ensures answer { result ≡ put_answer self.old }
        ensures after { self.new ≡ with_command self.old payload }

        // A full queue is named first, and a refusal leaves the queue as it was.
        ensures full { (result ≡ Err QueueFault.Full) ↔ (length self.old.commands ≡ 8) }
        ensures ids_spent { (result ≡ Err QueueFault.IdsSpent)
            ↔ ((length self.old.commands < 8) × (self.old.ids ≡ 2 ^ 32 - 1)) }
        ensures refused { OnErr result (self.new ≡ self.old) }
    {
        if self.pending() == QUEUE_MAX {
            return Err(QueueFault::Full);
        }
        if self.ids == u32::MAX {
            return Err(QueueFault::IdsSpent);
        }
        self.ids += 1;
        let id = self.ids;
        self.commands[self.count] = Command {
            id,
            tries: 0,
            payload,
        };
        self.count += 1;
        Ok(id)
    }

    // The commands that wait.
    fn waiting(&self) -> &[Command]
        ensures commands { result.now ≡ self.now.commands }
        ensures sound { IsSound self.now }
    {
        &self.commands[..self.count]
    }

    // The id of the newest command, or 0 where none waits.
    fn newest_id(&self) -> u32
        ensures { result ≡ newest_id 0 self.now.commands }
    {
        match self.waiting().last() {
            Some(newest) => newest.id,
            None => 0,
        }
    }

    // How often the next command was sent at most.
    fn most_tries(&self) -> u8
        ensures { result ≡ most_tries self.now.commands }
    {
        match self.waiting() {
            [] => TRIES_MAX,
            [_oldest, ..] => 0,
        }
    }

    // Whether a command may stand behind those that wait.
    #[tactic(auto, unfolding(crate::specs::Pending::may_follow))]
    fn may_follow(&self, command: &Command) -> bool
        ensures { result ≡ may_follow self.now command.now }
    {
        self.pending() < QUEUE_MAX
            && self.newest_id() < command.id
            && command.id <= self.ids
            && command.tries <= self.most_tries()
    }

    /// Puts a command at the end of the queue that waited before, under its id and with its tries. Where it may not stand there nothing
    /// changes.
    #[tactic(auto, unfolding(crate::specs::Pending::with_follower))]
    pub fn restore(&mut self, command: Command) -> bool
        ensures answer { result ≡ may_follow self.old command }
        ensures after { self.new ≡ with_follower self.old command }
        ensures was_sound { IsSound self.old }
    {
        if !self.may_follow(&command) {
            return false;
        }
        self.commands[self.count] = command;
        self.count += 1;
        true
    }

    // Where the command with this id stands.
    fn place_of(&self, id: u32) -> Option<usize>
        ensures found { IfSome result (λ place. HoldsAt (λ c. c.id ≡ id) self.now.commands place) }
        ensures within { IfSome result (λ place. place < length self.now.commands) }
        ensures none { IfNone result (All (λ c. c.id ≢ id) self.now.commands) }
    {
        self.waiting().iter().position(|c| c.id == id)
    }

    /// Takes the command with this id out of the queue.
    pub fn take(&mut self, id: u32) -> Result<Command, NoSuch>
        ensures answer { result ≡ take_answer id self.old }
        ensures after { self.new ≡ without_command id self.old }
        ensures was_sound { IsSound self.old }

        // Without such a command the queue stays as it was.
        ensures no_such { (result ≡ Err (no_such id)) ↔ All (λ c. c.id ≢ id) self.old.commands }
        ensures refused { OnErr result (self.new ≡ self.old) }
    {
        let Some(place) = self.place_of(id) else {
            return Err(NoSuch(id));
        };
        let command = take_at(&mut self.commands[..self.count], place);
        self.count -= 1;
        Ok(command)
    }

    /// How many commands wait.
    pub fn pending(&self) -> usize
        ensures count { result ≡ length self.now.commands }
        ensures sound { IsSound self.now }
    {
        self.waiting().len()
    }

    /// The command at a place, the oldest one first: none exactly where the place isn't below `pending`.
    pub fn at(&self, place: usize) -> Option<&Command>
        ensures command { option_copied result ≡ slice_get self.now.commands place }
        ensures none { IsNone result ↔ (length self.now.commands ≤ place) }
        ensures sound { IsSound self.now }
    {
        self.waiting().get(place)
    }

    /// The last id that was given.
    pub fn ids(&self) -> u32
        ensures { result ≡ self.now.ids }
    {
        self.ids
    }

    /// Notes that the oldest command was sent once more.
    #[tactic(auto, unfolding(crate::specs::Pending::with_try))]
    pub fn count_try(&mut self)
        requires { HasTryLeft self.old.commands }
        ensures { self.new ≡ with_try self.old }
    {
        count_first(&mut self.commands[..self.count]);
    }
}

// The first command was sent once more.
fn count_first(commands: &mut [Command])
    requires { HasTryLeft commands.old }
    ensures { commands.new ≡ one_try_more commands.old }
{
    if let Some(oldest) = commands.first_mut() {
        oldest.tries += 1;
    }
}

// Takes the command at a place, and those behind it move one place to the front. The last place is unused then.
fn take_at(commands: &mut [Command], place: usize) -> Command
    requires { place < length commands.old }
    ensures value { HoldsAt (λ c. c ≡ result) commands.old place }
    ensures len { length commands.new ≡ length commands.old }
    ensures others { take (length commands.old - 1) commands.new ≡ remove commands.old place }
{
    commands[place..].rotate_left(1);
    let last = commands.len() - 1;
    mem::replace(&mut commands[last], unused())
}

// What stands in a place that no command has.
fn unused() -> Command {
    Command {
        id: 0,
        tries: 0,
        payload: Payload::new(&[0]).unwrap(),
    }
}
