//! A command, and why a queue refuses.
ghost use Rattle.std.specs.Prelude.{◌≡◌, nat_lt};

use meter_address::Payload;

/// How often a command is sent at most.
pub const TRIES_MAX: u8 = 3;

/// A command that waits.
#[derive(Drop)]
pub struct Command {
    /// Its number among the meter's commands, from 1.
    pub id: u32,
    /// How often it was sent.
    pub tries: u8,
    /// What it has to say to the meter.
    pub payload: Payload,
}

impl Command {
    /// Whether it was sent fewer than three times.
    pub fn has_try_left(&self) -> bool
        ensures { result ≡ nat_lt self.now.tries 3 }
    {
        self.tries < TRIES_MAX
    }
}

/// Why a command isn't queued.
#[derive(Clone, Copy)]
pub enum QueueFault {
    /// Eight commands wait.
    Full,
    /// Each id of four bytes was given.
    IdsSpent,
}

/// No command that waits has this id.
#[derive(Clone, Copy)]
pub struct NoSuch(pub u32);
