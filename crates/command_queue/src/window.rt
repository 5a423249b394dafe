//! The window in which a meter listens.
ghost use Rattle.std.specs.Prelude.{◌≡◌};
ghost use Rattle.command_queue.specs.Orders.{is_open};

use crate::command::{Command, NoSuch};
use crate::queue::Queue;
use ell_layer::Access;

/// Whether a command was sent and waits for the meter's response.
#[derive(Clone, Copy, PartialEq, Eq)]
pub enum Window {
    /// No command was sent, or it was answered or the window closed.
    Idle,
    /// The command with this id was sent.
    Waiting(u32),
}

/// What a stored message moves.
#[derive(Clone, Copy)]
pub struct Moved {
    /// The id of the command that was confirmed and removed.
    pub confirmed: Option<u32>,
    /// Whether the oldest command is sent now, under the new counter.
    pub send: bool,
}

impl Window {
    ghost use Rattle.std.specs.Prelude.{ℕ, ◌≢◌, ◌↔◌, Err, is_some, IfSome, OnErr, All};
    ghost use Rattle.command_queue.specs.Pending.{take_answer, no_such};
    ghost use Rattle.command_queue.specs.Orders.{orders_of, Agrees, window_without, after_cancel, expired, after_tick};
    ghost use Rattle.command_queue.specs.Orders.{confirmed, after_confirmed, sent, after_sent, sent_at, after_stored, IsOldestAfterTry};

    /// A message of the meter was stored, with this access. `response` says whether its C field is that of a response (RSP-UD of
    /// EN 13757-4): this confirms the command for which the window waits, and removes it. Then, while the window is idle, the
    /// oldest command is sent where the meter listens now and `down`, the last counter of a downlink, isn't at its end: its
    /// tries and `down` rise by one, and the window waits for it.
    pub fn uplink(
        &mut self,
        queue: &mut Queue,
        access: Access,
        response: bool,
        down: &mut u32,
    ) -> Moved
        requires { Agrees self.old queue.old }
        ensures confirmed { result.confirmed ≡ confirmed (orders_of queue.old self.old down.old) response }
        ensures sent { result.send ≡ is_some (sent_at (orders_of queue.old self.old down.old) access response) }
        ensures after { orders_of queue.new self.new down.new
            ≡ after_stored (orders_of queue.old self.old down.old) access response }
        ensures oldest { IfSome (sent_at (orders_of queue.old self.old down.old) access response)
            (IsOldestAfterTry queue.new) }
        ensures agrees { Agrees self.new queue.new }
    {
        let confirmed = self.confirm(queue, response);
        let send = self.send(queue, access, down);
        Moved { confirmed, send }
    }

    // A response confirms and removes the command for which the window waits.
    #[tactic(auto, unfolding(crate::specs::Orders::confirmed, crate::specs::Orders::after_confirmed))]
    fn confirm(&mut self, queue: &mut Queue, response: bool) -> Option<u32>
        requires { Agrees self.old queue.old }
        ensures answer { (down : ℕ) → result ≡ confirmed (orders_of queue.old self.old down) response }
        ensures after { (down : ℕ) → orders_of queue.new self.new down
            ≡ after_confirmed (orders_of queue.old self.old down) response }
        ensures agrees { Agrees self.new queue.new }
    {
        if !response {
            return None;
        }
        let Window::Waiting(id) = *self else {
            return None;
        };
        let confirmed = queue.take(id).is_ok();
        prove!(confirmed);
        *self = Window::Idle;
        Some(id)
    }

    // The oldest command is sent, where it may be.
    #[tactic(auto, unfolding(crate::specs::Orders::sent, crate::specs::Orders::after_sent))]
    fn send(&mut self, queue: &mut Queue, access: Access, down: &mut u32) -> bool
        requires { Agrees self.old queue.old }
        ensures answer { result ≡ is_some (sent (orders_of queue.old self.old down.old) access) }
        ensures after { orders_of queue.new self.new down.new
            ≡ after_sent (orders_of queue.old self.old down.old) access }
        ensures agrees { Agrees self.new queue.new }
    {
        if !is_open(access) || *down == u32::MAX {
            return false;
        }
        let Window::Idle = *self else {
            return false;
        };
        let Some(oldest) = queue.at(0) else {
            return false;
        };
        let id = oldest.id;
        queue.count_try();
        *self = Window::Waiting(id);
        *down += 1;
        true
    }

    /// The window closes. The command for which it waited expires and is removed where it was sent three times; its id is answered.
    #[tactic(auto, unfolding(crate::specs::Orders::expired, crate::specs::Orders::after_tick))]
    pub fn tick(&mut self, queue: &mut Queue) -> Option<u32>
        requires { Agrees self.old queue.old }
        ensures expired { (down : ℕ) → result ≡ expired (orders_of queue.old self.old down) }
        ensures after { (down : ℕ) → orders_of queue.new self.new down
            ≡ after_tick (orders_of queue.old self.old down) }
        ensures agrees { Agrees self.new queue.new }
    {
        let Window::Waiting(id) = *self else {
            return None;
        };
        *self = Window::Idle;
        let oldest = queue.at(0)?;
        if oldest.has_try_left() {
            return None;
        }
        let expired = queue.take(id).is_ok();
        prove!(expired);
        Some(id)
    }

    /// The command with this id was cancelled: a window that waits for it closes, any other stays as it is.
    pub fn cancelled(&mut self, id: u32)
        ensures { self.new ≡ window_without id self.old }
    {
        if *self == Window::Waiting(id) {
            *self = Window::Idle;
        }
    }

    /// Takes the command with this id out of the queue, and closes a window that waits for it.
    #[tactic(auto, unfolding(crate::specs::Orders::after_cancel))]
    pub fn cancel(&mut self, queue: &mut Queue, id: u32) -> Result<Command, NoSuch>
        requires { Agrees self.old queue.old }
        ensures answer { result ≡ take_answer id queue.old }
        ensures after { (down : ℕ) → orders_of queue.new self.new down
            ≡ after_cancel (orders_of queue.old self.old down) id }

        // Without such a command nothing changes.
        ensures no_such { (result ≡ Err (no_such id)) ↔ All (λ c. c.id ≢ id) queue.old.commands }
        ensures same_queue { OnErr result (queue.new ≡ queue.old) }
        ensures same_window { OnErr result (self.new ≡ self.old) }

        ensures agrees { Agrees self.new queue.new }
    {
        let command = queue.take(id)?;
        self.cancelled(id);
        Ok(command)
    }
}

// Whether a meter with this access listens now.
fn is_open(access: Access) -> bool
    ensures { result ≡ is_open access }
{
    matches!(access, Access::Limited | Access::Unlimited)
}
