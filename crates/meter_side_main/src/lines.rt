//! The lines of deliveries, and what is answered to each.
ghost use Rattle.std.specs.Prelude.{◌≡◌};
ghost use Rattle.meter_side_main.specs.Lines.{bytes_in, delivery_in, answer_of, last_by};

use crate::delivery::{DELIVERY_MAX, Delivery};
use crate::listener::Listener;
use crate::reason::Did;

/// The most bytes of a line that delivers anything, without its end: a D, a space, and two digits for each of 290 bytes.
pub const LINE_MAX: usize = 582;

/// What is answered to a line.
#[derive(Drop)]
pub enum Answer {
    /// It delivers nothing.
    Bad,
    /// What the meter does with the delivery.
    Heard(Did),
}

// The bytes of digits, at most 290.
#[tactic(auto, unfolding(crate::specs::Lines::bytes_in))]
fn read_bytes(digits: &[u8]) -> Option<Delivery>
    ensures { result ≡ bytes_in digits.now }
{
    if digits.len() > 2 * DELIVERY_MAX {
        return None;
    }
    let mut bytes = [0; DELIVERY_MAX];
    let (room, _) = bytes.split_at_mut(digits.len() / 2);
    match hex::decode_to_slice(digits, room) {
        Ok(()) => Delivery::new(room),
        Err(_) => None,
    }
}

// What a line delivers.
#[tactic(auto, unfolding(crate::specs::Lines::delivery_in))]
fn read_delivery(line: &[u8]) -> Option<Delivery>
    ensures { result ≡ delivery_in line.now }
{
    match line {
        [b'D', b' ', digits @ ..] => read_bytes(digits),
        _ => None,
    }
}

/// Hears what a line delivers.
pub(crate) fn hear_line(listener: &mut Listener, line: &[u8]) -> Answer
    ensures answer { result ≡ answer_of listener.old.own listener.old.commission listener.old.last (delivery_in line.now) }
    ensures last { listener.new ≡ record listener.old { last = last_by listener.old.last result } }
{
    match read_delivery(line) {
        None => Answer::Bad,
        Some(delivery) => Answer::Heard(listener.hear(delivery.bytes())),
    }
}
