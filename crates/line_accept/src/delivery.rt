//! What a line delivers.
ghost use Rattle.std.specs.Prelude.{◌≡◌, ◌<◌, ◌^◌, option_map};
ghost use Rattle.line_accept.specs.Deliveries.{message_with, message_in, delivery_in, delivery_of};

use crate::fence::Numbered;
use crate::names::is_name;
use plain_text::{Fields, read_number};

/// The most bytes of a line that delivers anything, without its end: a name, an epoch and a number, with a space between each two.
pub const LINE_MAX: usize = 96;

/// The name of a sender, and what the sender gave its message.
#[derive(Clone, Copy)]
pub(crate) struct Delivery<'a> {
    pub(crate) name: &'a [u8],
    pub(crate) message: Numbered,
}

fn message_with(epoch: u64, number: u64) -> Option<Numbered>
    requires { number < 2 ^ 32 }
    ensures { result ≡ message_with epoch number }
{
    if number == 0 {
        return None;
    }
    Some(Numbered {
        epoch,
        number: number as u32,
    })
}

fn read_message(epoch: &[u8], number: &[u8]) -> Option<Numbered>
    ensures { result ≡ message_in epoch.now number.now }
{
    let epoch = read_number(epoch, u64::MAX)?;
    let number = read_number(number, u64::from(u32::MAX))?;
    message_with(epoch, number)
}

#[tactic(auto, unfolding(crate::specs::Deliveries::delivery_in))]
fn read_fields<'a>(mut fields: Fields<'a>) -> Option<Delivery<'a>>
    ensures { option_map (λ d. record { name = d.name.now; message = d.message }) result ≡ delivery_in fields.entry }
{
    let (Some(name), Some(epoch), Some(number), None) = (
        fields.next(),
        fields.next(),
        fields.next(),
        fields.next(),
    ) else {
        return None;
    };
    if !is_name(name) {
        return None;
    }
    let message = read_message(epoch, number)?;
    Some(Delivery { name, message })
}

/// What a line delivers, given without its end, if it delivers anything.
#[tactic(auto, unfolding(crate::specs::Deliveries::delivery_of))]
pub(crate) fn read_delivery(line: &[u8]) -> Option<Delivery<'_>>
    ensures { option_map (λ d. record { name = d.name.now; message = d.message }) result ≡ delivery_of line.now }
{
    if line.len() > LINE_MAX {
        return None;
    }
    read_fields(Fields::of_line(line))
}
