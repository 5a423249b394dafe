//! What a line tells of a meter.
ghost use Rattle.std.specs.Prelude.{◌≡◌};
ghost use Rattle.message_check.specs.Target.{target_of};
ghost use Rattle.frame_formats.specs.Decoding.{decoded};
ghost use Rattle.meter_slots.specs.Telling.{heard_in, event_of_line};

use crate::entry::Event;
use frame_formats::{Format, FrameFault, Telegram, decode};
use line_reader::Line;
use message_check::target;
use meter_address::Address;

// A telegram that was heard, for its target.
fn hear_telegram(format: Format, at: u64, telegram: Telegram) -> (Address, Event)
    ensures { result ≡ (target_of telegram, Event.Hear format at telegram) }
{
    let address = target(&telegram);
    let event = Event::Hear {
        format,
        at,
        telegram,
    };
    (address, event)
}

// The telegram of a frame, for its target.
fn hear_frame(format: Format, at: u64, bytes: &[u8]) -> Result<(Address, Event), FrameFault>
    ensures { result ≡ heard_in format at (decoded format bytes.now) }
{
    let mut telegram = Telegram::shortest();
    match decode(format, bytes, &mut telegram) {
        Ok(()) => Ok(hear_telegram(format, at, telegram)),
        Err(fault) => Err(fault),
    }
}

/// The meter that a line is for, and what comes to it. A telegram is for its target. The error is why a line's bytes are no
/// frame.
pub fn event_of(line: &Line) -> Result<(Address, Event), FrameFault>
    ensures { result ≡ event_of_line line.now }
{
    match line {
        Line::Frame { format, at, bytes } => hear_frame(*format, *at, bytes.bytes()),
        Line::Tick(address) => Ok((*address, Event::Tick)),
        Line::Put(address, payload) => Ok((*address, Event::Put(payload.copied()))),
        Line::Cancel(address, id) => Ok((*address, Event::Cancel(*id))),
        Line::Key(address, key) => Ok((*address, Event::Rekey(*key))),
    }
}
