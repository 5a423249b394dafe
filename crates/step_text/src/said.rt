//! What a line of a receiver says.
ghost use Rattle.std.specs.Prelude.{◌≡◌};
ghost use Rattle.step_text.specs.Said.{said_by_line, said_of};

use frame_formats::FrameFault;
use line_reader::{BadLine, Line, read_line};
use meter_address::Address;
use meter_slots::{Event, event_of};

/// What a line says.
#[derive(Drop)]
pub enum Said {
    /// An event for the meter with this address.
    Event(Address, Event),
    /// Bytes that are no frame, and why.
    Unframed(FrameFault),
    /// Nothing, and why: the line is outside the grammar.
    Bad(BadLine),
}

fn said_by(line: &Line) -> Said
    ensures { result ≡ said_by_line line.now }
{
    match event_of(line) {
        Ok((address, event)) => Said::Event(address, event),
        Err(fault) => Said::Unframed(fault),
    }
}

/// What a line says, given without its end.
#[tactic(auto, unfolding(crate::specs::Said::said_of))]
pub fn said_of(line: &[u8]) -> Said
    ensures { result ≡ said_of line.now }
{
    match read_line(line) {
        Ok(line) => said_by(&line),
        Err(bad) => Said::Bad(bad),
    }
}
