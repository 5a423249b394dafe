//! Values of members.
ghost use Rattle.std.specs.Prelude.{◌≡◌, option_map};
ghost use Rattle.json.specs.Print.{escape};
ghost use Rattle.serde_json.specs.Written.{compact_text};
ghost use Rattle.paper.specs.Puts.{Puts};
ghost use Rattle.meter_address.specs.Address.{text_of};
ghost use Rattle.report_text.specs.Readings.{or_null};
ghost use Rattle.step_text.specs.Lines.{event_word, number_tree};

use meter_address::Address;
use meter_slots::Event;
use paper::{Paper, put_number, put_text};
use report_text::put_digits;

#[tactic(auto, unfolding(json::specs::Print::escape_byte))]
fn event_word(event: &Event) -> &'static str
    ensures word { result.now ≡ event_word event.now }
    ensures plain { escape result.now ≡ result.now }
{
    match event {
        Event::Hear { .. } => "hear",
        Event::Tick => "tick",
        Event::Put(_) => "put",
        Event::Cancel(_) => "cancel",
        Event::Rekey(_) => "rekey",
    }
}

/// Puts the word for an event, inside a string.
pub(crate) fn put_event<P: Paper>(paper: &mut P, event: &Event)
    ensures { Puts P.takes paper.old (escape (event_word event.now)) paper.new }
{
    put_text(paper, event_word(event));
}

/// Puts the digits of an address, inside a string.
pub(crate) fn put_address<P: Paper>(paper: &mut P, address: Address)
    ensures { Puts P.takes paper.old (escape (text_of address)) paper.new }
{
    put_digits(paper, &address.to_bytes());
}

/// Puts a number, or `null` for none.
pub(crate) fn put_number_if<P: Paper>(paper: &mut P, number: Option<u32>)
    ensures { Puts P.takes paper.old (compact_text (or_null (option_map number_tree number))) paper.new }
{
    match number {
        None => put_text(paper, "null"),
        Some(number) => put_number(paper, number as u64),
    }
}
