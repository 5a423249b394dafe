//! What is told of a stored message.
ghost use Rattle.std.specs.Prelude.{◌≡◌, option_copied, option_map};
ghost use Rattle.serde_json.specs.Data.{object};
ghost use Rattle.serde_json.specs.Written.{compact_text};
ghost use Rattle.paper.specs.Puts.{Puts};
ghost use Rattle.report_text.specs.Readings.{hex_tree, members, or_null, payload_of};
ghost use Rattle.step_text.specs.Lines.{event_word, number_tree, sent_tree, stored_members};

use crate::pieces::{put_address, put_event, put_number_if};
use meter_address::Address;
use meter_slots::{Downlink, Event, Reading, SentDownlink};
use paper::{Paper, put_number, put_text};
use report_text::{ending_of, put_digits, put_entries, put_fault, put_truth};

fn put_at<P: Paper>(paper: &mut P, reading: Option<&Reading>)
    ensures { Puts P.takes paper.old
        (compact_text (or_null (option_map (λ r. number_tree r.at) (option_copied reading.entry)))) paper.new }
{
    match reading {
        None => put_text(paper, "null"),
        Some(reading) => put_number(paper, reading.at),
    }
}

#[tactic(auto, using(paper::proofs::Calls::three_make))]
fn put_hex_string<P: Paper>(paper: &mut P, bytes: &[u8])
    ensures { Puts P.takes paper.old (compact_text (hex_tree bytes.now)) paper.new }
{
    put_text(paper, "\"");
    put_digits(paper, bytes);
    put_text(paper, "\"");
}

fn put_payload<P: Paper>(paper: &mut P, reading: Option<&Reading>)
    ensures { Puts P.takes paper.old
        (compact_text (or_null (option_map (λ r. hex_tree r.payload) (option_copied reading.entry)))) paper.new }
{
    match reading {
        None => put_text(paper, "null"),
        Some(reading) => put_hex_string(paper, reading.payload.bytes()),
    }
}

fn payload_of(reading: Option<&Reading>) -> &[u8]
    ensures { result.now ≡ payload_of (option_copied reading.entry) }
{
    match reading {
        None => &[],
        Some(reading) => reading.payload.bytes(),
    }
}

fn put_downlink<P: Paper>(paper: &mut P, downlink: &Downlink)
    ensures { Puts P.takes paper.old (compact_text (sent_tree downlink.now)) paper.new }
{
    put_text(paper, "{\"down\":");
    put_number(paper, downlink.down() as u64);
    put_text(paper, ",\"frame\":\"");
    put_digits(paper, downlink.bytes());
    put_text(paper, "\",\"id\":");
    put_number(paper, downlink.id() as u64);
    put_text(paper, "}");
}

fn put_sent<P: Paper>(paper: &mut P, sent: &SentDownlink)
    ensures { Puts P.takes paper.old (compact_text (or_null (option_map sent_tree sent.now))) paper.new }
{
    match sent.get() {
        None => put_text(paper, "null"),
        Some(downlink) => put_downlink(paper, downlink),
    }
}

/// Puts what is told of a stored message.
pub(crate) fn put_stored<P: Paper>(
    paper: &mut P,
    line: u32,
    address: Address,
    event: &Event,
    reading: Option<&Reading>,
    counter: u32,
    confirmed: Option<u32>,
    sent: &SentDownlink,
)
    ensures { let read = option_copied reading.entry in Puts P.takes paper.old (compact_text (object (members (stored_members
        line address (event_word event.now) read counter confirmed sent.now (payload_of read))))) paper.new }
{
    let payload = payload_of(reading);
    let ending = ending_of(payload);
    put_text(paper, "{\"address\":\"");
    put_address(paper, address);
    put_text(paper, "\",\"at\":");
    put_at(paper, reading);
    put_text(paper, ",\"confirmed\":");
    put_number_if(paper, confirmed);
    put_text(paper, ",\"counter\":");
    put_number(paper, counter as u64);
    put_text(paper, ",\"event\":\"");
    put_event(paper, event);
    put_text(paper, "\",\"fault\":");
    put_fault(paper, ending.fault);
    put_text(paper, ",\"kind\":\"step\",\"line\":");
    put_number(paper, line as u64);
    put_text(paper, ",\"more\":");
    put_truth(paper, ending.more);
    put_text(paper, ",\"outcome\":\"stored\",\"payload\":");
    put_payload(paper, reading);
    put_text(paper, ",\"records\":");
    put_entries(paper, payload);
    put_text(paper, ",\"sent\":");
    put_sent(paper, sent);
    put_text(paper, "}");
}
