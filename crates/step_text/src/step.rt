//! The lines of events: a step of a commissioned meter, or what a stranger sent.
ghost use Rattle.std.specs.Prelude.{◌≡◌, Some, option_copied};
ghost use Rattle.json.specs.Print.{escape};
ghost use Rattle.serde_json.specs.Data.{object};
ghost use Rattle.serde_json.specs.Read.{read};
ghost use Rattle.serde_json.specs.Written.{compact_text};
ghost use Rattle.paper.specs.Puts.{Puts};
ghost use Rattle.report_text.specs.Readings.{members};
ghost use Rattle.step_text.specs.Causes.{reason_cause};
ghost use Rattle.step_text.specs.Lines.{event_word, plain_members, ticked_members, command_members, refused_members, outcome_members};
ghost use Rattle.step_text.specs.Lines.{step_tree, step_line, stranger_tree, stranger_line};

use crate::causes::{put_values, reason_cause};
use crate::pieces::{put_address, put_event, put_number_if};
use crate::showing::{show_number, show_outcome};
use crate::stored::put_stored;
use meter_address::Address;
use meter_slots::{Event, Outcome, Reading, Reason, Served};
use paper::{Paper, put_number, put_text};

// An outcome of which there is no more to say than its word.
fn put_plain<P: Paper>(paper: &mut P, line: u32, address: Address, event: &Event, outcome: &str)
    requires { escape outcome.now ≡ outcome.now }
    ensures { Puts P.takes paper.old
        (compact_text (object (members (plain_members line address (event_word event.now) outcome.now)))) paper.new }
{
    put_text(paper, "{\"address\":\"");
    put_address(paper, address);
    put_text(paper, "\",\"event\":\"");
    put_event(paper, event);
    put_text(paper, "\",\"kind\":\"step\",\"line\":");
    put_number(paper, line as u64);
    put_text(paper, ",\"outcome\":\"");
    put_text(paper, outcome);
    put_text(paper, "\"}");
}

// A tick, and the command that expires.
fn put_ticked<P: Paper>(
    paper: &mut P,
    line: u32,
    address: Address,
    event: &Event,
    expired: Option<u32>,
)
    ensures { Puts P.takes paper.old
        (compact_text (object (members (ticked_members line address (event_word event.now) expired)))) paper.new }
{
    put_text(paper, "{\"address\":\"");
    put_address(paper, address);
    put_text(paper, "\",\"event\":\"");
    put_event(paper, event);
    put_text(paper, "\",\"expired\":");
    put_number_if(paper, expired);
    put_text(paper, ",\"kind\":\"step\",\"line\":");
    put_number(paper, line as u64);
    put_text(paper, ",\"outcome\":\"ticked\"}");
}

// A command that was queued or cancelled.
fn put_command<P: Paper>(
    paper: &mut P,
    line: u32,
    address: Address,
    event: &Event,
    outcome: &str,
    id: u32,
)
    requires { escape outcome.now ≡ outcome.now }
    ensures { Puts P.takes paper.old
        (compact_text (object (members (command_members line address (event_word event.now) outcome.now id)))) paper.new }
{
    put_text(paper, "{\"address\":\"");
    put_address(paper, address);
    put_text(paper, "\",\"event\":\"");
    put_event(paper, event);
    put_text(paper, "\",\"id\":");
    put_number(paper, id as u64);
    put_text(paper, ",\"kind\":\"step\",\"line\":");
    put_number(paper, line as u64);
    put_text(paper, ",\"outcome\":\"");
    put_text(paper, outcome);
    put_text(paper, "\"}");
}

// What is refused, and why.
fn put_refused<P: Paper>(paper: &mut P, line: u32, address: Address, event: &Event, reason: Reason)
    ensures { Puts P.takes paper.old
        (compact_text (object (members (refused_members line address (event_word event.now) (reason_cause reason))))) paper.new }
{
    let (word, values) = reason_cause(reason);
    put_text(paper, "{\"address\":\"");
    put_address(paper, address);
    put_text(paper, "\",\"event\":\"");
    put_event(paper, event);
    put_text(paper, "\",\"kind\":\"step\",\"line\":");
    put_number(paper, line as u64);
    put_text(paper, ",\"outcome\":\"refused\",\"reason\":\"");
    put_text(paper, word);
    put_text(paper, "\",\"values\":");
    put_values(paper, values);
    put_text(paper, "}");
}

// An outcome, with the reading of what is stored.
#[tactic(auto, unfolding(json::specs::Print::escape_byte))]
fn put_outcome<P: Paper>(
    paper: &mut P,
    line: u32,
    address: Address,
    event: &Event,
    reading: Option<&Reading>,
    outcome: &Outcome,
)
    ensures { Puts P.takes paper.old (compact_text (object (members (outcome_members
        line address (event_word event.now) (option_copied reading.entry) outcome.now)))) paper.new }
{
    match outcome {
        Outcome::Stored {
            counter,
            confirmed,
            sent,
        } => put_stored(
            paper, line, address, event, reading, *counter, *confirmed, sent,
        ),
        Outcome::PartKept => put_plain(paper, line, address, event, "part"),
        Outcome::Ticked { expired } => put_ticked(paper, line, address, event, *expired),
        Outcome::Queued(id) => put_command(paper, line, address, event, "queued", *id),
        Outcome::Cancelled(id) => put_command(paper, line, address, event, "cancelled", *id),
        Outcome::Rekeyed => put_plain(paper, line, address, event, "rekeyed"),
        Outcome::Refused(reason) => put_refused(paper, line, address, event, *reason),
    }
}

/// Puts the line of a step: what an event of a commissioned meter, which stood in this line of the receiver, was answered.
#[tactic(auto, unfolding(crate::specs::Lines::json_line), using(paper::proofs::Calls::two_make))]
pub fn put_step_line<P: Paper>(
    paper: &mut P,
    line: u32,
    address: Address,
    event: &Event,
    served: &Served,
)
    ensures puts { Puts P.takes paper.old (step_line line address event.now served.now) paper.new }
    ensures reads_back { let tree = step_tree line address event.now served.now in read (compact_text tree) ≡ Some tree }
{
    let reading = served.reading.as_ref();
    show_number(line);
    show_outcome(reading, &served.outcome);
    put_outcome(paper, line, address, event, reading, &served.outcome);
    put_text(paper, "\n");
}

fn put_stranger<P: Paper>(paper: &mut P, line: u32, address: Address, event: &Event)
    ensures { Puts P.takes paper.old (compact_text (stranger_tree line address event.now)) paper.new }
{
    put_text(paper, "{\"address\":\"");
    put_address(paper, address);
    put_text(paper, "\",\"event\":\"");
    put_event(paper, event);
    put_text(paper, "\",\"kind\":\"stranger\",\"line\":");
    put_number(paper, line as u64);
    put_text(paper, "}");
}

/// Puts the line of an event for an address that isn't commissioned.
#[tactic(auto, unfolding(crate::specs::Lines::json_line), using(paper::proofs::Calls::two_make, crate::proofs::ShownLines::stranger_back))]
pub fn put_stranger_line<P: Paper>(paper: &mut P, line: u32, address: Address, event: &Event)
    ensures puts { Puts P.takes paper.old (stranger_line line address event.now) paper.new }
    ensures reads_back { let tree = stranger_tree line address event.now in read (compact_text tree) ≡ Some tree }
{
    show_number(line);
    put_stranger(paper, line, address, event);
    put_text(paper, "\n");
}
