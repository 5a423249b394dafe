//! The text of what a slot answers.
ghost use Rattle.std.specs.Prelude.{◌≡◌, option_map, option_copied};
ghost use Rattle.paper.specs.Puts.{Puts};
ghost use Rattle.paper.specs.Pieces.{text_if};
ghost use Rattle.report_text.specs.Outcomes.{bad_layers_text, reason_text, reading_text, stored_text};
ghost use Rattle.report_text.specs.Outcomes.{refused_text, ticked_text, outcome_text};

use layer_text::{put_layer_fault, put_named_fault};
use meter_slots::{LayerFault, Outcome, Reading, Reason, SentDownlink};
use paper::{Paper, put_labelled, put_labelled_bytes, put_labelled_if, put_labelled_two, put_text};
use record_text::put_bytes;

#[tactic(auto, unfolding(crate::specs::Outcomes::bad_layers_text), using(paper::proofs::Calls::two_make))]
fn put_bad_layers<P: Paper>(paper: &mut P, fault: LayerFault)
    ensures { Puts P.takes paper.old (bad_layers_text fault) paper.new }
{
    put_text(paper, "layers ");
    put_layer_fault(paper, fault);
}

/// Puts why a message is refused.
pub fn put_reason<P: Paper>(paper: &mut P, reason: Reason)
    ensures { Puts P.takes paper.old (reason_text reason) paper.new }
{
    match reason {
        Reason::NotUplink(control) => put_labelled_bytes(paper, "uplink ", &[control]),
        Reason::BadLayers(fault) => put_bad_layers(paper, fault),
        Reason::PartInMode5 => put_text(paper, "part5"),
        Reason::TooManyParts(fid) => put_labelled(paper, "parts ", u64::from(fid)),
        Reason::BadMessage(fault) => put_named_fault(paper, "message", fault),
        Reason::OtherAddress(address) => {
            put_labelled_bytes(paper, "other ", &address.to_bytes())
        }
        Reason::Mode { found, wanted } => {
            put_labelled_two(paper, "mode ", u64::from(found), u64::from(wanted))
        }
        Reason::NoAuth => put_text(paper, "noauth"),
        Reason::Kdf(found) => put_labelled(paper, "kdf ", u64::from(found)),
        Reason::ShortBlocks { want, have } => {
            put_labelled_two(paper, "blocks ", want as u64, have as u64)
        }
        Reason::Unchecked => put_text(paper, "unchecked"),
        Reason::BadMac => put_text(paper, "mac"),
        Reason::Stale { got, last } => {
            put_labelled_two(paper, "stale ", u64::from(got), u64::from(last))
        }
        Reason::CheckBytes(two) => put_labelled_bytes(paper, "check ", &two),
        Reason::SameAccess(number) => put_labelled(paper, "access ", u64::from(number)),
        Reason::QueueFull => put_text(paper, "queue"),
        Reason::IdsSpent => put_text(paper, "ids"),
        Reason::NoSuch(id) => put_labelled(paper, "nosuch ", u64::from(id)),
        Reason::KeyInMode5 => put_text(paper, "key5"),
    }
}

#[tactic(auto, unfolding(crate::specs::Outcomes::reading_text), using(paper::proofs::Calls::three_make))]
fn put_reading<P: Paper>(paper: &mut P, reading: &Reading)
    ensures { Puts P.takes paper.old (reading_text reading.now) paper.new }
{
    put_labelled(paper, " ", reading.at);
    put_text(paper, " ");
    put_bytes(paper, reading.payload.bytes());
}

#[tactic(auto, using(paper::proofs::Calls::none))]
fn put_reading_if<P: Paper>(paper: &mut P, reading: Option<&Reading>)
    ensures { Puts P.takes paper.old (text_if reading_text (option_copied reading.entry)) paper.new }
{
    match reading {
        None => {}
        Some(reading) => put_reading(paper, reading),
    }
}

#[tactic(auto, unfolding(crate::specs::Outcomes::stored_text), using(paper::proofs::Calls::four_make))]
fn put_stored<P: Paper>(
    paper: &mut P,
    counter: u32,
    reading: Option<&Reading>,
    confirmed: Option<u32>,
    sent: Option<u32>,
)
    ensures { Puts P.takes paper.old (stored_text counter (option_copied reading.entry) confirmed sent) paper.new }
{
    put_labelled(paper, "stored ", u64::from(counter));
    put_reading_if(paper, reading);
    put_labelled_if(paper, " confirmed ", confirmed);
    put_labelled_if(paper, " sent ", sent);
}

#[tactic(auto, unfolding(crate::specs::Outcomes::refused_text), using(paper::proofs::Calls::two_make))]
fn put_refused<P: Paper>(paper: &mut P, reason: Reason)
    ensures { Puts P.takes paper.old (refused_text reason) paper.new }
{
    put_text(paper, "refused ");
    put_reason(paper, reason)
}

#[tactic(auto, unfolding(crate::specs::Outcomes::ticked_text), using(paper::proofs::Calls::two_make))]
fn put_ticked<P: Paper>(paper: &mut P, expired: Option<u32>)
    ensures { Puts P.takes paper.old (ticked_text expired) paper.new }
{
    put_text(paper, "ticked");
    put_labelled_if(paper, " expired ", expired)
}

// The counter of a downlink, where one is sent.
fn counter_of(sent: &SentDownlink) -> Option<u32>
    ensures { result ≡ option_map (λ s. s.down) sent.now }
{
    match sent.get() {
        None => None,
        Some(downlink) => Some(downlink.down()),
    }
}

// An outcome, with the reading of what is stored.
pub(crate) fn put_outcome<P: Paper>(paper: &mut P, reading: Option<&Reading>, outcome: &Outcome)
    ensures { Puts P.takes paper.old (outcome_text (option_copied reading.entry) outcome.now) paper.new }
{
    match outcome {
        Outcome::Stored {
            counter,
            confirmed,
            sent,
        } => put_stored(paper, *counter, reading, *confirmed, counter_of(sent)),
        Outcome::PartKept => put_text(paper, "part"),
        Outcome::Ticked { expired } => put_ticked(paper, *expired),
        Outcome::Queued(id) => put_labelled(paper, "queued ", u64::from(*id)),
        Outcome::Cancelled(id) => put_labelled(paper, "cancelled ", u64::from(*id)),
        Outcome::Rekeyed => put_text(paper, "rekeyed"),
        Outcome::Refused(reason) => put_refused(paper, *reason),
    }
}
