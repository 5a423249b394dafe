//! What the meter's slot answers to the telegram of a line, as if nothing had come to it before.
ghost use Rattle.std.specs.Prelude.{◌≡◌, option_copied, IfOk, Ok};
ghost use Rattle.paper.specs.Puts.{Puts};
ghost use Rattle.paper.specs.Pieces.{text_if};
ghost use Rattle.frame_formats.specs.Decoding.{decoded};
ghost use Rattle.frame_inspect.specs.Below.{meter_with, unnumbered, found_alone, found_text, no_key_line, telegram_text, bytes_text, below_text};
ghost use Rattle.frame_inspect.specs.Serving.{reading_text, served_text, answer_text};

use crate::reasons::put_refused;
use crate::record_lines::put_records;
use frame_formats::{Format, Telegram, decode};
use line_reader::{BadLine, Line};
use message_check::target;
use meter_address::{Address, Commission};
use meter_slots::{Event, Outcome, PassingSlot, Reading, Served};
use outer_io::Memory;
use paper::{Paper, put_labelled_bytes, put_text};
use std::alloc::Global;

/// What stands below a line.
#[derive(Drop)]
pub(crate) enum Answer {
    /// Nothing: the line has no telegram.
    Nothing,
    /// The telegram's meter, which isn't in the roster.
    NoKey(Address),
    /// What the meter's slot answers.
    Slot(Served),
}

// The meter with this address.
fn meter_with(meters: &[Commission], address: Address) -> Option<Commission>
    ensures { result ≡ meter_with address meters.now }
{
    for meter in meters {
        if meter.address.0 == address.0 {
            return Some(*meter);
        }
    }
    None
}

// The meter as one whose last number isn't known.
fn unnumbered(meter: &Commission) -> Commission
    ensures { result ≡ unnumbered meter.now }
{
    Commission {
        address: meter.address,
        mode: meter.mode,
        key: meter.key,
        other: meter.other,
        last: None,
        down: meter.down,
        ids: meter.ids,
    }
}

// What a new slot of the meter answers to a telegram.
fn serve(
    alloc: Global,
    own: Address,
    meter: &Commission,
    telegram: Telegram,
) -> Result<Served, Memory>
    ensures { IfOk result (λ s. served_text s.outcome s.reading ≡ found_text (found_alone meter.now telegram)) }
{
    let mut slot = PassingSlot::new(alloc, own, unnumbered(meter));
    let event = Event::Hear {
        format: Format::A,
        at: 0,
        telegram,
    };
    slot.step(&event)
}

// What the slot of a telegram's meter answers.
fn answer_telegram(
    alloc: Global,
    own: Address,
    meters: &[Commission],
    telegram: Telegram,
) -> Result<Answer, Memory>
    ensures { IfOk result (λ a. answer_text a ≡ telegram_text meters.now telegram) }
{
    let address = target(&telegram);
    match meter_with(meters, address) {
        None => Ok(Answer::NoKey(address)),
        Some(meter) => Ok(Answer::Slot(serve(alloc, own, &meter, telegram)?)),
    }
}

fn answer_frame(
    alloc: Global,
    own: Address,
    meters: &[Commission],
    format: Format,
    bytes: &[u8],
) -> Result<Answer, Memory>
    ensures { IfOk result (λ a. answer_text a ≡ bytes_text meters.now (decoded format bytes.now)) }
{
    let mut telegram = Telegram::shortest();
    match decode(format, bytes, &mut telegram) {
        Ok(()) => answer_telegram(alloc, own, meters, telegram),
        Err(_) => Ok(Answer::Nothing),
    }
}

/// What stands below a line that says this, under the keys of these meters.
pub(crate) fn answer_to(
    alloc: Global,
    own: Address,
    meters: &[Commission],
    said: &Result<Line, BadLine>,
) -> Result<Answer, Memory>
    ensures { IfOk result (λ a. answer_text a ≡ below_text meters.now said.now) }
{
    match said {
        Ok(Line::Frame { format, bytes, .. }) => {
            answer_frame(alloc, own, meters, *format, bytes.bytes())
        }
        _ => Ok(Answer::Nothing),
    }
}

#[tactic(auto, unfolding(crate::specs::Below::no_key_line), using(paper::proofs::Calls::two_make))]
fn put_no_key<P: Paper>(paper: &mut P, address: Address)
    ensures { Puts P.takes paper.old (no_key_line address) paper.new }
{
    put_labelled_bytes(paper, "  no key for ", &address.to_bytes());
    put_text(paper, "\n");
}

#[tactic(auto, using(paper::proofs::Calls::none))]
fn put_stored<P: Paper>(paper: &mut P, reading: Option<&Reading>)
    ensures { Puts P.takes paper.old (text_if reading_text (option_copied reading.entry)) paper.new }
{
    match reading {
        None => {}
        Some(reading) => put_records(paper, reading.payload.bytes()),
    }
}

#[tactic(auto, using(paper::proofs::Calls::none))]
fn put_served<P: Paper>(paper: &mut P, served: &Served)
    ensures { Puts P.takes paper.old (served_text served.now.outcome served.now.reading) paper.new }
{
    match &served.outcome {
        Outcome::Stored { .. } => put_stored(paper, served.reading.as_ref()),
        Outcome::PartKept => put_text(paper, "  part\n"),
        Outcome::Refused(reason) => put_refused(paper, *reason),
        Outcome::Ticked { .. } => {}
        Outcome::Queued(_) => {}
        Outcome::Cancelled(_) => {}
        Outcome::Rekeyed => {}
    }
}

/// Puts what stands below a line.
#[tactic(auto, using(paper::proofs::Calls::none))]
pub(crate) fn put_answer<P: Paper>(paper: &mut P, answer: &Answer)
    ensures { Puts P.takes paper.old (answer_text answer.now) paper.new }
{
    match answer {
        Answer::Nothing => {}
        Answer::NoKey(address) => put_no_key(paper, *address),
        Answer::Slot(served) => put_served(paper, served),
    }
}
