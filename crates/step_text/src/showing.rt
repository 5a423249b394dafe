//! Numbers fit 64 bits. Nothing is done here: types say it.
ghost use Rattle.std.specs.Prelude.{IfSome, option_copied};
ghost use Rattle.step_text.specs.Numbers.{IsSmall, IsSmallSent, IsSmallStored, IsSmallOutcome};

use crate::causes::{reason_cause, show_values};
use meter_slots::{Outcome, Reading, SentDownlink};

/// A number of 32 bits is one.
pub(crate) fn show_number(number: u32)
    ensures { IsSmall number }
{}

fn show_long(number: u64)
    ensures { IsSmall number }
{}

/// So is one that there may be.
pub(crate) fn show_number_if(number: Option<u32>)
    ensures { IfSome number IsSmall }
{
    if let Some(number) = number {
        show_number(number);
    }
}

fn show_sent(sent: &SentDownlink)
    ensures { IfSome sent.now IsSmallSent }
{
    if let Some(downlink) = sent.get() {
        show_number(downlink.down());
        show_number(downlink.id());
    }
}

fn show_reading(reading: Option<&Reading>)
    ensures { IfSome (option_copied reading.entry) (λ r. IsSmall r.at) }
{
    if let Some(reading) = reading {
        show_long(reading.at);
    }
}

fn show_stored(counter: u32, confirmed: Option<u32>, sent: &SentDownlink, reading: Option<&Reading>)
    ensures { IsSmallStored counter confirmed sent.now (option_copied reading.entry) }
{
    show_number(counter);
    show_number_if(confirmed);
    show_sent(sent);
    show_reading(reading);
}

/// The numbers of an outcome are.
pub(crate) fn show_outcome(reading: Option<&Reading>, outcome: &Outcome)
    ensures { IsSmallOutcome (option_copied reading.entry) outcome.now }
{
    match outcome {
        Outcome::Stored {
            counter,
            confirmed,
            sent,
        } => show_stored(*counter, *confirmed, sent, reading),
        Outcome::Ticked { expired } => show_number_if(*expired),
        Outcome::Queued(id) | Outcome::Cancelled(id) => show_number(*id),
        Outcome::Refused(reason) => show_values(reason_cause(*reason).1),
        Outcome::PartKept | Outcome::Rekeyed => {}
    }
}
