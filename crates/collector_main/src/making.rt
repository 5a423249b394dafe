//! Made sessions: telegrams that are made, and heard by four receivers at once.
ghost use Rattle.std.specs.Prelude.{◌≡◌, ◌≤◌, [], ◌∷◌, Ok, IsTrue, IfOk};
ghost use Rattle.lists.specs.Each.{EachWith};
ghost use Rattle.outer_io.specs.Shown.{sink_change};
ghost use Rattle.made_input.specs.Made.{made};
ghost use Rattle.made_input.specs.Summary.{summary_text};
ghost use Rattle.report_text.specs.Report.{report_text};
ghost use Rattle.collector_main.specs.MadeRun.{IsMadeRun, made_outputs};
ghost use Rattle.collector_main.specs.Ready.{HearsText, IsMadeTogether};
ghost use Rattle.collector_main.specs.Statuses.{Wrote};

use crate::at_once::{let_go, parts_made};
use crate::collecting::write_report;
use crate::status::Status;
use crate::stops::{Writes, unwritten};
use crate::together::{HeardTogether, hear_together};
use made_input::{HeardText, Made, MadeText, NoDownlinks, OWN, Summary, make};
use outer_io::{Memory, Sink};
use receivers::Receiver;
use report_text::Session;
use roster_file::read_roster;
use state_file::State;
use std::alloc::Global;
use std::sync::Wait;
use std::thread::Threads;

// A fresh receiver that hears a text.
fn receiver_of(text: MadeText) -> Receiver<HeardText, NoDownlinks>
    ensures { HearsText result text }
{
    Receiver::new(HeardText::new(text), NoDownlinks)
}

// Fresh receivers that hear the texts of a made session.
fn receivers_of(
    alloc: Global,
    first: MadeText,
    second: MadeText,
    third: MadeText,
    fourth: MadeText,
) -> Result<Vec<Receiver<HeardText, NoDownlinks>>, Memory>
    ensures { IfOk result (λ receivers. EachWith HearsText receivers.items (first ∷ second ∷ third ∷ fourth ∷ [])) }
{
    let mut receivers = Vec::new(alloc);
    receivers.push(receiver_of(first))?;
    receivers.push(receiver_of(second))?;
    receivers.push(receiver_of(third))?;
    receivers.push(receiver_of(fourth))?;
    Ok(receivers)
}

// Has four receivers hear what is made of so many meters and telegrams. Each of them hears all lines of its text to the end: no read of
// one fails, and none is past the limits.
fn hear_made<R: Threads + Wait + Sync>(
    rt: &R,
    alloc: Global,
    meters: u32,
    telegrams: u32,
    number: u64,
) -> Result<HeardTogether, Memory>
    requires meters { (1 ≤ meters) × (meters ≤ 1024) }
    requires telegrams { (1 ≤ telegrams) × (telegrams ≤ 16384) }
    ensures { IfOk result (IsMadeTogether (made meters telegrams number)) }
{
    let Made {
        roster,
        first,
        second,
        third,
        fourth,
    } = make(rt, alloc, meters, telegrams, number)?;
    // A made roster is one, so that it is refused for want of memory alone.
    let Ok(roster) = read_roster(alloc, roster.as_slice()) else {
        return Err(Memory);
    };
    let state = State::of_roster(alloc, &roster)?;
    let own = state.own();
    let mut receivers = receivers_of(alloc, first, second, third, fourth)?;
    hear_together(rt, alloc, own, state.into_starts(), &mut receivers)
}

// Writes the report of a made session and its summary, the second whatever became of the first. What memory there is for parts of the
// report is taken before anything is written.
fn write_made<R: Threads + Sync, K: Sink>(
    rt: &R,
    alloc: Global,
    heard: &HeardTogether,
    summary: Summary,
    readings: &mut K,
    report_sink: &mut K,
) -> Writes
    requires empty { IsTrue K.tells → (K.written readings.old ≡ []) × (K.written report_sink.old ≡ []) }
    ensures next { result.next ≡ Ok tt }
    ensures readings { Wrote K.tells
        (report_text heard.now.ends.items heard.now.collected.slots.items heard.now.collected.strangers)
        (sink_change K.Sink readings.old readings.new) result.readings }
    ensures report { Wrote K.tells (summary_text summary.meters summary.telegrams)
        (sink_change K.Sink report_sink.old report_sink.new) result.report }
{
    let session = Session {
        ends: heard.ends.as_slice(),
        slots: heard.collected.slots.as_slice(),
        strangers: &heard.collected.strangers,
    };
    let parts = parts_made(rt, alloc, session.ends.len(), session.slots);
    Writes {
        next: Ok(()),
        readings: write_report(&session, &parts, readings),
        report: paper::write(report_sink, &summary),
    }
}

/// Makes a session of so many meters and telegrams, drawn from a number, has four receivers hear it at once, and writes its report to
/// `readings` and its summary to `report`. It may wait.
pub fn made_session<R: Threads + Wait + Sync, K: Sink>(
    rt: &R,
    alloc: Global,
    meters: u32,
    telegrams: u32,
    number: u64,
    readings: &mut K,
    report: &mut K,
) -> Status
    requires meters { (1 ≤ meters) × (meters ≤ 1024) }
    requires telegrams { (1 ≤ telegrams) × (telegrams ≤ 16384) }
    requires empty { IsTrue K.tells → (K.written readings.old ≡ []) × (K.written report.old ≡ []) }
    ensures { IsMadeRun (record {
      made = made meters telegrams number;
      sinks_tell = K.tells;
      outputs = made_outputs meters telegrams (sink_change K.Sink readings.old readings.new) (sink_change K.Sink report.old report.new);
      status = result;
    }) }
{
    let Ok(heard) = hear_made(rt, alloc, meters, telegrams, number) else {
        return Status::Memory;
    };
    let summary = Summary { meters, telegrams };
    let writes = write_made(rt, alloc, &heard, summary, readings, report);
    let_go(rt, alloc, OWN, heard.ends.len(), heard.collected.slots);
    unwritten(writes)
}
