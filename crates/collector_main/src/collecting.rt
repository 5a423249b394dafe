//! A session of several receivers, which hear at once.
ghost use Rattle.std.specs.Prelude.{◌≡◌, ◌≢◌, ◌<◌, ◌^◌, [], IsTrue, IfSome, true, map, vec_len};
ghost use Rattle.lists.specs.Each.{Each};
ghost use Rattle.outer_io.specs.Shown.{source_change, sink_change};
ghost use Rattle.receivers.specs.Run.{receiver_runs};
ghost use Rattle.report_text.specs.Readings.{readings_text};
ghost use Rattle.report_text.specs.Report.{meter_text, report_text};
ghost use Rattle.collector_main.specs.Heard.{next_text};
ghost use Rattle.collector_main.specs.Run.{IsRun};
ghost use Rattle.receivers.specs.Receiver.{IsFresh};
ghost use Rattle.collector_main.specs.Showing.{all_outputs};
ghost use Rattle.collector_main.specs.Statuses.{IsUnread, Wrote};

use crate::at_once::{let_go, parts_made};
use crate::begin::known;
use crate::form::Form;
use crate::status::Status;
use crate::stops::{Writes, first_stop, status_after};
use crate::together::{HeardTogether, hear_together};
use meter_address::Address;
use meter_slots::SlotBook;
use outer_io::{Failed, Sink, Source};
use receivers::Receiver;
use report_text::{MeterPart, Session, readings_json, report, report_of_parts};
use state_file::{LeftRoster, LeftState};
use std::alloc::Global;
use std::sync::Wait;
use std::thread::Threads;

/// Writes a report by its slots' parts, or from the slots where there are none.
pub(crate) fn write_report<K: Sink>(
    session: &Session<'_>,
    parts: &Option<Vec<MeterPart<'_>>>,
    sink: &mut K,
) -> Result<(), Failed>
    requires empty { IsTrue K.tells → K.written sink.old ≡ [] }
    requires parts { IfSome parts.now (λ parts. parts.items ≡ map meter_text session.now.slots.now) }
    ensures { Wrote K.tells (report_text session.now.ends.now session.now.slots.now session.now.strangers.now)
        (sink_change K.Sink sink.old sink.new) result }
{
    match parts {
        Some(parts) => report_of_parts(session, parts.as_slice(), sink),
        None => report(session, sink),
    }
}

// Writes what the slots leave for the next session.
fn write_next<K: Sink>(
    form: Form,
    own: Address,
    slots: &[SlotBook],
    sink: &mut K,
) -> Result<(), Failed>
    requires empty { IsTrue K.tells → K.written sink.old ≡ [] }
    ensures { Wrote K.tells (next_text form own slots.now) (sink_change K.Sink sink.old sink.new) result }
{
    match form {
        Form::Roster => paper::write(sink, &LeftRoster { own, slots }),
        Form::State => paper::write(sink, &LeftState { own, slots }),
    }
}

// Writes what is left for the next session, the readings and the report, each whatever became of the ones before it. What memory there is
// for parts of the report is taken before anything is written.
fn write_outputs<R: Threads + Sync, K: Sink>(
    rt: &R,
    alloc: Global,
    form: Form,
    own: Address,
    heard: &HeardTogether,
    next: &mut K,
    readings: &mut K,
    report_sink: &mut K,
) -> Writes
    requires empty { IsTrue K.tells →
        (K.written next.old ≡ []) × (K.written readings.old ≡ []) × (K.written report_sink.old ≡ []) }
    ensures next { Wrote K.tells (next_text form own heard.now.collected.slots.items) (sink_change K.Sink next.old next.new) result.next }
    ensures readings { Wrote K.tells (readings_text heard.now.collected.slots.items)
        (sink_change K.Sink readings.old readings.new) result.readings }
    ensures report { Wrote K.tells
        (report_text heard.now.ends.items heard.now.collected.slots.items heard.now.collected.strangers)
        (sink_change K.Sink report_sink.old report_sink.new) result.report }
{
    let session = Session {
        ends: heard.ends.as_slice(),
        slots: heard.collected.slots.as_slice(),
        strangers: &heard.collected.strangers,
    };
    let parts = parts_made(rt, alloc, session.ends.len(), session.slots);
    Writes {
        next: write_next(form, own, session.slots, next),
        readings: readings_json(alloc, &session, readings),
        report: write_report(&session, &parts, report_sink),
    }
}

/// Hears all lines of some fresh receivers at once for the meters of a beginning of a form, and writes what is left for the next session in
/// that form, the readings and the report. It may wait. After `Memory` nothing is said of the receivers.
pub fn collect_session<R: Threads + Wait + Sync, S: Source + Send + Drop, K: Sink + Send + Drop>(
    rt: &R,
    alloc: Global,
    form: Form,
    beginning: &mut S,
    receivers: &mut Vec<Receiver<S, K>>,
    next: &mut K,
    readings: &mut K,
    report: &mut K,
) -> Status
    requires few { vec_len receivers.old < 2 ^ 32 }
    requires fresh { Each IsFresh receivers.old.items }
    requires empty { IsTrue K.tells →
        (K.written next.old ≡ []) × (K.written readings.old ≡ []) × (K.written report.old ≡ []) }

    // A run of the receivers, which sends downlinks and writes all outputs.
    ensures run { IsRun (record {
      sources_tell = S.tells;
      sinks_tell = K.tells;
      form = form;
      beginning = source_change S.Source beginning.old beginning.new;
      receivers = receiver_runs S.Source K.Sink receivers.old.items receivers.new.items;
      sends = true;
      outputs = all_outputs form (sink_change K.Sink next.old next.new) (sink_change K.Sink readings.old readings.new)
          (sink_change K.Sink report.old report.new);
      status = result;
    }) }

    // What stays as it was: the receivers after statuses 3 and 4, and but for 10 always their number.
    ensures unread { IsUnread result → receivers.new.items ≡ receivers.old.items }
    ensures receivers { result ≢ Status.Memory → vec_len receivers.new ≡ vec_len receivers.old }
{
    let state = match known(alloc, form, beginning) {
        Ok(state) => state,
        Err(status) => return status,
    };
    let own = state.own();
    let Ok(heard) = hear_together(rt, alloc, own, state.into_starts(), receivers) else {
        return Status::Memory;
    };
    let stop = first_stop(0, heard.ends.as_slice());
    let writes = write_outputs(rt, alloc, form, own, &heard, next, readings, report);
    let_go(rt, alloc, own, receivers.len(), heard.collected.slots);
    status_after(stop, writes)
}
