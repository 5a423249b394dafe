//! A session of one receiver.
ghost use Rattle.std.specs.Prelude.{◌≡◌, ◌≢◌, [], ◌∷◌, false, IsTrue};
ghost use Rattle.outer_io.specs.Shown.{HasText, source_change, sink_change};
ghost use Rattle.receivers.specs.Run.{receiver_run};
ghost use Rattle.report_text.specs.Report.{report_text};
ghost use Rattle.collector_main.specs.declared.form.Form.TheVariants.{State as AState};
ghost use Rattle.collector_main.specs.Run.{IsRun};
ghost use Rattle.receivers.specs.Receiver.{IsFresh};
ghost use Rattle.collector_main.specs.Showing.{report_output};
ghost use Rattle.collector_main.specs.Statuses.{IsUnread, IsFinished, status_at, after_failed_write};

use crate::begin::known;
use crate::form::Form;
use crate::status::Status;
use meter_worlds::World;
use outer_io::{Sink, Source};
use receivers::{Alone, Ended, Receiver};
use report_text::{ReceiverEnd, Session, report};
use std::alloc::Global;

// The status of a receiver that ended so, where the report has its whole text.
fn status_of(ended: Ended) -> Status
    requires { (ended ≢ Ended.TxFault) × (ended ≢ Ended.Memory) }
    ensures { result ≡ status_at 1 ended }
{
    match ended {
        Ended::End => Status::Done,
        Ended::Cut => Status::Cut(1),
        Ended::ReadFault => Status::Read(1),
        Ended::TxFault | Ended::Memory => unreachable!(),
    }
}

// The status where a write of the report failed: an end of the receiver that is no `End` comes first.
fn unwritten(status: Status) -> Status
    ensures status { result ≡ after_failed_write status }
    ensures not_done { result ≢ Status.Done }
{
    match status {
        Status::Done => Status::Write(3),
        other => other,
    }
}

// Writes the report of a receiver that ended so, and answers the status or that of a failed write.
fn finish<K: Sink>(sink: &mut K, session: &Session<'_>, ended: Ended) -> Status
    requires empty { IsTrue K.tells → K.written sink.old ≡ [] }
    requires ended { (ended ≢ Ended.TxFault) × (ended ≢ Ended.Memory) }
    ensures status { IsFinished ended (sink_change K.Sink sink.old sink.new) result }
    ensures written { IsTrue K.tells →
        HasText (report_text session.now.ends.now session.now.slots.now session.now.strangers.now) (sink_change K.Sink sink.old sink.new) }
    ensures done { result ≡ Status.Done → IsTrue K.tells →
        K.written sink.new ≡ report_text session.now.ends.now session.now.slots.now session.now.strangers.now }
{
    let status = status_of(ended);
    match report(session, sink) {
        Ok(()) => status,
        Err(_) => unwritten(status),
    }
}

// Writes the report of one receiver.
fn finish_one<K: Sink>(sink: &mut K, end: ReceiverEnd, world: &World) -> Status
    requires empty { IsTrue K.tells → K.written sink.old ≡ [] }
    requires ended { (end.ended ≢ Ended.TxFault) × (end.ended ≢ Ended.Memory) }
    ensures status { IsFinished end.ended (sink_change K.Sink sink.old sink.new) result }
    ensures written { IsTrue K.tells →
        HasText (report_text (end ∷ []) world.now.slots world.now.strangers) (sink_change K.Sink sink.old sink.new) }
    ensures done { result ≡ Status.Done → IsTrue K.tells →
        K.written sink.new ≡ report_text (end ∷ []) world.now.slots world.now.strangers }
{
    let ended = end.ended;
    let ends = [end];
    let session = Session {
        ends: &ends,
        slots: world.slots(),
        strangers: world.strangers(),
    };
    finish(sink, &session, ended)
}

/// Hears all lines of one fresh receiver for the meters of a state, which may be a roster, and writes the report. It returns.
///
/// Nothing is written to the receiver's `tx`.
pub fn hear_session<S: Source, K: Sink>(
    alloc: Global,
    beginning: &mut S,
    receiver: &mut Receiver<S, K>,
    report: &mut K,
) -> Status
    requires fresh { IsFresh receiver.old }
    requires empty { IsTrue K.tells → K.written report.old ≡ [] }

    // A run of one receiver, whose one output is the report.
    ensures run { IsRun (record {
      sources_tell = S.tells;
      sinks_tell = K.tells;
      form = AState;
      beginning = source_change S.Source beginning.old beginning.new;
      receivers = receiver_run S.Source K.Sink receiver.old receiver.new ∷ [];
      sends = false;
      outputs = report_output (sink_change K.Sink report.old report.new) ∷ [];
      status = result;
    }) }

    // What stays as it was: the receiver after statuses 3 and 4, and always its `tx`.
    ensures unread { IsUnread result → receiver.new ≡ receiver.old }
    ensures tx { receiver.new.tx ≡ receiver.old.tx }
{
    let state = match known(alloc, Form::State, beginning) {
        Ok(state) => state,
        Err(status) => return status,
    };
    let own = state.own();
    let Ok(world) = World::new(alloc, own, state.into_starts()) else {
        return Status::Memory;
    };
    let mut alone = Alone { source: 1, world };
    match receiver.work_alone(&mut alone) {
        Ended::Memory => Status::Memory,
        ended => {
            let counts = receiver.counts();
            finish_one(report, ReceiverEnd { counts, ended }, &alone.world)
        }
    }
}
