//! The top call.
ghost use Rattle.std.specs.Prelude.{◌≡◌, ◌≢◌, [], Err, false, IsTrue, IsOk, IfOk, IfErr, map, vec_len};
ghost use Rattle.std.specs.String.{string_bytes};
ghost use Rattle.lists.specs.Each.{Each};
ghost use Rattle.outer_io.specs.Shown.{source_change, sink_change};
ghost use Rattle.made_input.specs.Made.{made};
ghost use Rattle.receivers.specs.Run.{receiver_runs};
ghost use Rattle.collector_main.specs.MadeRun.{IsMadeRun, made_outputs};
ghost use Rattle.collector_main.specs.Run.{IsRun};
ghost use Rattle.receivers.specs.Receiver.{IsFresh};
ghost use Rattle.collector_main.specs.Showing.{IfMade, form_of, hears, collects};
ghost use Rattle.wmbus_words.specs.Words.{receiver_count};
ghost use Rattle.collector_main.specs.Showing.{asks_for_readings, sends_downlinks, outputs_of};
ghost use Rattle.collector_main.specs.Statuses.{IsUnread};
ghost use Rattle.wmbus_words.specs.Words.{plan_of};
ghost use Rattle.wmbus_words.specs.declared.asked.WordsFault.{WordsFault};

use crate::collecting::collect_session;
use crate::form::Form;
use crate::making::made_session;
use crate::session::hear_session;
use crate::status::Status;
use outer_io::{Sink, Source};
use receivers::Receiver;
use std::alloc::Global;
use std::sync::Wait;
use std::thread::Threads;
use wmbus_words::{Plan, words};

/// Runs what the words ask for, over sources and sinks. For `hear` the receiver is the one of the vector; `next` and
/// `readings` stay as they are, and so does the receiver's `tx`. For `collect` and `continue` all receivers of the vector are heard at once,
/// in the order of their numbers, and it may wait; after `Memory` nothing is said of them. For `made` there is no receiver in the vector: a
/// session is made, its report goes to `readings` and its summary to `report`, and `next` and the beginning stay as they are.
pub fn run<R: Threads + Wait + Sync, S: Source + Send + Drop, K: Sink + Send + Drop>(
    rt: &R,
    alloc: Global,
    command: &[String],
    beginning: &mut S,
    receivers: &mut Vec<Receiver<S, K>>,
    next: &mut K,
    readings: &mut K,
    report: &mut K,
) -> Status
    requires count { IfOk (plan_of (map string_bytes command.now)) (λ plan. vec_len receivers.old ≡ receiver_count plan) }
    requires fresh { IsOk (plan_of (map string_bytes command.now)) → Each IsFresh receivers.old.items }
    requires empty { IsTrue K.tells → K.written report.old ≡ [] }
    requires empty_next { IsTrue (collects (plan_of (map string_bytes command.now))) → IsTrue K.tells → K.written next.old ≡ [] }
    requires empty_readings { IsTrue (asks_for_readings (plan_of (map string_bytes command.now))) → IsTrue K.tells →
        K.written readings.old ≡ [] }

    // Status 2 comes exactly by the words.
    ensures words { IfErr (plan_of (map string_bytes command.now)) (λ fault. result ≡ Status.Words fault) }
    ensures only_words { (fault : WordsFault) → result ≡ Status.Words fault → plan_of (map string_bytes command.now) ≡ Err fault }

    // For `hear`, `collect` and `continue` a run of the receivers, with the outputs that the plan names.
    ensures run { IfOk (plan_of (map string_bytes command.now)) (λ plan. IsTrue (hears plan) → IsRun (record {
      sources_tell = S.tells;
      sinks_tell = K.tells;
      form = form_of plan;
      beginning = source_change S.Source beginning.old beginning.new;
      receivers = receiver_runs S.Source K.Sink receivers.old.items receivers.new.items;
      sends = sends_downlinks plan;
      outputs = outputs_of plan (sink_change K.Sink next.old next.new) (sink_change K.Sink readings.old readings.new)
          (sink_change K.Sink report.old report.new);
      status = result;
    })) }

    // For `made` a run of the session that is made of the numbers.
    ensures made { IfOk (plan_of (map string_bytes command.now)) (IfMade (λ meters telegrams number. IsMadeRun (record {
      made = made meters telegrams number;
      sinks_tell = K.tells;
      outputs = made_outputs meters telegrams (sink_change K.Sink readings.old readings.new) (sink_change K.Sink report.old report.new);
      status = result;
    }))) }

    // What stays as it was: all after faulty words, the beginning and the receivers for `made`, the receivers after statuses 3 and 4, their
    // number, and each `tx` and the outputs that the plan doesn't name.
    ensures beginning { IfErr (plan_of (map string_bytes command.now)) (λ _. beginning.new ≡ beginning.old) }
    ensures aside { IfOk (plan_of (map string_bytes command.now)) (IfMade (λ meters telegrams number.
        (beginning.new ≡ beginning.old) × (receivers.new.items ≡ receivers.old.items))) }
    ensures report { IfErr (plan_of (map string_bytes command.now)) (λ _. report.new ≡ report.old) }
    ensures unread { IsUnread result → receivers.new.items ≡ receivers.old.items }
    ensures receivers { (IsTrue (collects (plan_of (map string_bytes command.now))) → result ≢ Status.Memory)
        → vec_len receivers.new ≡ vec_len receivers.old }
    ensures tx { collects (plan_of (map string_bytes command.now)) ≡ false
        → map (λ r. r.tx) receivers.new.items ≡ map (λ r. r.tx) receivers.old.items }
    ensures next { collects (plan_of (map string_bytes command.now)) ≡ false → next.new ≡ next.old }
    ensures readings { asks_for_readings (plan_of (map string_bytes command.now)) ≡ false → readings.new ≡ readings.old }
{
    match words(command) {
        Err(fault) => Status::Words(fault),
        Ok(Plan::Hear) => {
            let receiver = &mut receivers[0];
            hear_session(alloc, beginning, receiver, report)
        }
        Ok(Plan::Collect(_)) => collect_session(
            rt,
            alloc,
            Form::Roster,
            beginning,
            receivers,
            next,
            readings,
            report,
        ),
        Ok(Plan::Continue(_)) => collect_session(
            rt,
            alloc,
            Form::State,
            beginning,
            receivers,
            next,
            readings,
            report,
        ),
        Ok(
            Plan::Made {
                meters,
                telegrams,
                number,
            },
        ) => made_session(rt, alloc, meters, telegrams, number, readings, report),
    }
}
