//! A run over whatever the words name, with the exit status.
ghost use Rattle.std.specs.Prelude.{◌≡◌, [], false, IfOk, IsOk, IsTrue, map, vec_len};
ghost use Rattle.std.specs.String.{string_bytes};
ghost use Rattle.std.specs.Process.{exit_status};
ghost use Rattle.lists.specs.Each.{Each};
ghost use Rattle.outer_io.specs.Shown.{source_change, sink_change};
ghost use Rattle.made_input.specs.Made.{made};
ghost use Rattle.receivers.specs.Receiver.{IsFresh};
ghost use Rattle.receivers.specs.Run.{receiver_runs};
ghost use Rattle.collector_main.specs.declared.status.Status.{Status as RunStatus};
ghost use Rattle.collector_main.specs.MadeRun.{IsMadeRun, made_outputs};
ghost use Rattle.collector_main.specs.Run.{IsRun};
ghost use Rattle.collector_main.specs.Showing.{IfMade, form_of, hears, collects};
ghost use Rattle.collector_main.specs.Showing.{asks_for_readings, sends_downlinks, outputs_of};
ghost use Rattle.collector_main.specs.Statuses.{code_of};
ghost use Rattle.wmbus_words.specs.Words.{plan_of, receiver_count};
ghost use Rattle.wmbus.specs.Exit.{IsSessionExit};

use collector_main::{Receiver, Status, run};
use outer_io::{Sink, Source};
use std::process::ExitCode;
use std::sync::Wait;
use std::thread::Threads;

// Says what a status means, unless all is done, and ends with it.
pub(crate) fn end(rt: &impl Eprint, status: Status) -> ExitCode
    ensures { exit_status result ≡ code_of status }
{
    program_words::end(rt, status.code(), status)
}

// Runs what the words ask for, and ends with the status of that.
pub(crate) fn run_over<
    R: Threads + Wait + Sync + Eprint + AllocGlobal,
    S: Source + Send + Drop,
    K: Sink + Send + Drop,
>(
    rt: &R,
    command: &[String],
    beginning: &mut S,
    receivers: &mut Vec<Receiver<S, K>>,
    next: &mut K,
    readings: &mut K,
    report: &mut K,
) -> ExitCode
    requires words { IsOk (plan_of (map string_bytes command.now)) }
    requires count { IfOk (plan_of (map string_bytes command.now)) (λ plan. vec_len receivers.old ≡ receiver_count plan) }
    requires fresh { Each IsFresh receivers.old.items }
    requires empty { IsTrue K.tells →
        (K.written next.old ≡ []) × (K.written readings.old ≡ []) × (K.written report.old ≡ []) }

    // The exit status is that of a run of the receivers, or of a made session, and one of those that the program has for a session.
    ensures run { (status : RunStatus) × (exit_status result ≡ code_of status) ×
        IfOk (plan_of (map string_bytes command.now)) (λ plan. IsTrue (hears plan) → IsRun (record {
          sources_tell = S.tells;
          sinks_tell = K.tells;
          form = form_of plan;
          beginning = source_change S.Source beginning.old beginning.new;
          receivers = receiver_runs S.Source K.Sink receivers.old.items receivers.new.items;
          sends = sends_downlinks plan;
          outputs = outputs_of plan (sink_change K.Sink next.old next.new) (sink_change K.Sink readings.old readings.new)
              (sink_change K.Sink report.old report.new);
          status = status;
        })) }
    ensures made { (status : RunStatus) × (exit_status result ≡ code_of status) ×
        IfOk (plan_of (map string_bytes command.now)) (IfMade (λ meters telegrams number. IsMadeRun (record {
          made = made meters telegrams number;
          sinks_tell = K.tells;
          outputs = made_outputs meters telegrams (sink_change K.Sink readings.old readings.new) (sink_change K.Sink report.old report.new);
          status = status;
        }))) }
    ensures session { IsSessionExit (exit_status result) }

    // What stays as it was: the outputs that the plan doesn't name.
    ensures next { collects (plan_of (map string_bytes command.now)) ≡ false → next.new ≡ next.old }
    ensures readings { asks_for_readings (plan_of (map string_bytes command.now)) ≡ false → readings.new ≡ readings.old }
{
    let status = run(
        rt,
        rt.alloc(),
        command,
        beginning,
        receivers,
        next,
        readings,
        report,
    );
    end(rt, status)
}
