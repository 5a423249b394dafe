//! A session told step by step over whatever the words name, with the exit status.
ghost use Rattle.std.specs.Prelude.{◌≡◌, false};
ghost use Rattle.std.specs.Process.{exit_status};
ghost use Rattle.outer_io.specs.Shown.{source_change, sink_change};
ghost use Rattle.collector_main.specs.Statuses.{code_of};
ghost use Rattle.steps_main.specs.Run.{IsRun};
ghost use Rattle.steps_main.specs.Statuses.{code_of as steps_code};
ghost use Rattle.steps_main.specs.declared.status.StepsStatus.{StepsStatus as RunStatus};
ghost use Rattle.wmbus.specs.Exit.{IsStepsExit};

use crate::session::end;
use collector_main::Status;
use line_reader::TextReader;
use outer_io::{Sink, Source};
use std::process::ExitCode;
use steps_main::{StepsStatus, tell_steps};

// The collector's status of the same words and number, of the one receiver that there is.
fn status_of(status: StepsStatus) -> Status
    ensures { code_of result ≡ steps_code status }
{
    match status {
        StepsStatus::Done => Status::Done,
        StepsStatus::ReadState => Status::ReadRoster,
        StepsStatus::Roster(line, cause) => Status::Roster(line, cause),
        StepsStatus::State(line, cause) => Status::State(line, cause),
        StepsStatus::Read => Status::Read(1),
        StepsStatus::Cut => Status::Cut(1),
        StepsStatus::WriteNext => Status::Write(1),
        StepsStatus::WriteSteps => Status::Write(4),
        StepsStatus::Memory => Status::Memory,
    }
}

/// Tells a receiver's lines step by step, and ends with the status of that. With no room each is told before the next one is taken, and else
/// once more than so many bytes wait.
pub(crate) fn step_over<R: Eprint + AllocGlobal, S: Source, N: Sink, K: Sink>(
    rt: &R,
    beginning: &mut S,
    receiver: &mut TextReader<S>,
    next: &mut N,
    out: &mut K,
    room: usize,
) -> ExitCode
    requires fresh { receiver.old.reader.line ≡ 0 }
    requires goes_on { receiver.old.reader.done ≡ false }
    requires longest { receiver.old.longest ≡ 1024 }

    // The exit status is that of a run over the receiver's lines, and one of those that the program has for steps.
    ensures run { (status : RunStatus) × (exit_status result ≡ steps_code status) × IsRun (record {
      sources_tell = S.tells;
      next_tells = N.tells;
      out_tells = K.tells;
      beginning = source_change S.Source beginning.old beginning.new;
      receiver = source_change S.Source receiver.old.reader.source receiver.new.reader.source;
      next = sink_change N.Sink next.old next.new;
      out = sink_change K.Sink out.old out.new;
      status = status;
    }) }
    ensures exit { IsStepsExit (exit_status result) }
{
    let status = tell_steps(rt.alloc(), beginning, receiver, next, out, room);
    end(rt, status_of(status))
}
