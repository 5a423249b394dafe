//! The run.
ghost use Rattle.std.specs.Prelude.{◌≡◌, ◌≤◌, false};
ghost use Rattle.outer_io.specs.Shown.{source_change, sink_change};
ghost use Rattle.state_file.specs.Written.{state_text};
ghost use Rattle.steps_main.specs.Ending.{known_of, end_text, Finishes};
ghost use Rattle.steps_main.specs.Run.{IsRun};
ghost use Rattle.steps_main.specs.Statuses.{IsUnread};

use crate::beginning::known;
use crate::ending::write_end;
use crate::leaving::{show_left, write_left};
use crate::status::{StepsStatus, status_of};
use crate::telling::Stepper;
use line_reader::TextReader;
use line_teller::{LinesEnd, tell_lines};
use meter_address::Address;
use outer_io::{Sink, Source, StdSink};
use std::alloc::Global;

// Writes what is left for the next session, and then what is told behind all lines, where every line was told that could be read.
fn finish<K: Sink, N: Sink>(
    own: Address,
    stepper: &Stepper,
    end: LinesEnd,
    next: &mut N,
    out: &mut K,
) -> StepsStatus
    ensures finishes { Finishes (record {
      end = end;
      left = state_text (known_of own stepper.now.world);
      ending = end_text stepper.now end;
      next_tells = N.tells;
      next = sink_change N.Sink next.old next.new;
      out_tells = K.tells;
      out = sink_change K.Sink out.old out.new;
      status = result;
    }) }
    ensures later_next { N.faults next.old ≤ N.faults next.new }
    ensures later_out { K.faults out.old ≤ K.faults out.new }
{
    if !end.is_whole() {
        return status_of(end);
    }
    match write_left(own, &stepper.world, next) {
        Err(_) => StepsStatus::WriteNext,
        Ok(()) => match write_end(stepper, end, out) {
            Err(_) => StepsStatus::WriteSteps,
            Ok(()) => status_of(end),
        },
    }
}

/// Hears all lines of a receiver for the meters of a state, which may be a roster. Of each line what became of it is written on `out` as soon
/// as more than `room` bytes wait there: with no room before the next one is taken. Behind them all what is left for the next session is written on `next`, and then on `out` the block of each meter
/// that had a step, and the counts last: where they are missing, what stands above them was cut off.
///
/// The receiver is one that was just made over its source, for lines of at most `LINE_MAX` bytes.
pub fn tell_steps<S: Source, K: Sink, N: Sink>(
    alloc: Global,
    beginning: &mut S,
    receiver: &mut TextReader<S>,
    next: &mut N,
    out: &mut K,
    room: usize,
) -> StepsStatus
    requires fresh { receiver.old.reader.line ≡ 0 }
    requires goes_on { receiver.old.reader.done ≡ false }
    requires longest { receiver.old.longest ≡ 1024 }
    ensures run { IsRun (record {
      sources_tell = S.tells;
      next_tells = N.tells;
      out_tells = K.tells;
      beginning = source_change S.Source beginning.old beginning.new;
      receiver = source_change S.Source receiver.old.reader.source receiver.new.reader.source;
      next = sink_change N.Sink next.old next.new;
      out = sink_change K.Sink out.old out.new;
      status = result;
    }) }

    // After statuses 3 and 4 the receiver is as it was.
    ensures unread { IsUnread result → receiver.new ≡ receiver.old }
{
    let state = match known(alloc, beginning) {
        Ok(state) => state,
        Err(status) => return status,
    };
    let own = state.own();
    let Ok(mut stepper) = Stepper::new(alloc, own, state.into_starts()) else {
        return StepsStatus::Memory;
    };
    let end = tell_lines(
        alloc,
        receiver,
        &mut stepper,
        out,
        &mut StdSink::nothing(),
        room,
    );
    show_left(own, &stepper.world);
    finish(own, &stepper, end, next, out)
}
