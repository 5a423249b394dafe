//! The run over a roster and the lines of a file.
ghost use Rattle.std.specs.Prelude.{◌≡◌, false, IsTrue, Ok};
ghost use Rattle.outer_io.specs.Shown.{source_change, sink_change};
ghost use Rattle.frame_inspect.specs.Run.{IsShowing, IsRun};

use crate::status::RecordsStatus;
use crate::telling::Opener;
use line_reader::TextReader;
use line_teller::{LinesEnd, tell_lines};
use outer_io::{Sink, Source, StdSink};
use roster_file::{Roster, load_roster};
use std::alloc::Global;

// Shows all lines under the keys of a roster.
fn show_lines<S: Source, K: Sink>(
    alloc: Global,
    roster: Roster,
    frames: &mut TextReader<S>,
    out: &mut K,
) -> LinesEnd
    requires fresh { frames.old.reader.line ≡ 0 }
    requires goes_on { frames.old.reader.done ≡ false }
    requires longest { frames.old.longest ≡ 1024 }
    ensures { IsShowing (record {
      meters = roster.meters;
      source_tells = S.tells;
      out_tells = K.tells;
      frames = source_change S.Source frames.old.reader.source frames.new.reader.source;
      out = sink_change K.Sink out.old out.new;
      end = result;
    }) }
{
    let mut notes = StdSink::nothing();
    let mut opener = Opener { roster };
    tell_lines(alloc, frames, &mut opener, out, &mut notes, 0)
}

/// Shows what every layer of the frames of a file says, a line for each of its lines, and below it the data records of its message where
/// a key of the roster opens it, or why it isn't opened. Each frame is opened by itself: a fragment says nothing alone, and a message that
/// comes again is opened again. What is shown of a line is written before
/// the next is taken.
///
/// The reader is one that was just made over the file, for lines of at most `LINE_MAX` bytes.
pub fn show_records<S: Source, K: Sink>(
    alloc: Global,
    keys: &mut S,
    frames: &mut TextReader<S>,
    out: &mut K,
) -> RecordsStatus
    requires fresh { frames.old.reader.line ≡ 0 }
    requires goes_on { frames.old.reader.done ≡ false }
    requires longest { frames.old.longest ≡ 1024 }
    ensures { IsRun (record {
      sources_tell = S.tells;
      out_tells = K.tells;
      keys = source_change S.Source keys.old keys.new;
      frames = source_change S.Source frames.old.reader.source frames.new.reader.source;
      out = sink_change K.Sink out.old out.new;
      status = result;
    }) }
{
    match load_roster(alloc, keys) {
        Ok(roster) => RecordsStatus::Shown(show_lines(alloc, roster, frames, out)),
        Err(fault) => RecordsStatus::of_fault(fault),
    }
}
