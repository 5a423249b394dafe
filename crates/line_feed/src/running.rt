//! A feed from its first line to its last.
ghost use Rattle.std.specs.Prelude.{◌≡◌, ◌≤◌, [], IsTrue, IfOk, OnErr, Err};
ghost use Rattle.outer_io.specs.Shown.{source_change, sink_change};
ghost use Rattle.line_feed.specs.FileRun.{IsFileRun};
ghost use Rattle.line_teller.specs.Ending.{IsNoted};
ghost use Rattle.line_feed.specs.Feeding.{Fed};
ghost use Rattle.line_feed.specs.Run.{IsRun, end_notes};

use crate::clock::Clock;
use crate::cutting::{Unfit, cut_half_line};
use crate::feed::Feed;
use crate::line_file::LineFile;
use crate::lines::LINE_MAX;
use crate::notes::EndingNote;
use crate::printings::Printing;
use crate::status::FeedStatus;
use crate::streaming::tell_stream;
use line_teller::LinesEnd;
use outer_io::{Sink, Source};
use paper::write;
use std::alloc::Global;

// Notes how many lines were taken and how many weren't, where every line was fed that could be read.
fn note_end<E: Sink, C: Clock + Drop>(end: LinesEnd, feed: &Feed<C>, notes: &mut E)
    ensures noted { IsTrue E.tells → IsNoted (end_notes end feed.now) (sink_change E.Sink notes.old notes.new) }
    ensures later { E.faults notes.old ≤ E.faults notes.new }
{
    if !end.is_whole() {
        return;
    }
    let _written = write(
        notes,
        &EndingNote {
            taken: feed.taken(),
            left_out: feed.left_out(),
        },
    );
}

/// Prints on `out` the line of each telegram in a receiver's lines, at once, and notes on `notes` each line that isn't taken, and how
/// many are and how many aren't.
///
/// The input is one of which nothing was taken yet. It needn't end: however many lines it has, memory doesn't grow.
pub fn feed_lines<S: Source, K: Sink, E: Sink, C: Clock + Drop>(
    alloc: Global,
    printing: Printing,
    clock: C,
    input: &mut S,
    out: &mut K,
    notes: &mut E,
) -> FeedStatus
    requires fresh { IsTrue S.tells → S.taken input.old ≡ [] }
    ensures { IsRun (record {
      printing = printing;
      input_tells = S.tells;
      out_tells = K.tells;
      notes_tell = E.tells;
      input = source_change S.Source input.old input.new;
      out = sink_change K.Sink out.old out.new;
      notes = sink_change E.Sink notes.old notes.new;
      status = result;
    }) }
{
    let mut feed = Feed::new(printing, clock);
    let end = tell_stream(alloc, input, LINE_MAX, &mut feed, out, notes);
    note_end(end, &feed, notes);
    FeedStatus::of_lines(end, feed.left_out())
}

/// Feeds as `feed_lines` does into a file that is appended to, which has whole lines alone: a line at its end that has no newline, which a program
/// left that was killed, is cut off before. A file that can't be mended so, or isn't one of lines, is left as it is.
pub fn feed_file<S: Source, F: LineFile, E: Sink, C: Clock + Drop>(
    alloc: Global,
    printing: Printing,
    clock: C,
    input: &mut S,
    file: &mut F,
    notes: &mut E,
) -> Result<FeedStatus, Unfit>
    requires fresh { IsTrue S.tells → S.taken input.old ≡ [] }
    ensures run { IfOk result (λ status. IsFileRun printing status S.tells (source_change S.Source input.old input.new)
        F.tells (sink_change F.Sink file.old file.new) E.tells (sink_change E.Sink notes.old notes.new)) }
    ensures same { OnErr result (IsTrue F.tells → F.written file.new ≡ F.written file.old) }
{
    match cut_half_line(file) {
        Ok(()) => Ok(feed_lines(alloc, printing, clock, input, file, notes)),
        Err(unfit) => Err(unfit),
    }
}
