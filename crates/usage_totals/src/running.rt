//! The run over a file of edits and questions.
ghost use Rattle.std.specs.Prelude.{◌≡◌, [], false, map, IsTrue};
ghost use Rattle.std.specs.String.{string_bytes};
ghost use Rattle.outer_io.specs.Shown.{source_change, sink_change};
ghost use Rattle.line_reader.specs.Reader.{given};
ghost use Rattle.usage_totals.specs.Run.{IsRun};

use crate::answer::Answerer;
use crate::asked::totals_asked;
use crate::status::TotalsStatus;
use crate::totals::Totals;
use line_reader::TextReader;
use line_teller::tell_one_by_one;
use outer_io::{Sink, Source, StdSink};
use std::alloc::Global;

/// Answers the lines of a file of edits and questions, one after another: a line is answered before the next is taken.
///
/// The words are those of the program, without its name: the file, and `--addressed` in front of it where each answer is to have the
/// address of its meter in it. The reader is one that was just made over it,
/// for lines of at most `LINE_MAX` bytes.
pub fn totals_run<S: Source, K: Sink>(
    alloc: Global,
    words: &[String],
    edits: &mut TextReader<S>,
    out: &mut K,
) -> TotalsStatus
    requires fresh { edits.old.reader.line ≡ 0 }
    requires goes_on { edits.old.reader.done ≡ false }
    requires longest { edits.old.longest ≡ 7774 }
    requires untaken { IsTrue S.tells → S.taken edits.old.reader.source ≡ [] }
    requires empty { IsTrue K.tells → K.written out.old ≡ [] }
    ensures { IsRun (record {
      sources_tell = S.tells;
      sinks_tell = K.tells;
      words = map string_bytes words.now;
      edits = source_change S.Source edits.old.reader.source edits.new.reader.source;
      lines = given S.taken edits.new.reader;
      out = sink_change K.Sink out.old out.new;
      status = result;
    }) }
{
    let Some(asked) = totals_asked(words) else {
        return TotalsStatus::Words;
    };
    let mut answerer = Answerer {
        totals: Totals::new(alloc),
        addressed: asked.addressed,
    };
    TotalsStatus::of_lines(tell_one_by_one(
        alloc,
        edits,
        &mut answerer,
        out,
        &mut StdSink::nothing(),
    ))
}
