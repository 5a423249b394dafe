//! The run over a receiver's lines.
ghost use Rattle.std.specs.Prelude.{◌≡◌, false};
ghost use Rattle.outer_io.specs.Shown.{source_change, sink_change};
ghost use Rattle.address_list.specs.Run.{IsRun};

use crate::telling::Addresses;
use line_reader::TextReader;
use line_teller::{LinesEnd, tell_lines};
use outer_io::{Sink, Source, StdSink};
use std::alloc::Global;

/// Prints of each line the address of the meter that it is for, in sixteen digits, or a dash where it is for none: each before the next
/// line is taken.
///
/// The reader is one that was just made over the input, for lines of at most `LINE_MAX` bytes.
pub fn list_addresses<S: Source, K: Sink>(
    alloc: Global,
    input: &mut TextReader<S>,
    out: &mut K,
) -> LinesEnd
    requires fresh { input.old.reader.line ≡ 0 }
    requires goes_on { input.old.reader.done ≡ false }
    requires longest { input.old.longest ≡ 1024 }
    ensures { IsRun (record {
      input_tells = S.tells;
      out_tells = K.tells;
      input = source_change S.Source input.old.reader.source input.new.reader.source;
      out = sink_change K.Sink out.old out.new;
      end = result;
    }) }
{
    let mut notes = StdSink::nothing();
    tell_lines(alloc, input, &mut Addresses, out, &mut notes, 0)
}
