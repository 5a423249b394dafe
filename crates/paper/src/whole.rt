//! A text written whole.
ghost use Rattle.std.specs.Prelude.{◌≡◌, ◌≤◌, ◌++◌, [], false, IsTrue, OnOk, OnErr};
ghost use Rattle.outer_io.specs.Bytes.{AppendsFront};
ghost use Rattle.outer_io.specs.Faults.{Rose};

use crate::pieces::Printed;
use crate::sink_paper::SinkPaper;
use outer_io::{Failed, Sink};

// Puts a text on a fresh paper, and gives all of it to the sink.
fn print_whole<K: Sink, T: Printed>(paper: &mut SinkPaper<'_, K>, thing: &T) -> Result<(), Failed>
    requires fresh { paper.old.failed ≡ false }
    requires empty { paper.old.page ≡ [] }
    ensures same { paper.new.sink.ghost_name ≡ paper.old.sink.ghost_name }
    ensures ok { OnOk result (IsTrue K.tells → K.written paper.new.sink.now ≡ K.written paper.old.sink.now ++ T.text thing.now) }
    ensures err { OnErr result (IsTrue K.tells →
        AppendsFront (T.text thing.now) (K.written paper.old.sink.now) (K.written paper.new.sink.now)) }
    ensures later { K.faults paper.old.sink.now ≤ K.faults paper.new.sink.now }
    ensures cause { OnErr result (Rose (K.faults paper.old.sink.now) (K.faults paper.new.sink.now)) }
{
    thing.print(paper);
    paper.finish()
}

/// Writes a text on a sink, in large pieces and without memory. On `Failed` some first bytes of it were written.
pub fn write<K: Sink, T: Printed>(sink: &mut K, thing: &T) -> Result<(), Failed>
    ensures ok { OnOk result (IsTrue K.tells → K.written sink.new ≡ K.written sink.old ++ T.text thing.now) }
    ensures err { OnErr result (IsTrue K.tells → AppendsFront (T.text thing.now) (K.written sink.old) (K.written sink.new)) }
    ensures later { K.faults sink.old ≤ K.faults sink.new }
    ensures cause { OnErr result (Rose (K.faults sink.old) (K.faults sink.new)) }
{
    let mut paper = SinkPaper::new(sink);
    print_whole(&mut paper, thing)
}
