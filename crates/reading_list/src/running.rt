//! The run over a report.
ghost use Rattle.std.specs.Prelude.{◌≡◌, ◌≤◌, ◌++◌, [], false, IsTrue, OnOk, OnErr};
ghost use Rattle.outer_io.specs.Bytes.{AppendsFront};
ghost use Rattle.outer_io.specs.Faults.{Rose};
ghost use Rattle.outer_io.specs.Shown.{source_change, sink_change};
ghost use Rattle.line_teller.specs.Ending.{IsNoted};
ghost use Rattle.reading_list.specs.RecordLines.{head_text};
ghost use Rattle.reading_list.specs.Run.{IsRun};
ghost use Rattle.reading_list.specs.Running.{IsToldRun, end_notes, is_read_out};

use crate::forms::Form;
use crate::lister::Lister;
use crate::notes::EndingNote;
use crate::pages::list_pages;
use crate::status::ListStatus;
use line_teller::LinesEnd;
use outer_io::{Failed, Sink, Source, write_all};
use paper::write;
use std::alloc::Global;

// Whether the report was read to its end.
fn is_read_out(end: LinesEnd) -> bool
    ensures { result ≡ is_read_out end }
{
    match end {
        LinesEnd::Done => true,
        LinesEnd::Read | LinesEnd::Cut | LinesEnd::Write | LinesEnd::Memory => false,
    }
}

// Notes what is to be said behind all lines, where every line was listed that could be read.
fn note_end<E: Sink>(end: LinesEnd, lister: &Lister, notes: &mut E)
    ensures noted { IsTrue E.tells → IsNoted (end_notes end lister.now) (sink_change E.Sink notes.old notes.new) }
    ensures later { E.faults notes.old ≤ E.faults notes.new }
{
    if !end.is_whole() {
        return;
    }
    let _written = write(
        notes,
        &EndingNote {
            whole: !is_read_out(end) || lister.whole,
            count: lister.noted,
        },
    );
}

// Writes what stands in front of all lines.
fn write_head<K: Sink>(form: Form, out: &mut K) -> Result<(), Failed>
    ensures ok { OnOk result (IsTrue K.tells → K.written out.new ≡ K.written out.old ++ head_text form) }
    ensures err { OnErr result (IsTrue K.tells → AppendsFront (head_text form) (K.written out.old) (K.written out.new)) }
    ensures later { K.faults out.old ≤ K.faults out.new }
    ensures cause { OnErr result (Rose (K.faults out.old) (K.faults out.new)) }
{
    write_all(out, form.head().as_bytes())
}

// Lists all lines, behind what stands in front of them.
fn list_lines<S: Source, K: Sink, E: Sink>(
    alloc: Global,
    form: Form,
    report: &mut S,
    out: &mut K,
    notes: &mut E,
) -> ListStatus
    requires untaken { IsTrue S.tells → S.taken report.old ≡ [] }
    ensures run { IsToldRun (record {
      form = form;
      report_tells = S.tells;
      list_tells = K.tells;
      notes_tell = E.tells;
      report = source_change S.Source report.old report.new;
      out = sink_change K.Sink out.old out.new;
      notes = sink_change E.Sink notes.old notes.new;
      status = result;
    }) }
    ensures later { K.faults out.old ≤ K.faults out.new }
{
    let mut lister = Lister::new(form);
    let end = list_pages(alloc, &mut lister, report, out, notes);
    note_end(end, &lister, notes);
    ListStatus::of_lines(end, lister.is_faultless())
}

/// Lists the readings of a report in this form on `out`, and notes on `notes` what can't be listed. At most `REPORT_MAX` bytes of it are read.
pub fn list_report<S: Source, K: Sink, E: Sink>(
    alloc: Global,
    form: Form,
    report: &mut S,
    out: &mut K,
    notes: &mut E,
) -> ListStatus
    requires untaken { IsTrue S.tells → S.taken report.old ≡ [] }
    requires empty { IsTrue K.tells → K.written out.old ≡ [] }
    requires unnoted { IsTrue E.tells → E.written notes.old ≡ [] }
    ensures { IsRun (record {
      form = form;
      report_tells = S.tells;
      list_tells = K.tells;
      notes_tell = E.tells;
      report = source_change S.Source report.old report.new;
      out = sink_change K.Sink out.old out.new;
      notes = sink_change E.Sink notes.old notes.new;
      status = result;
    }) }
{
    match write_head(form, out) {
        Ok(()) => list_lines(alloc, form, report, out, notes),
        Err(_) => ListStatus::Write,
    }
}
