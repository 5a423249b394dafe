//! The run over the senders and what is delivered.
ghost use Rattle.std.specs.Prelude.{◌≡◌, ◌≤◌, ◌++◌, [], false, IsTrue, Ok, IfOk, IfErr};
ghost use Rattle.outer_io.specs.Shown.{IsReadOut, LosesNothing, source_change, sink_change};
ghost use Rattle.line_accept.specs.SendersFile.{senders_of};
ghost use Rattle.line_accept.specs.Run.{Answers, IsAnswered, IsRefused, IsRun};

use crate::accepting::Accepting;
use crate::fault::{SendersCause, SendersFault};
use crate::reader::{SENDERS_MOST, read_senders};
use crate::senders::Senders;
use crate::status::AcceptStatus;
use crate::texts::Moved;
use line_reader::TextReader;
use line_teller::tell_lines;
use outer_io::{ReadError, Sink, Source, StdSink, read_all};
use paper::write;
use std::alloc::Global;

// The senders of all bytes that a source has left, or the status that says why there are none.
fn load_senders<S: Source>(alloc: Global, source: &mut S) -> Result<Senders, AcceptStatus>
    ensures found { IfOk result (λ senders. IsTrue S.tells → senders_of (S.left source.old) ≡ Ok senders) }
    ensures read { IfOk result (λ _. IsTrue S.tells → IsReadOut (source_change S.Source source.old source.new)) }
    ensures refused { IfErr result (λ status. IsRefused S.tells (source_change S.Source source.old source.new) status) }
    ensures no_loss { IsTrue S.tells → LosesNothing (source_change S.Source source.old source.new) }
{
    let bytes = match read_all(alloc, source, SENDERS_MOST) {
        Ok(bytes) => bytes,
        Err(ReadError::Failed) => return Err(AcceptStatus::ReadSenders),
        Err(ReadError::TooMany) => return Err(AcceptStatus::Senders(0, SendersCause::TooLong)),
        Err(ReadError::Memory) => return Err(AcceptStatus::Memory),
    };
    match read_senders(alloc, bytes.as_slice()) {
        Ok(senders) => Ok(senders),
        Err(SendersFault::Line(line, cause)) => Err(AcceptStatus::Senders(line, cause)),
        Err(SendersFault::Memory) => Err(AcceptStatus::Memory),
    }
}

// Answers all lines, and says then whose fences moved.
fn answer_lines<S: Source, K: Sink>(
    alloc: Global,
    senders: Senders,
    deliveries: &mut TextReader<S>,
    out: &mut K,
) -> AcceptStatus
    requires fresh { deliveries.old.reader.line ≡ 0 }
    requires goes_on { deliveries.old.reader.done ≡ false }
    requires longest { deliveries.old.longest ≡ 96 }
    requires empty { IsTrue K.tells → K.written out.old ≡ [] }
    ensures answered { IsTrue S.tells → Answers senders (source_change S.Source deliveries.old.reader.source deliveries.new.reader.source)
        K.tells (sink_change K.Sink out.old out.new) result }
    ensures cause { IsAnswered S.tells (source_change S.Source deliveries.old.reader.source deliveries.new.reader.source)
        (sink_change K.Sink out.old out.new) result }
    ensures no_loss { IsTrue S.tells → LosesNothing (source_change S.Source deliveries.old.reader.source deliveries.new.reader.source) }
{
    let Ok(firsts) = senders.fences(alloc) else {
        return AcceptStatus::Memory;
    };
    let mut accepting = Accepting { senders };
    let end = tell_lines(
        alloc,
        deliveries,
        &mut accepting,
        out,
        &mut StdSink::nothing(),
        0,
    );
    if !end.is_whole() {
        return AcceptStatus::of_lines(end);
    }
    let moved = Moved {
        firsts: firsts.as_slice(),
        senders: &accepting.senders,
    };
    match write(out, &moved) {
        Ok(()) => AcceptStatus::of_lines(end),
        Err(_) => AcceptStatus::Write,
    }
}

/// Answers each line `SENDER EPOCH N` of what is delivered, before the next is taken: whether the message is to be taken (`take`), came
/// before (`again`), shows that others are missing (`ask EPOCH N`, from which on), is of a sender that nobody knows (`unknown`), or none at
/// all (`bad`). Behind the last answer stands a line for each sender whose fence moved, as the text of the senders has it.
///
/// The reader is one that was just made over the deliveries, for lines of at most `LINE_MAX` bytes.
pub fn accept_run<S: Source, K: Sink>(
    alloc: Global,
    senders: &mut S,
    deliveries: &mut TextReader<S>,
    out: &mut K,
) -> AcceptStatus
    requires fresh { deliveries.old.reader.line ≡ 0 }
    requires goes_on { deliveries.old.reader.done ≡ false }
    requires longest { deliveries.old.longest ≡ 96 }
    requires untaken { IsTrue S.tells → (S.taken senders.old ≡ []) × (S.taken deliveries.old.reader.source ≡ []) }
    requires empty { IsTrue K.tells → K.written out.old ≡ [] }
    ensures { IsRun (record {
      sources_tell = S.tells;
      sinks_tell = K.tells;
      senders = source_change S.Source senders.old senders.new;
      deliveries = source_change S.Source deliveries.old.reader.source deliveries.new.reader.source;
      out = sink_change K.Sink out.old out.new;
      status = result;
    }) }
{
    match load_senders(alloc, senders) {
        Ok(senders) => answer_lines(alloc, senders, deliveries, out),
        Err(status) => status,
    }
}
