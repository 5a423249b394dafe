//! The program `line_accept`: opens the file of senders that its word names, and answers what is delivered on the standard input.
#![tactic(auto)]

ghost use Rattle.std.specs.Prelude.{◌≡◌, ◌≢◌, [], true, false, length, map, IfErr, IsTrue};
ghost use Rattle.std.specs.String.{string_bytes};
ghost use Rattle.std.specs.Process.{exit_status};
ghost use Rattle.outer_io.specs.Shown.{source_change, sink_change};
ghost use Rattle.line_accept.specs.declared.status.AcceptStatus.{AcceptStatus};
ghost use Rattle.line_accept.specs.Run.{IsRun, code_of};
ghost use Rattle.program_words.specs.OwnTexts.{asks_for_text, IsTold};
ghost use Rattle.line_accept.specs.Exit.{IsRunExit};

mod accepting;
mod delivery;
mod fault;
mod fence;
mod laws;
mod names;
mod reader;
mod running;
mod senders;
mod status;
mod texts;
mod words;

use delivery::LINE_MAX;
use line_reader::TextReader;
use outer_io::{Sink, Source, StdSink, StdSource};
use program_words::{NoWords, Numbered, command_words, open_to_read, own_text, tell};
use running::accept_run;
use status::AcceptStatus;
use std::fs::{File, Files};
use std::process::ExitCode;

const HELP: &str = "line_accept: which of the numbered messages that are delivered are to be taken

usage: line_accept STATE
       line_accept --help
       line_accept --version

STATE is a file with a line for each sender, up to where its messages were taken:
wmbus-senders 1
sender NAME EPOCH N    0 0 for one of which nothing was taken
end
The standard input has a line SENDER EPOCH N for each message that is delivered, and
each is answered before the next is read:
take                   it is its sender's very next one
again                  it was taken before, or is of an earlier epoch
ask EPOCH N            messages before it are missing: ask for them from this one on
unknown                no sender of STATE has this name
bad                    the line is none of a message
At the end there is a line of STATE for each sender of which something was taken.

exit status: 0 done, 2 faulty words, 3 faulty STATE, 4 it can't be read, 5 input not
read, 7 output not written, 8 input past the limit, 10 no memory, 11 a file that can't
be opened

docs/FORMATS.md says what each fault, answer and message means and what to do about
it; docs/line_accept.1 is the man page.
";

const VERSION: &str = "line_accept 0.9.0\n";

// How a status of the program's own is said.
fn said(code: u8) -> Numbered {
    Numbered {
        program: "line_accept",
        code,
    }
}

// Says the status, unless all is done, and ends with it.
fn end(rt: &impl Eprint, status: AcceptStatus) -> ExitCode
    ensures { exit_status result ≡ code_of status }
{
    program_words::end(rt, status.code(), status)
}

// Answers what is delivered, and ends with the status of that.
fn answer<R: Eprint + AllocGlobal, S: Source, K: Sink>(
    rt: &R,
    senders: &mut S,
    deliveries: &mut TextReader<S>,
    out: &mut K,
) -> ExitCode
    requires fresh { deliveries.old.reader.line ≡ 0 }
    requires goes_on { deliveries.old.reader.done ≡ false }
    requires longest { deliveries.old.longest ≡ 96 }
    requires untaken { IsTrue S.tells → (S.taken senders.old ≡ []) × (S.taken deliveries.old.reader.source ≡ []) }
    requires empty { IsTrue K.tells → K.written out.old ≡ [] }

    // The exit status is that of a run over the senders and what is delivered, and one of those that the program has for a run.
    ensures run { (status : AcceptStatus) × (exit_status result ≡ code_of status) × IsRun (record {
      sources_tell = S.tells;
      sinks_tell = K.tells;
      senders = source_change S.Source senders.old senders.new;
      deliveries = source_change S.Source deliveries.old.reader.source deliveries.new.reader.source;
      out = sink_change K.Sink out.old out.new;
      status = status;
    }) }
    ensures exit { IsRunExit (exit_status result) }
{
    let status = accept_run(rt.alloc(), senders, deliveries, out);
    end(rt, status)
}

// Does what the words behind the program's name ask for.
fn perform<R: Print + Eprint + Files<File = File> + AllocGlobal>(
    rt: &R,
    command: &[String],
    input: StdSource,
    mut out: StdSink,
) -> ExitCode
    ensures text { asks_for_text (map string_bytes command.now) ≡ true → IsTold 7 (exit_status result) }
    ensures faulty { asks_for_text (map string_bytes command.now) ≡ false → length command.now ≢ 1 → exit_status result ≡ 2 }
    ensures exit { length command.now ≡ 1 → asks_for_text (map string_bytes command.now) ≡ false → IsRunExit (exit_status result) }
{
    if let Some(own) = own_text(command) {
        let unwritten = AcceptStatus::Write.code();
        return tell(rt, own.text(HELP, VERSION), unwritten, said(unwritten));
    }
    let [senders] = command else {
        return end(rt, AcceptStatus::Words);
    };
    let mut senders = match open_to_read(rt, "line_accept", senders.as_str()) {
        Ok(senders) => senders,
        Err(ended) => return ended,
    };
    let mut deliveries = TextReader::new(input, LINE_MAX);
    answer(rt, &mut senders, &mut deliveries, &mut out)
}

// What it means that the words can't be had.
fn status_without_words(reason: NoWords) -> AcceptStatus
    ensures memory { reason ≡ NoWords.Memory → result ≡ AcceptStatus.Memory }
    ensures not_text { reason ≡ NoWords.NotText → result ≡ AcceptStatus.Words }
{
    match reason {
        NoWords::Memory => AcceptStatus::Memory,
        NoWords::NotText => AcceptStatus::Words,
    }
}

fn main(rt: HostRuntime) -> ExitCode {
    match command_words(&rt) {
        Ok(command) => {
            let input = StdSource::standard(rt.stdin());
            perform(&rt, &command, input, StdSink::standard(rt.stdout()))
        }
        Err(reason) => end(&rt, status_without_words(reason)),
    }
}
