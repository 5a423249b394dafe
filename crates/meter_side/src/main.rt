//! The program `meter_side`: opens the files that its words name, and hears the deliveries for one meter.
#![tactic(auto)]

ghost use Rattle.std.specs.Prelude.{◌≡◌, [], true, false, map, IsTrue};
ghost use Rattle.std.specs.String.{string_bytes};
ghost use Rattle.std.specs.Process.{exit_status};
ghost use Rattle.outer_io.specs.Shown.{source_change, sink_change};
ghost use Rattle.meter_side_main.specs.declared.status.SideStatus.{SideStatus};
ghost use Rattle.meter_side_main.specs.Run.{IsRun};
ghost use Rattle.meter_side_main.specs.Statuses.{code_of};
ghost use Rattle.program_words.specs.OwnTexts.{asks_for_text, IsTold};
ghost use Rattle.meter_side.specs.Exit.{names_meter, IsRunExit};

use line_reader::TextReader;
use meter_side_main::{LINE_MAX, SideStatus, meter_run, names_meter};
use outer_io::{Sink, Source, StdSink, StdSource};
use program_words::{NoWords, Numbered, OwnText, command_words, own_text, tell};
use std::fs::{File, Files};
use std::process::ExitCode;

const HELP: &str = "meter_side: a meter's end of the downlinks that a collector sends

usage: meter_side STATE ADDRESS TX
       meter_side --help
       meter_side --version

Reads what is known of the meters from the file STATE, with which the session
began, and which may be a roster, and the downlinks that are delivered to the
meter ADDRESS from the file TX, a line `D HEX` each, and prints what the meter
executes of them and why it refuses the others.

exit status: 0 done, 2 faulty words, 3 faulty roster or state, 4 it can't be
read, 5 deliveries not read, 7 output not written, 8 deliveries past their limit,
10 no memory, 11 a file that can't be opened, 12 no such meter

docs/FORMATS.md says what each fault, refusal and message means and what to do about
it; docs/meter_side.1 is the man page.
";

const VERSION: &str = "meter_side 0.9.0\n";

// How a status of the program's own is said.
fn said(code: u8) -> Numbered {
    Numbered {
        program: "meter_side",
        code,
    }
}

// Says the status, unless all is done, and ends with it.
fn end(rt: &impl Eprint, status: SideStatus) -> ExitCode
    ensures { exit_status result ≡ code_of status }
{
    program_words::end(rt, status.code(), status)
}

// Prints a text of the program's own.
fn show<R: Print + Eprint>(rt: &R, own: OwnText) -> ExitCode
    ensures told { IsTold 7 (exit_status result) }
    ensures run { IsRunExit (exit_status result) }
{
    let unwritten = SideStatus::Write.code();
    tell(rt, own.text(HELP, VERSION), unwritten, said(unwritten))
}

// Says that a file can't be opened.
fn cannot_open(rt: &impl Eprint) -> ExitCode
    ensures unopened { exit_status result ≡ 11 }
    ensures run { IsRunExit (exit_status result) }
{
    program_words::end(rt, 11, said(11))
}

// Hears the deliveries for the meter that the words name, and ends with the status of that.
fn hear<R: Eprint + AllocGlobal, S: Source, K: Sink>(
    rt: &R,
    words: &[String],
    beginning: &mut S,
    tx: &mut TextReader<S>,
    out: &mut K,
) -> ExitCode
    requires fresh { tx.old.reader.line ≡ 0 }
    requires goes_on { tx.old.reader.done ≡ false }
    requires longest { tx.old.longest ≡ 582 }
    requires untaken { IsTrue S.tells → (S.taken beginning.old ≡ []) × (S.taken tx.old.reader.source ≡ []) }
    requires empty { IsTrue K.tells → K.written out.old ≡ [] }
    ensures run { (status : SideStatus) × (exit_status result ≡ code_of status) × IsRun (record {
      words = map string_bytes words.now;
      sources_tell = S.tells;
      sinks_tell = K.tells;
      beginning = source_change S.Source beginning.old beginning.new;
      tx = source_change S.Source tx.old.reader.source tx.new.reader.source;
      out = sink_change K.Sink out.old out.new;
      status = status;
    }) }
    ensures exit { names_meter (map string_bytes words.now) ≡ true → IsRunExit (exit_status result) }
{
    let status = meter_run(rt.alloc(), words, beginning, tx, out);
    end(rt, status)
}

// Does what the words behind the program's name ask for.
fn perform<R: Print + Eprint + Files<File = File> + AllocGlobal>(
    rt: &R,
    words: &[String],
    mut out: StdSink,
) -> ExitCode
    ensures text { asks_for_text (map string_bytes words.now) ≡ true → IsTold 7 (exit_status result) }
    ensures faulty { asks_for_text (map string_bytes words.now) ≡ false → names_meter (map string_bytes words.now) ≡ false →
        exit_status result ≡ 2 }
    ensures exit { names_meter (map string_bytes words.now) ≡ true → IsRunExit (exit_status result) }
{
    if let Some(own) = own_text(words) {
        return show(rt, own);
    }
    if !names_meter(words) {
        return end(rt, SideStatus::Words);
    }
    let Ok(beginning) = File::open(rt, words[0].as_str()) else {
        return cannot_open(rt);
    };
    let Ok(tx) = File::open(rt, words[2].as_str()) else {
        return cannot_open(rt);
    };
    let mut deliveries = TextReader::new(StdSource::file(tx), LINE_MAX);
    hear(
        rt,
        words,
        &mut StdSource::file(beginning),
        &mut deliveries,
        &mut out,
    )
}

// What it means that the words can't be had.
fn status_without_words(reason: NoWords) -> SideStatus
    ensures memory { reason ≡ NoWords.Memory → result ≡ SideStatus.Memory }
    ensures not_text { reason ≡ NoWords.NotText → result ≡ SideStatus.Words }
{
    match reason {
        NoWords::Memory => SideStatus::Memory,
        NoWords::NotText => SideStatus::Words,
    }
}

fn main(rt: HostRuntime) -> ExitCode {
    match command_words(&rt) {
        Ok(words) => perform(&rt, &words, StdSink::standard(rt.stdout())),
        Err(reason) => end(&rt, status_without_words(reason)),
    }
}
