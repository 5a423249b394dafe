//! The program `usage_totals`: opens the file of edits that its word names, and answers its lines.
#![tactic(auto)]

ghost use Rattle.std.specs.Prelude.{◌≡◌, [], true, false, map, None, IfErr, IsSome, IsTrue};
ghost use Rattle.std.specs.String.{string_bytes};
ghost use Rattle.std.specs.Process.{exit_status};
ghost use Rattle.outer_io.specs.Shown.{source_change, sink_change};
ghost use Rattle.line_reader.specs.Reader.{given};
ghost use Rattle.usage_totals.specs.declared.status.TotalsStatus.{TotalsStatus};
ghost use Rattle.usage_totals.specs.Run.{IsRun, code_of};
ghost use Rattle.usage_totals.specs.Words.{totals_asked};
ghost use Rattle.program_words.specs.OwnTexts.{asks_for_text, IsTold};
ghost use Rattle.usage_totals.specs.Exit.{IsRunExit};

mod amounts;
mod answer;
mod asked;
mod edits;
mod fault;
mod index;
mod key;
mod laws;
mod mending;
mod meter;
mod meters;
mod request;
mod rows;
mod running;
mod series;
mod status;
mod sums;
mod texts;
mod totals;

use asked::totals_asked;
use line_reader::TextReader;
use outer_io::{Sink, Source, StdSink, StdSource};
use program_words::{NoWords, Numbered, command_words, own_text, tell};
use request::LINE_MAX;
use running::totals_run;
use status::TotalsStatus;
use std::fs::{File, Files};
use std::process::ExitCode;

const HELP: &str =
    "usage_totals: usages of meters, from payloads that are added, corrected and taken away

usage: usage_totals [--addressed] EDITS
       usage_totals --help
       usage_totals --version

EDITS is a file with a line for each edit or question:
+ ADDRESS HEX          a payload behind the address's others
= ADDRESS PLACE HEX    a payload in the place of another one, from 0 on
- ADDRESS PLACE        a payload taken away
? ADDRESS              what the meter used: its last amounts less the first
?                      what all meters used together
Each line is answered on the standard output.

--addressed puts the meter's address behind the first word of each line that answers
for one meter.

exit status: 0 done, 2 faulty words, 5 edits not read, 7 answer not written,
8 edits past the limit, 10 no memory, 11 a file that can't be opened

docs/FORMATS.md says what each fault, refusal and message means and what to do about
it; docs/usage_totals.1 is the man page.
";

const VERSION: &str = "usage_totals 0.9.0\n";

// How a status is said.
fn said(code: u8) -> Numbered {
    Numbered {
        program: "usage_totals",
        code,
    }
}

// Says the exit status, unless all is done, and ends with it.
fn end(rt: &impl Eprint, status: TotalsStatus) -> ExitCode
    ensures { exit_status result ≡ code_of status }
{
    let code = status.code();
    program_words::end(rt, code, said(code))
}

// Answers the lines of a file, and ends with the status of that.
fn answer_edits<R: Eprint + AllocGlobal, S: Source, K: Sink>(
    rt: &R,
    command: &[String],
    edits: &mut TextReader<S>,
    out: &mut K,
) -> ExitCode
    requires fresh { edits.old.reader.line ≡ 0 }
    requires goes_on { edits.old.reader.done ≡ false }
    requires longest { edits.old.longest ≡ 7774 }
    requires untaken { IsTrue S.tells → S.taken edits.old.reader.source ≡ [] }
    requires empty { IsTrue K.tells → K.written out.old ≡ [] }

    // The exit status is that of a run over the lines of the file, and one of those that the program has for a run.
    ensures run { (status : TotalsStatus) × (exit_status result ≡ code_of status) × IsRun (record {
      sources_tell = S.tells;
      sinks_tell = K.tells;
      words = map string_bytes command.now;
      edits = source_change S.Source edits.old.reader.source edits.new.reader.source;
      lines = given S.taken edits.new.reader;
      out = sink_change K.Sink out.old out.new;
      status = status;
    }) }
    ensures exit { IsSome (totals_asked (map string_bytes command.now)) → IsRunExit (exit_status result) }
{
    let status = totals_run(rt.alloc(), command, edits, out);
    end(rt, status)
}

// Opens the file of edits, or ends with status 11.
fn open_edits<R: Eprint + Files<File = File>>(rt: &R, name: &str) -> Result<File, ExitCode>
    ensures unopened { IfErr result (λ ended. exit_status ended ≡ 11) }
    ensures exit { IfErr result (λ ended. IsRunExit (exit_status ended)) }
{
    match File::open(rt, name) {
        Ok(file) => Ok(file),
        Err(_unopened) => Err(program_words::end(rt, 11, said(11))),
    }
}

// Does what the words behind the program's name ask for.
fn perform<R: Print + Eprint + Files<File = File> + AllocGlobal>(
    rt: &R,
    command: &[String],
    mut out: StdSink,
) -> ExitCode
    ensures text { asks_for_text (map string_bytes command.now) ≡ true → IsTold 7 (exit_status result) }
    ensures faulty { asks_for_text (map string_bytes command.now) ≡ false → totals_asked (map string_bytes command.now) ≡ None →
        exit_status result ≡ 2 }
    ensures exit { asks_for_text (map string_bytes command.now) ≡ false → IsSome (totals_asked (map string_bytes command.now)) →
        IsRunExit (exit_status result) }
{
    if let Some(own) = own_text(command) {
        let unwritten = TotalsStatus::Write.code();
        return tell(rt, own.text(HELP, VERSION), unwritten, said(unwritten));
    }
    let Some(asked) = totals_asked(command) else {
        return end(rt, TotalsStatus::Words);
    };
    let file = match open_edits(rt, asked.edits) {
        Ok(file) => file,
        Err(ended) => return ended,
    };
    let mut lines = TextReader::new(StdSource::file(file), LINE_MAX);
    answer_edits(rt, command, &mut lines, &mut out)
}

// What it means that the words can't be had.
fn status_without_words(reason: NoWords) -> TotalsStatus
    ensures memory { reason ≡ NoWords.Memory → result ≡ TotalsStatus.Memory }
    ensures not_text { reason ≡ NoWords.NotText → result ≡ TotalsStatus.Words }
{
    match reason {
        NoWords::Memory => TotalsStatus::Memory,
        NoWords::NotText => TotalsStatus::Words,
    }
}

fn main(rt: HostRuntime) -> ExitCode {
    match command_words(&rt) {
        Ok(command) => perform(&rt, &command, StdSink::standard(rt.stdout())),
        Err(reason) => end(&rt, status_without_words(reason)),
    }
}
