//! The program `reading_list`: opens the report that its words name, and lists the readings of each stored step.
#![tactic(auto)]

ghost use Rattle.std.specs.Prelude.{◌≡◌, [], true, false, map, None, IsTrue, IsSome, IfSome, IfErr};
ghost use Rattle.std.specs.String.{string_bytes};
ghost use Rattle.std.specs.Process.{exit_status};
ghost use Rattle.outer_io.specs.Shown.{source_change, sink_change};
ghost use Rattle.reading_list.specs.declared.status.ListStatus.{ListStatus};
ghost use Rattle.reading_list.specs.Run.{IsRun, code_of};
ghost use Rattle.program_words.specs.OwnTexts.{asks_for_text, IsTold};
ghost use Rattle.reading_list.specs.Exit.{IsRunExit};
ghost use Rattle.reading_list.specs.Words.{form_asked};

mod forms;
mod lister;
mod notes;
mod page;
mod pages;
mod record_lines;
mod running;
mod said;
mod status;
mod status_words;

use error_sink::ErrorSink;
use forms::Form;
use outer_io::{Sink, Source, StdSink, StdSource};
use program_words::{NoWords, OwnText, command_words, open_to_read, own_text, tell};
use running::list_report;
use status::ListStatus;
use status_words::{Said, Stopped};
use std::fs::{File, Files};
use std::process::ExitCode;

const HELP: &str =
    "reading_list: the readings of every stored step of a report, a line for each data record

usage: reading_list [--csv] REPORT
       reading_list --help
       reading_list --version

REPORT is a file that wmbus hear or wmbus collect printed. Each data record of each
stored step is printed as a JSON object in a line of its own, or with --csv as comma
separated values below a line of names: address, label, receiver, line, moment,
counter, record, function, storage, tariff, subunit, quantity, unit, value, number,
qualifiers, type, profile_quantity, as_plain, modifiers and raw. A record is read by the
whole standard; a value is an exact decimal text, its power of ten applied. What can't
be listed is named on the standard error, with its line.

exit status: 0 all is listed, 1 some lines couldn't be listed whole or the report is
cut off, 2 faulty words, 5 the report can't be read, 7 output not written, 8 the report
goes past 1,073,741,824 bytes, 10 no memory, 11 a file that can't be opened.
docs/FORMATS.md says what each fault means, docs/reading_list.1 is the man page
";

const VERSION: &str = "reading_list 0.9.0\n";

// Says what a status means, unless there is nothing to say, and ends with it.
fn end(rt: &impl Eprint, status: ListStatus) -> ExitCode
    ensures { exit_status result ≡ code_of status }
{
    let code = status.code();
    program_words::end(rt, code, Said { status })
}

// Ends with the status of faulty words, and says what they have to be.
fn end_faulty(rt: &impl Eprint) -> ExitCode
    ensures { exit_status result ≡ 2 }
{
    program_words::end(rt, 2, Stopped)
}

// Prints a text of the program's own.
fn show<R: Print + Eprint>(rt: &R, own: OwnText) -> ExitCode
    ensures { IsTold 7 (exit_status result) }
{
    let unwritten = ListStatus::Write;
    tell(
        rt,
        own.text(HELP, VERSION),
        unwritten.code(),
        Said { status: unwritten },
    )
}

// The form that the words ask for: JSON for a report alone, comma separated values where `--csv` stands before it.
fn form_asked(command: &[String]) -> Option<Form>
    ensures { result ≡ form_asked (map string_bytes command.now) }
{
    match command {
        [_report] => Some(Form::Json),
        [flag, _report] => {
            if flag.as_str() == "--csv" {
                Some(Form::Csv)
            } else {
                None
            }
        }
        _ => None,
    }
}

// Lists the readings of a report in the form that the words ask for, and ends with the status of that.
fn list<R: Eprint + AllocGlobal, S: Source, K: Sink, E: Sink>(
    rt: &R,
    command: &[String],
    report: &mut S,
    out: &mut K,
    notes: &mut E,
) -> ExitCode
    requires untaken { IsTrue S.tells → S.taken report.old ≡ [] }
    requires empty { IsTrue K.tells → K.written out.old ≡ [] }
    requires unnoted { IsTrue E.tells → E.written notes.old ≡ [] }
    ensures faulty { form_asked (map string_bytes command.now) ≡ None → exit_status result ≡ 2 }

    // The exit status is that of a run over the report, and one of those that the program has for a run.
    ensures run { IfSome (form_asked (map string_bytes command.now)) (λ form.
        (status : ListStatus) × (exit_status result ≡ code_of status) × IsRun (record {
          form = form;
          report_tells = S.tells;
          list_tells = K.tells;
          notes_tell = E.tells;
          report = source_change S.Source report.old report.new;
          out = sink_change K.Sink out.old out.new;
          notes = sink_change E.Sink notes.old notes.new;
          status = status;
        })) }
    ensures exit { IsSome (form_asked (map string_bytes command.now)) → IsRunExit (exit_status result) }
{
    let Some(form) = form_asked(command) else {
        return end_faulty(rt);
    };
    let status = list_report(rt.alloc(), form, report, out, notes);
    end(rt, status)
}

// Does what the words behind the program's name ask for.
fn perform<R: Print + Eprint + Files<File = File> + AllocGlobal>(
    rt: &R,
    command: &[String],
    mut out: StdSink,
    mut notes: ErrorSink,
) -> ExitCode
    ensures text { asks_for_text (map string_bytes command.now) ≡ true → IsTold 7 (exit_status result) }
    ensures faulty { asks_for_text (map string_bytes command.now) ≡ false → form_asked (map string_bytes command.now) ≡ None →
        exit_status result ≡ 2 }
    ensures exit { asks_for_text (map string_bytes command.now) ≡ false → IsSome (form_asked (map string_bytes command.now)) →
        IsRunExit (exit_status result) }
{
    if let Some(own) = own_text(command) {
        return show(rt, own);
    }
    let (Some(_), [.., name]) = (form_asked(command), command) else {
        return end_faulty(rt);
    };
    match open_to_read(rt, "reading_list", name.as_str()) {
        Ok(mut report) => list(rt, command, &mut report, &mut out, &mut notes),
        Err(ended) => ended,
    }
}

// Ends where the words can't be had.
fn end_without_words(rt: &impl Eprint, reason: NoWords) -> ExitCode
    ensures memory { reason ≡ NoWords.Memory → exit_status result ≡ 10 }
    ensures not_text { reason ≡ NoWords.NotText → exit_status result ≡ 2 }
{
    match reason {
        NoWords::Memory => end(rt, ListStatus::Memory),
        NoWords::NotText => end_faulty(rt),
    }
}

fn main(rt: HostRuntime) -> ExitCode {
    match command_words(&rt) {
        Ok(command) => perform(
            &rt,
            &command,
            StdSink::standard(rt.stdout()),
            ErrorSink::new(rt.stderr()),
        ),
        Err(reason) => end_without_words(&rt, reason),
    }
}
