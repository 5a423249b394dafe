//! The program `audit_check`: opens the files that its words name, and audits a report.
#![tactic(auto)]

ghost use Rattle.std.specs.Prelude.{◌≡◌, ◌+◌, [], true, false, length, map, vec_len, is_some, IsTrue, IfOk, IfErr};
ghost use Rattle.std.specs.String.{string_bytes};
ghost use Rattle.std.specs.Process.{exit_status};
ghost use Rattle.outer_io.specs.Shown.{source_change, sink_change};
ghost use Rattle.audit_check_main.specs.declared.status.AuditStatus.{AuditStatus};
ghost use Rattle.audit_check_main.specs.Run.{IsRun, next_change, source_changes, are_files, file_words, judges_next};
ghost use Rattle.audit_check_main.specs.Statuses.{code_of};
ghost use Rattle.program_words.specs.OwnTexts.{asks_for_text, IsTold};
ghost use Rattle.audit_check.specs.Exit.{IsRunExit, IsUnopened};

use audit_check_main::{AuditStatus, audit_run, files_named};
use outer_io::{Sink, Source, StdSink, StdSource};
use program_words::{NoWords, Numbered, OwnText, command_words, own_text, tell};
use std::fs::{File, Files};
use std::process::ExitCode;

const HELP: &str =
    "audit_check: checks a printed session against its state and what the receivers heard

usage: audit_check [--next NEXT] STATE REPORT RX..
       audit_check --help
       audit_check --version

STATE, which may be a roster, and REPORT are the files of a session, RX.. its 1 to
16 receivers' files in their order. On the standard output stands `yes` where the
report is just what a collector prints of them, each receiver heard to its end, in
the order that the report tells, and NEXT, where --next gives one, is just the state
that this session leaves to the next one; else `no` and the first cause:
roster LINE CAUSE      STATE is no state, and this is its first faulty line as a roster
state LINE CAUSE       the first faulty line of the state
over W                 receiver W goes past its limit of lines or bytes
form LINE              this line of the report is out of form
order LIST PLACE       this list, from 0, isn't the order of its lines
text PLACE             the report differs from the session's text at this byte
next LINE PLACE        NEXT differs from the state that the session leaves in this line,
                       at this byte of the whole file, or ends there

exit status: 0 yes, 12 no, 2 faulty words, 4 state not read, 5 receiver not
read, 7 answer not written, 8 report too long, 10 no memory, 11 a file that
can't be opened, 13 report not read, 14 NEXT not read

docs/FORMATS.md says what each fault, refusal and message means and what to do about
it; docs/audit_check.1 is the man page.
";

const VERSION: &str = "audit_check 0.9.0\n";

// How a status is said.
fn said(code: u8) -> Numbered {
    Numbered {
        program: "audit_check",
        code,
    }
}

// Says the exit status, unless the answer is yes, and ends with it.
fn end(rt: &impl Eprint, status: AuditStatus) -> ExitCode
    ensures { exit_status result ≡ code_of status }
{
    let code = status.code();
    program_words::end(rt, code, said(code))
}

// Prints a text of the program's own.
fn show<R: Print + Eprint>(rt: &R, own: OwnText) -> ExitCode
    ensures { IsTold 7 (exit_status result) }
{
    let unwritten = AuditStatus::Write.code();
    tell(rt, own.text(HELP, VERSION), unwritten, said(unwritten))
}

// Says that a file can't be opened.
fn cannot_open(rt: &impl Eprint) -> ExitCode
    ensures unopened { exit_status result ≡ 11 }
    ensures stops { IsUnopened (exit_status result) }
    ensures exit { IsRunExit (exit_status result) }
{
    program_words::end(rt, 11, said(11))
}

// Audits a report, and ends with the status of that.
fn answer<R: Eprint + AllocGlobal, S: Source, K: Sink>(
    rt: &R,
    command: &[String],
    state: &mut S,
    next: &mut Option<S>,
    report: &mut S,
    inputs: &mut Vec<S>,
    out: &mut K,
) -> ExitCode
    requires count { are_files (map string_bytes command.now) ≡ true →
        vec_len inputs.old + 2 ≡ length (file_words (map string_bytes command.now)) }
    requires next { are_files (map string_bytes command.now) ≡ true → is_some next.old ≡ judges_next (map string_bytes command.now) }
    requires empty { IsTrue K.tells → K.written out.old ≡ [] }

    // The exit status is that of a run over these files, and one of those that the program has for a run.
    ensures run { (status : AuditStatus) × (exit_status result ≡ code_of status) × IsRun (record {
      sources_tell = S.tells;
      sinks_tell = K.tells;
      words = map string_bytes command.now;
      state = source_change S.Source state.old state.new;
      next = next_change S.Source next.old next.new;
      report = source_change S.Source report.old report.new;
      inputs = source_changes S.Source inputs.old.items inputs.new.items;
      out = sink_change K.Sink out.old out.new;
      status = status;
    }) }
    ensures exit { are_files (map string_bytes command.now) ≡ true → IsRunExit (exit_status result) }
{
    let status = audit_run(rt.alloc(), command, state, next, report, inputs, out);
    end(rt, status)
}

// Opens the state that is judged, if one is named, or answers the exit of the program where it can't be.
fn open_next<R: Eprint + Files<File = File>>(
    rt: &R,
    name: Option<&str>,
) -> Result<Option<StdSource>, ExitCode>
    ensures given { IfOk result (λ next. is_some next ≡ is_some name.entry) }
    ensures stops { IfErr result (λ exit. IsUnopened (exit_status exit)) }
    ensures exit { IfErr result (λ exit. IsRunExit (exit_status exit)) }
{
    let Some(name) = name else {
        return Ok(None);
    };
    match File::open(rt, name) {
        Ok(file) => Ok(Some(StdSource::file(file))),
        Err(_) => Err(cannot_open(rt)),
    }
}

// Opens files, or answers the exit of the program where one can't be.
fn open_all<R: Eprint + Files<File = File> + AllocGlobal>(
    rt: &R,
    names: &[String],
) -> Result<Vec<StdSource>, ExitCode>
    ensures count { IfOk result (λ sources. vec_len sources ≡ length names.now) }
    ensures stops { IfErr result (λ exit. IsUnopened (exit_status exit)) }
    ensures exit { IfErr result (λ exit. IsRunExit (exit_status exit)) }
{
    let mut sources = Vec::new(rt.alloc());
    for name in names {
        let Ok(file) = File::open(rt, name.as_str()) else {
            return Err(cannot_open(rt));
        };
        if sources.push(StdSource::file(file)).is_err() {
            return Err(end(rt, AuditStatus::Memory));
        }
    }
    Ok(sources)
}

// Does what the words behind the program's name ask for.
fn perform<R: Print + Eprint + Files<File = File> + AllocGlobal>(
    rt: &R,
    command: &[String],
    mut out: StdSink,
) -> ExitCode
    ensures text { asks_for_text (map string_bytes command.now) ≡ true → IsTold 7 (exit_status result) }
    ensures faulty { asks_for_text (map string_bytes command.now) ≡ false → are_files (map string_bytes command.now) ≡ false →
        exit_status result ≡ 2 }
    ensures exit { asks_for_text (map string_bytes command.now) ≡ false → are_files (map string_bytes command.now) ≡ true →
        IsRunExit (exit_status result) }
{
    if let Some(own) = own_text(command) {
        return show(rt, own);
    }
    let Some(named) = files_named(command) else {
        return end(rt, AuditStatus::Words);
    };
    let mut next = match open_next(rt, named.next) {
        Ok(next) => next,
        Err(exit) => return exit,
    };
    let Ok(state) = File::open(rt, named.state) else {
        return cannot_open(rt);
    };
    let Ok(report) = File::open(rt, named.report) else {
        return cannot_open(rt);
    };
    let mut inputs = match open_all(rt, named.inputs) {
        Ok(inputs) => inputs,
        Err(exit) => return exit,
    };
    let (mut state, mut report) = (StdSource::file(state), StdSource::file(report));
    answer(
        rt,
        command,
        &mut state,
        &mut next,
        &mut report,
        &mut inputs,
        &mut out,
    )
}

// What it means that the words can't be had.
fn status_without_words(reason: NoWords) -> AuditStatus
    ensures memory { reason ≡ NoWords.Memory → result ≡ AuditStatus.Memory }
    ensures not_text { reason ≡ NoWords.NotText → result ≡ AuditStatus.Words }
{
    match reason {
        NoWords::Memory => AuditStatus::Memory,
        NoWords::NotText => AuditStatus::Words,
    }
}

fn main(rt: HostRuntime) -> ExitCode {
    match command_words(&rt) {
        Ok(words) => perform(&rt, &words, StdSink::standard(rt.stdout())),
        Err(reason) => end(&rt, status_without_words(reason)),
    }
}
