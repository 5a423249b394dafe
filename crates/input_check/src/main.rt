//! The program `input_check`: opens the files that its words name, and says in words what is wrong with them.
#![tactic(auto)]

ghost use Rattle.std.specs.Prelude.{◌≡◌, [], true, false, length, map, Bool, Result, IsTrue, IfOk, IfErr};
ghost use Rattle.std.specs.String.{string_bytes};
ghost use Rattle.std.specs.Process.{exit_status};
ghost use Rattle.lists.specs.Each.{Each};
ghost use Rattle.input_check.specs.declared.states.Stop.{Stop};
ghost use Rattle.input_check.specs.Receivers.{IsFresh};
ghost use Rattle.input_check.specs.Run.{run_of, IsRun};
ghost use Rattle.program_words.specs.OwnTexts.{asks_for_text, IsTold};
ghost use Rattle.input_check.specs.Exit.{code_of, status_of, names_state, IsRunExit, IsUnopened};

mod bytes;
mod causes;
mod faulty;
mod findings;
mod hints;
mod inputs;
mod noticing;
mod pieces;
mod receivers;
mod roster_faults;
mod state_faults;
mod states;
mod status;

use inputs::check_inputs;
use line_reader::Lines;
use outer_io::{Sink, Source, StdSink, StdSource};
use program_words::{NoWords, OwnText, command_words, open_to_read, own_text, tell};
use states::Stop;
use status::CheckStatus;
use std::fs::{File, Files};
use std::process::ExitCode;

const HELP: &str = "input_check: what is wrong with a state or a roster and with the lines of
receivers, in words

usage: input_check STATE [RX ..]
       input_check --help
       input_check --version

prints every faulty line of the file STATE, which is a state by its first line or
else a roster, and of the files of receivers RX, of which each has the number of
its place, with what is wrong and what to do. Of a receiver the first 100 are
printed, and how many there are. A byte order mark in front of STATE is named,
and its lines are judged as if it weren't there. Where STATE is right it also
says which meters have the same key, or one of sixteen equal bytes, which were
not heard, and which strangers were heard most often.

exit status: 0 nothing is faulty, 1 a line is or a mark stands in front of STATE,
2 faulty words, 5 a file not read, 7 output not written, 8 a file past its limit,
10 no memory, 11 a file that can't be opened

docs/FORMATS.md says what each fault, refusal and message means and what to do about
it; docs/input_check.1 is the man page.
";

const VERSION: &str = "input_check 0.9.0\n";

// Says what a status means, unless there is nothing to say, and ends with it.
fn end(rt: &impl Eprint, status: CheckStatus) -> ExitCode
    ensures { exit_status result ≡ code_of status }
{
    program_words::end(rt, status.code(), status)
}

// Prints a text of the program's own.
fn show<R: Print + Eprint>(rt: &R, own: OwnText) -> ExitCode
    ensures { IsTold 7 (exit_status result) }
{
    let unwritten = CheckStatus::Stopped(Stop::Write);
    tell(rt, own.text(HELP, VERSION), unwritten.code(), unwritten)
}

// How a check ends that answered this.
fn status_of(checked: Result<bool, Stop>) -> CheckStatus
    ensures { result ≡ status_of checked }
{
    match checked {
        Ok(false) => CheckStatus::Done,
        Ok(true) => CheckStatus::Found,
        Err(stop) => CheckStatus::Stopped(stop),
    }
}

// Checks a state, which may be a roster, and receivers, and ends with the status of that.
fn check<R: Eprint + AllocGlobal, S: Source, K: Sink>(
    rt: &R,
    state: &mut S,
    receivers: &mut [Lines<S>],
    out: &mut K,
) -> ExitCode
    requires fresh { Each IsFresh receivers.old }
    requires untaken { IsTrue S.tells → Each (λ r. S.taken r.source ≡ []) receivers.old }

    // The exit status is that of a check of all of them, and one of those that the program has for a check.
    ensures run { (checked : Result Bool Stop) × (exit_status result ≡ code_of (status_of checked))
        × IsRun (run_of S.Source K.Sink state.old state.new receivers.old receivers.new out.old out.new checked) }
    ensures exit { IsRunExit (exit_status result) }
{
    let checked = check_inputs(rt.alloc(), state, receivers, out);
    end(rt, status_of(checked))
}

// Opens the files of receivers, in their order.
fn open_receivers<R: Eprint + Files<File = File> + AllocGlobal>(
    rt: &R,
    names: &[String],
) -> Result<Vec<Lines<StdSource>>, ExitCode>
    ensures fresh { IfOk result (λ receivers. Each IsFresh receivers.items) }
    ensures count { IfOk result (λ receivers. length receivers.items ≡ length names.now) }
    ensures stops { IfErr result (λ ended. IsUnopened (exit_status ended)) }
{
    let mut receivers = Vec::new(rt.alloc());
    for name in names {
        let source = match open_to_read(rt, "input_check", name.as_str()) {
            Ok(source) => source,
            Err(ended) => return Err(ended),
        };
        if receivers.push(Lines::new(source)).is_err() {
            return Err(end(rt, CheckStatus::Stopped(Stop::Memory)));
        }
    }
    Ok(receivers)
}

// Does what the words behind the program's name ask for. All files are opened before one is read.
fn perform<R: Print + Eprint + Files<File = File> + AllocGlobal>(
    rt: &R,
    command: &[String],
    mut out: StdSink,
) -> ExitCode
    ensures text { asks_for_text (map string_bytes command.now) ≡ true → IsTold 7 (exit_status result) }
    ensures faulty { command.now ≡ [] → exit_status result ≡ 2 }
    ensures exit { asks_for_text (map string_bytes command.now) ≡ false → names_state command.now ≡ true →
        IsRunExit (exit_status result) }
{
    if let Some(own) = own_text(command) {
        return show(rt, own);
    }
    let [state, receivers @ ..] = command else {
        return end(rt, CheckStatus::Words);
    };
    let mut state = match open_to_read(rt, "input_check", state.as_str()) {
        Ok(state) => state,
        Err(ended) => return ended,
    };
    let mut receivers = match open_receivers(rt, receivers) {
        Ok(receivers) => receivers,
        Err(ended) => return ended,
    };
    check(rt, &mut state, &mut receivers, &mut out)
}

// What it means that the words can't be had.
fn status_without_words(reason: NoWords) -> CheckStatus
    ensures memory { reason ≡ NoWords.Memory → result ≡ CheckStatus.Stopped Stop.Memory }
    ensures not_text { reason ≡ NoWords.NotText → result ≡ CheckStatus.Words }
{
    match reason {
        NoWords::Memory => CheckStatus::Stopped(Stop::Memory),
        NoWords::NotText => CheckStatus::Words,
    }
}

fn main(rt: HostRuntime) -> ExitCode {
    match command_words(&rt) {
        Ok(command) => perform(&rt, &command, StdSink::standard(rt.stdout())),
        Err(reason) => end(&rt, status_without_words(reason)),
    }
}
