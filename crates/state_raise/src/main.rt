//! The program `state_raise`: opens the files that its words name, and writes the state with its counters raised.
#![tactic(auto)]

ghost use Rattle.std.specs.Prelude.{◌≡◌, ◌++◌, ◌⊎◌, true, false, map, None, is_some, Ok, IfOk, IfErr, IsTrue};
ghost use Rattle.std.specs.String.{string_bytes};
ghost use Rattle.std.specs.Process.{exit_status};
ghost use Rattle.outer_io.specs.Bytes.{AppendsFront};
ghost use Rattle.outer_io.specs.Shown.{WriteFailed, source_change, sink_change};
ghost use Rattle.state_file.specs.Whole.{state_of};
ghost use Rattle.state_file.specs.Written.{state_text};
ghost use Rattle.state_changes.specs.CommandWords.{raise_in};
ghost use Rattle.state_changes.specs.Loading.{IsRaisedOf, IsUnraised};
ghost use Rattle.state_changes.specs.Statuses.{code_of};
ghost use Rattle.state_changes.specs.declared.status.ChangeStatus.{ChangeStatus};
ghost use Rattle.program_words.specs.OwnTexts.{asks_for_text, IsTold};
ghost use Rattle.state_raise.specs.Exit.{IsRefusalExit, IsRunExit, IsWriteExit};

use outer_io::{Sink, Source};
use program_words::{NoWords, command_words, open_to_read, open_to_write, own_text, tell};
use state_changes::{ChangeMessage, ChangeStatus, Raised, load_raised, read_raise, write_next};
use std::fs::{File, Files};
use std::process::ExitCode;

const HELP: &str = "state_raise: a state whose downlink counters are raised

usage: state_raise STATE N NEXT
       state_raise --help
       state_raise --version

Reads what is known of the meters from the file STATE, and writes it to the file NEXT
with the downlink counter of each meter raised by N, a number below 2^32. After an
older state was restored no counter is used twice, where N is at least as many
downlinks as went to one meter since. NEXT is another file than STATE, and is opened
once STATE was read.

exit status: 0 done, 2 faulty words, 3 faulty state, 4 it can't be read, 7 next state
not written, 10 no memory, 11 a file that can't be opened, 12 a counter that would pass
2^32 - 1

docs/FORMATS.md says what each fault and message means and what to do about it;
docs/state_raise.1 is the man page.
";

const VERSION: &str = "state_raise 0.9.0\n";

const PROGRAM: &str = "state_raise";

/// A state has keys: where its file is new its owner alone may read it.
const PRIVATE: u32 = 0o600;

// Says a status, unless all is done, and ends with it.
fn end(rt: &impl Eprint, status: ChangeStatus) -> ExitCode
    ensures { exit_status result ≡ code_of status }
{
    let said = ChangeMessage {
        program: PROGRAM,
        status,
    };
    program_words::end(rt, status.code(), said)
}

// The state of a source, raised, or the status that says why there is none.
fn load<R: Eprint + AllocGlobal, S: Source>(
    rt: &R,
    state: &mut S,
    by: u32,
) -> Result<Raised, ExitCode>
    ensures raised { IfOk result (λ next. IsTrue S.tells → IsRaisedOf by (S.left state.old) next) }
    ensures read_back { IfOk result (λ next. state_of (state_text next) ≡ Ok next) }
    // Where there is none the status says why.
    ensures refused { IfErr result (λ ended. (status : ChangeStatus) × (exit_status ended ≡ code_of status)
        × IsUnraised by S.tells (source_change S.Source state.old state.new) status) }
    ensures exit { IfErr result (λ ended. IsRefusalExit (exit_status ended)) }
{
    match load_raised(rt.alloc(), state, by) {
        Ok(next) => Ok(next),
        Err(status) => Err(end(rt, status)),
    }
}

// The state of the file of this name, raised.
fn raise<R: Eprint + Files<File = File> + AllocGlobal>(
    rt: &R,
    state: &str,
    by: u32,
) -> Result<Raised, ExitCode>
    ensures { IfErr result (λ ended. IsRefusalExit (exit_status ended)) }
{
    match open_to_read(rt, PROGRAM, state) {
        Ok(mut state) => load(rt, &mut state, by),
        Err(ended) => Err(ended),
    }
}

// Writes the next state, and ends with the status of that.
fn write_state<R: Eprint, K: Sink>(rt: &R, next: &Raised, sink: &mut K) -> ExitCode
    ensures done { exit_status result ≡ 0 → IsTrue K.tells → K.written sink.new ≡ K.written sink.old ++ state_text next.now }
    ensures unwritten { exit_status result ≡ 7 → WriteFailed (sink_change K.Sink sink.old sink.new) }
    ensures front { exit_status result ≡ 7 → IsTrue K.tells →
        AppendsFront (state_text next.now) (K.written sink.old) (K.written sink.new) }
    ensures exit { (exit_status result ≡ 0) ⊎ (exit_status result ≡ 7) }
{
    let status = write_next(next, sink);
    end(rt, status)
}

// Writes the next state to the file of this name.
fn write_to<R: Eprint + Files<File = File>>(rt: &R, next: &Raised, name: &str) -> ExitCode
    ensures { IsWriteExit (exit_status result) }
{
    match open_to_write(rt, PROGRAM, name, PRIVATE) {
        Ok(mut sink) => write_state(rt, next, &mut sink),
        Err(ended) => ended,
    }
}

// Does what the words behind the program's name ask for.
fn perform<R: Print + Eprint + Files<File = File> + AllocGlobal>(
    rt: &R,
    command: &[String],
) -> ExitCode
    ensures text { asks_for_text (map string_bytes command.now) ≡ true → IsTold 7 (exit_status result) }
    ensures faulty { asks_for_text (map string_bytes command.now) ≡ false → raise_in (map string_bytes command.now) ≡ None →
        exit_status result ≡ 2 }
    ensures exit { asks_for_text (map string_bytes command.now) ≡ false → is_some (raise_in (map string_bytes command.now)) ≡ true →
        IsRunExit (exit_status result) }
{
    if let Some(own) = own_text(command) {
        let status = ChangeStatus::Write;
        let said = ChangeMessage {
            program: PROGRAM,
            status,
        };
        return tell(rt, own.text(HELP, VERSION), status.code(), said);
    }
    let Some(by) = read_raise(command) else {
        return end(rt, ChangeStatus::Words);
    };
    match raise(rt, command[0].as_str(), by) {
        Ok(next) => write_to(rt, &next, command[2].as_str()),
        Err(ended) => ended,
    }
}

// What it means that the words can't be had.
fn status_without_words(reason: NoWords) -> ChangeStatus
    ensures memory { reason ≡ NoWords.Memory → result ≡ ChangeStatus.Memory }
    ensures not_text { reason ≡ NoWords.NotText → result ≡ ChangeStatus.Words }
{
    match reason {
        NoWords::Memory => ChangeStatus::Memory,
        NoWords::NotText => ChangeStatus::Words,
    }
}

fn main(rt: HostRuntime) -> ExitCode {
    match command_words(&rt) {
        Ok(command) => perform(&rt, &command),
        Err(reason) => end(&rt, status_without_words(reason)),
    }
}
