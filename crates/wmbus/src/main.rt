//! The program `wmbus`: opens the files that its words name, and runs the collector over them.
#![tactic(auto)]

ghost use Rattle.std.specs.Prelude.{◌≡◌, false, true, Ok, IfOk, IfErr, map, length};
ghost use Rattle.std.specs.String.{string_bytes};
ghost use Rattle.std.specs.Process.{exit_status};
ghost use Rattle.wmbus_words.specs.Words.{asked_of, plan_of};
ghost use Rattle.program_words.specs.OwnTexts.{asks_for_text, IsTold};
ghost use Rattle.wmbus_files.specs.Unopened.{IsUnopened};
ghost use Rattle.wmbus.specs.Exit.{IsExitOf, IsSessionExit, IsStepsExit, IsUnopenedExit};

mod session;
mod stepwise;

use collector_main::Status;
use line_reader::TextReader;
use outer_io::{StdSink, StdSource};
use program_words::{NoWords, command_words, own_text, tell};
use session::{end, run_over};
use std::fs::{File, Files};
use std::process::ExitCode;
use std::sync::Wait;
use std::thread::Threads;
use steps_main::LINE_MAX;
use stepwise::step_over;
use wmbus_files::{Opened, StepsFiles, Unopened, open_apart, open_steps_apart};
use wmbus_words::{Asked, Plan, StepsPlan, WordsFault, asks_for};

const HELP: &str = "wmbus: a collector for wireless M-Bus and OMS meters

usage: wmbus hear STATE RX
       wmbus collect ROSTER NEXT READINGS RX TX [RX TX ..]
       wmbus continue STATE NEXT READINGS RX TX [RX TX ..]
       wmbus steps STATE NEXT RX
       wmbus made METERS TELEGRAMS NUMBER
       wmbus --help
       wmbus --version

hear reads the commissioned meters from the file STATE, a roster or a state, and
the lines of one receiver from the file RX, and writes the report to the standard
output.

collect does the same for one to sixteen receivers at once, each in a thread.
From each RX it reads a receiver's lines, and to the TX behind it it writes the
downlinks that this receiver is to send. NEXT gets the roster for the next
session, with the meters' keys and last counters, READINGS each meter's last
reading as JSON, and the standard output the report. Files that are written are
made empty first; a FIFO or a terminal may stand for any of them.

  wmbus collect meters.roster next.roster readings.json a.rx a.tx b.rx b.tx

continue does what collect does, and goes on where the session before it ended:
STATE is what that one wrote to NEXT, and for the first session a roster. NEXT
gets the state behind this session: with what a roster has also the commands that
wait, the window in which a response is waited for, the fragments that are held,
and each meter's last reading.

  wmbus continue meters.state next.state readings.json a.rx a.tx

steps does what hear does, and tells what became of each line of RX by a line of
JSON on the standard output, and where RX is a pipe before it takes the next one.
Behind the last line it writes the next state to NEXT, as continue does, and then
tells each meter's lines of that state, and the counts. NEXT may be - for no file, and RX may be - for the
standard input. What is printed has keys.

  wmbus steps meters.state next.state a.rx

made needs no meter and no file: it draws 1 to 1024 meters with their keys from
NUMBER (below 2^64), makes 1 to 16384 telegrams of them and of a stranger, has
four receivers hear all of these at once, as collect does, and writes a summary
to the standard output. The same words give the same summary everywhere.

  wmbus made 50 5000 7

exit status: 0 done, 2 faulty words, 3 faulty roster or state, 4 roster or state not
read, 5 receiver not read, 6 downlink not written, 7 next, readings, report or steps
not written, 8 receiver past its limit, 10 no memory, 11 a file that can't be opened

docs/FORMATS.md says what each fault, refusal and message means and what to do about
it; docs/wmbus.1 is the man page.
";

const VERSION: &str = "wmbus 0.9.0\n";

// Ends a run that can't begin.
fn end_unopened(rt: &impl Eprint, unopened: Unopened) -> ExitCode
    requires { IsUnopened unopened }
    ensures { IsUnopenedExit (exit_status result) }
{
    match unopened {
        Unopened::Said(code) => code,
        Unopened::Memory => end(rt, Status::Memory),
    }
}

// Runs a plan over the files that the words name.
fn run_plan<R: Threads + Wait + Sync + Eprint + Files<File = File> + AllocGlobal>(
    rt: &R,
    command: &[String],
    plan: Plan,
    mut report: StdSink,
) -> ExitCode
    requires plan { plan_of (map string_bytes command.now) ≡ Ok plan }
    ensures { IsSessionExit (exit_status result) }
{
    match open_apart(rt, command, plan) {
        Ok(
            Opened {
                mut beginning,
                mut next,
                mut readings,
                mut receivers,
            },
        ) => run_over(
            rt,
            command,
            &mut beginning,
            &mut receivers,
            &mut next,
            &mut readings,
            &mut report,
        ),
        Err(unopened) => end_unopened(rt, unopened),
    }
}

// Tells steps over the files that the words name.
fn run_steps<R: Eprint + Files<File = File> + AllocGlobal>(
    rt: &R,
    command: &[String],
    plan: StepsPlan,
    input: StdSource,
    mut out: StdSink,
) -> ExitCode
    requires { length command.now ≡ 4 }
    ensures { IsStepsExit (exit_status result) }
{
    match open_steps_apart(rt, command, plan, input) {
        Ok(files) => {
            let StepsFiles {
                mut beginning,
                mut next,
                receiver,
                room,
            } = files;
            let mut receiver = TextReader::new(receiver, LINE_MAX);
            step_over(rt, &mut beginning, &mut receiver, &mut next, &mut out, room)
        }
        Err(unopened) => end_unopened(rt, unopened),
    }
}

// Does what is asked for.
fn run_asked<R: Threads + Wait + Sync + Eprint + Files<File = File> + AllocGlobal>(
    rt: &R,
    command: &[String],
    asked: Asked,
    input: StdSource,
    out: StdSink,
) -> ExitCode
    requires asked { asked_of (map string_bytes command.now) ≡ Ok asked }
    ensures { IsExitOf asked (exit_status result) }
{
    match asked {
        Asked::Session(plan) => run_plan(rt, command, plan, out),
        Asked::Steps(plan) => run_steps(rt, command, plan, input, out),
    }
}

// Does what the words behind the program's name ask for.
fn perform<R: Threads + Wait + Sync + Print + Eprint + Files<File = File> + AllocGlobal>(
    rt: &R,
    command: &[String],
    input: StdSource,
    out: StdSink,
) -> ExitCode
    ensures text { asks_for_text (map string_bytes command.now) ≡ true → IsTold 7 (exit_status result) }
    ensures faulty { asks_for_text (map string_bytes command.now) ≡ false →
        IfErr (asked_of (map string_bytes command.now)) (λ _. exit_status result ≡ 2) }
    ensures exit { IfOk (asked_of (map string_bytes command.now)) (λ asked. IsExitOf asked (exit_status result)) }
{
    if let Some(own) = own_text(command) {
        let unwritten = Status::Write(3);
        return tell(rt, own.text(HELP, VERSION), unwritten.code(), unwritten);
    }
    match asks_for(command) {
        Ok(asked) => run_asked(rt, command, asked, input, out),
        Err(fault) => end(rt, Status::Words(fault)),
    }
}

// What it means that the words can't be had.
fn status_without_words(reason: NoWords) -> Status
    ensures memory { reason ≡ NoWords.Memory → result ≡ Status.Memory }
    ensures not_text { reason ≡ NoWords.NotText → result ≡ Status.Words WordsFault.Command }
{
    match reason {
        NoWords::Memory => Status::Memory,
        NoWords::NotText => Status::Words(WordsFault::Command),
    }
}

fn main(rt: HostRuntime) -> ExitCode {
    match command_words(&rt) {
        Ok(command) => perform(
            &rt,
            &command,
            StdSource::standard(rt.stdin()),
            StdSink::standard(rt.stdout()),
        ),
        Err(reason) => end(&rt, status_without_words(reason)),
    }
}
