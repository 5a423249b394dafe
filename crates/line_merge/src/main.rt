//! The program `line_merge`: opens the inputs that its words name, and writes their lines as one stream, by their moments.
#![tactic(auto)]

ghost use Rattle.std.specs.Prelude.{◌≡◌, ◌≤◌, true, false, length, map, None, IsSome, IfSome, IfOk, IfErr};
ghost use Rattle.std.specs.String.{string_bytes};
ghost use Rattle.std.specs.Process.{exit_status};
ghost use Rattle.lists.specs.Each.{Each};
ghost use Rattle.outer_io.specs.Shown.{sink_change};
ghost use Rattle.line_merge.specs.declared.status.MergeStatus.{MergeStatus};
ghost use Rattle.line_merge.specs.Run.{IsRun, IsFresh, inputs_shown};
ghost use Rattle.line_merge.specs.Statuses.{code_of};
ghost use Rattle.program_words.specs.OwnTexts.{asks_for_text, IsTold};
ghost use Rattle.line_merge.specs.Exit.{IsRunExit, IsUnopened};
ghost use Rattle.line_merge.specs.Words.{merge_asked};

mod asked;
mod choice;
mod inputs;
mod laws;
mod lines;
mod running;
mod status;
mod status_words;

use asked::{Asked, STANDARD_INPUT, merge_asked};
use inputs::LINE_LONGEST;
use line_reader::TextReader;
use outer_io::{Sink, Source, StdSink, StdSource};
use program_words::{NoWords, OwnText, command_words, open_to_read, own_text, tell};
use running::merge_lines;
use status::MergeStatus;
use status_words::{Said, Stopped};
use std::fs::{File, Files};
use std::process::ExitCode;

const HELP: &str =
    "line_merge: the lines of several receivers as one stream, by the moments of their frames

usage: line_merge [--numbered] RX [RX ..]
       line_merge --help
       line_merge --version

Each RX, one to sixteen, is a file or a pipe with a receiver's lines, and - is the
standard input, once. As long as an input has a line, that of the least moment comes
next, and of equal ones that of the first RX. A line that names no moment (a tick, a
command, a line outside the grammar) stays behind the line before it in its input. So
each input's lines stay in their order, none is lost and none is changed: what comes
out is read as one receiver's lines.

--numbered puts the number of the line's input, from 1, and a blank in front of it.

Each line is written at once, with a newline at its end. The next line of each input is
waited for, so that an input which says nothing holds up the others until it ends.

exit status: 0 all lines are written, 2 faulty words, 5 an input can't be read, 7 a line
not written, 8 an input goes past 131,072 lines or 67,108,864 bytes or has a line of more
than 15,359 bytes, 10 no memory, 11 a file that can't be opened. After 5 and 8 the lines
before are written. docs/FORMATS.md says more, docs/line_merge.1 is the man page
";

const VERSION: &str = "line_merge 0.9.0\n";

// Says what a status means, unless there is nothing to say, and ends with it.
fn end(rt: &impl Eprint, status: MergeStatus) -> ExitCode
    ensures { exit_status result ≡ code_of status }
{
    let code = status.code();
    program_words::end(rt, code, Said { status })
}

// Ends with the status of faulty words, and says what they have to be.
fn end_faulty(rt: &impl Eprint) -> ExitCode
    ensures { exit_status result ≡ 2 }
{
    program_words::end(rt, 2, Stopped::Words)
}

// Ends with the status of no memory.
fn end_without_memory(rt: &impl Eprint) -> ExitCode
    ensures { exit_status result ≡ 10 }
{
    program_words::end(rt, 10, Stopped::Memory)
}

// Prints a text of the program's own.
fn show<R: Print + Eprint>(rt: &R, own: OwnText) -> ExitCode
    ensures { IsTold 7 (exit_status result) }
{
    let unwritten = MergeStatus::Write;
    tell(
        rt,
        own.text(HELP, VERSION),
        unwritten.code(),
        Said { status: unwritten },
    )
}

// Merges inputs, and ends with the status of that.
fn merge<R: Eprint, S: Source, K: Sink>(
    rt: &R,
    numbered: bool,
    inputs: &mut [TextReader<S>],
    out: &mut K,
) -> ExitCode
    requires few { length inputs.old ≤ 16 }
    requires fresh { Each IsFresh inputs.old }

    // The exit status is that of a merge of the inputs, and one of those that the program has for a merge.
    ensures run { (status : MergeStatus) × (exit_status result ≡ code_of status) × IsRun (record {
      inputs_tell = S.tells;
      out_tells = K.tells;
      numbered = numbered;
      inputs = inputs_shown S.Source inputs.old inputs.new;
      out = sink_change K.Sink out.old out.new;
      status = status;
    }) }
    ensures exit { IsRunExit (exit_status result) }
{
    let status = merge_lines(numbered, inputs, out);
    end(rt, status)
}

// Opens the input of this name, which is the standard input for a dash, or ends with status 11.
fn open_input<R: Eprint + Files<File = File>>(
    rt: &R,
    name: &str,
    standard: &mut Option<StdSource>,
) -> Result<StdSource, ExitCode>
    ensures unopened { IfErr result (λ ended. exit_status ended ≡ 11) }
{
    if name == STANDARD_INPUT {
        return Ok(standard.take().unwrap_or(StdSource::nothing()));
    }
    open_to_read(rt, "line_merge", name)
}

// Opens the inputs of these names, in their order.
fn open_inputs<R: Eprint + Files<File = File> + AllocGlobal>(
    rt: &R,
    names: &[String],
    standard: StdSource,
) -> Result<Vec<TextReader<StdSource>>, ExitCode>
    ensures fresh { IfOk result (λ inputs. Each IsFresh inputs.items) }
    ensures count { IfOk result (λ inputs. length inputs.items ≡ length names.now) }
    ensures stops { IfErr result (λ ended. IsUnopened (exit_status ended)) }
{
    let mut standard = Some(standard);
    let mut inputs = Vec::new(rt.alloc());
    for name in names {
        let source = match open_input(rt, name.as_str(), &mut standard) {
            Ok(source) => source,
            Err(ended) => return Err(ended),
        };
        if inputs.push(TextReader::new(source, LINE_LONGEST)).is_err() {
            return Err(end_without_memory(rt));
        }
    }
    Ok(inputs)
}

// Does what the words behind the program's name ask for. All inputs are opened before one is read.
fn perform<R: Print + Eprint + Files<File = File> + AllocGlobal>(
    rt: &R,
    command: &[String],
    standard: StdSource,
    mut out: StdSink,
) -> ExitCode
    ensures text { asks_for_text (map string_bytes command.now) ≡ true → IsTold 7 (exit_status result) }
    ensures faulty { asks_for_text (map string_bytes command.now) ≡ false → merge_asked (map string_bytes command.now) ≡ None →
        exit_status result ≡ 2 }
    ensures exit { asks_for_text (map string_bytes command.now) ≡ false → IsSome (merge_asked (map string_bytes command.now)) →
        IsRunExit (exit_status result) }
{
    if let Some(own) = own_text(command) {
        return show(rt, own);
    }
    let Some(Asked { numbered, names }) = merge_asked(command) else {
        return end_faulty(rt);
    };
    match open_inputs(rt, names, standard) {
        Ok(mut inputs) => merge(rt, numbered, &mut inputs, &mut out),
        Err(ended) => ended,
    }
}

// Ends where the words can't be had.
fn end_without_words(rt: &impl Eprint, reason: NoWords) -> ExitCode
    ensures memory { reason ≡ NoWords.Memory → exit_status result ≡ 10 }
    ensures not_text { reason ≡ NoWords.NotText → exit_status result ≡ 2 }
{
    match reason {
        NoWords::Memory => end_without_memory(rt),
        NoWords::NotText => end_faulty(rt),
    }
}

fn main(rt: HostRuntime) -> ExitCode {
    match command_words(&rt) {
        Ok(command) => perform(
            &rt,
            &command,
            StdSource::standard(rt.stdin()),
            StdSink::standard(rt.stdout()),
        ),
        Err(reason) => end_without_words(&rt, reason),
    }
}
