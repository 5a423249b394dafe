//! The program `address_list`: opens the lines that its word names, and prints for which meter each of them is.
#![tactic(auto)]

ghost use Rattle.std.specs.Prelude.{◌≡◌, true, false, map, IfErr};
ghost use Rattle.std.specs.String.{string_bytes};
ghost use Rattle.std.specs.Process.{exit_status};
ghost use Rattle.outer_io.specs.Shown.{source_change, sink_change};
ghost use Rattle.line_teller.specs.declared.ending.LinesEnd.{LinesEnd};
ghost use Rattle.address_list.specs.Run.{IsRun, code_of};
ghost use Rattle.program_words.specs.OwnTexts.{asks_for_text, IsTold};
ghost use Rattle.address_list.specs.Exit.{IsRunExit, names_one};

mod laws;
mod running;
mod status;
mod telling;

use line_reader::TextReader;
use line_teller::LinesEnd;
use outer_io::{Sink, Source, StdSink, StdSource};
use program_words::{NoWords, OwnText, command_words, open_to_read, own_text, tell};
use running::list_addresses;
use status::{Said, Stopped};
use std::fs::{File, Files};
use std::process::ExitCode;
use telling::LINE_MAX;

const HELP: &str = "address_list: for which meter each line of a receiver is

usage: address_list RX
       address_list --help
       address_list --version

RX is a file or a pipe with a receiver's lines, and - is the standard input. For each
line a line is printed: the address of the meter that it is for, in sixteen digits, as
the collector itself says, so that the target of a long header counts; or - where it is
for none, since its bytes are no frame or it is outside the grammar. A key isn't needed,
and isn't looked at: whether a telegram is genuine isn't said.

Each line is printed before the next is taken, so that a program at the other end of two
pipes gets each answer at once.

exit status: 0 all lines are listed, 2 faulty words, 5 the lines can't be read, 7 output
not written, 8 more than 131,072 lines or 67,108,864 bytes, 10 no memory, 11 a file that
can't be opened. After 5 and 8 the lines before are listed. docs/FORMATS.md says more,
docs/address_list.1 is the man page
";

const VERSION: &str = "address_list 0.9.0\n";

// Says what an end means, unless there is nothing to say, and ends with its status.
fn end(rt: &impl Eprint, end: LinesEnd) -> ExitCode
    ensures { exit_status result ≡ code_of end }
{
    let said = Said { end };
    program_words::end(rt, said.code(), said)
}

// Ends with the status of faulty words, and says what they have to be.
fn end_faulty(rt: &impl Eprint) -> ExitCode
    ensures { exit_status result ≡ 2 }
{
    program_words::end(rt, 2, Stopped)
}

// Prints a text of the program's own.
fn show<R: Print + Eprint>(rt: &R, own: OwnText) -> ExitCode
    ensures { IsTold 7 (exit_status result) }
{
    let unwritten = Said {
        end: LinesEnd::Write,
    };
    tell(rt, own.text(HELP, VERSION), unwritten.code(), unwritten)
}

// Lists the addresses of lines, and ends with the status of that.
fn list<R: Eprint + AllocGlobal, S: Source, K: Sink>(
    rt: &R,
    input: &mut TextReader<S>,
    out: &mut K,
) -> ExitCode
    requires fresh { input.old.reader.line ≡ 0 }
    requires goes_on { input.old.reader.done ≡ false }
    requires longest { input.old.longest ≡ 1024 }

    // The exit status is that of a run over the lines, and one of those that the program has for a run.
    ensures run { (lines : LinesEnd) × (exit_status result ≡ code_of lines) × IsRun (record {
      input_tells = S.tells;
      out_tells = K.tells;
      input = source_change S.Source input.old.reader.source input.new.reader.source;
      out = sink_change K.Sink out.old out.new;
      end = lines;
    }) }
    ensures exit { IsRunExit (exit_status result) }
{
    let lines = list_addresses(rt.alloc(), input, out);
    end(rt, lines)
}

// Opens the lines of this name, which are the standard input for a dash, or ends with status 11.
fn open_lines<R: Eprint + Files<File = File>>(
    rt: &R,
    name: &str,
    standard: StdSource,
) -> Result<StdSource, ExitCode>
    ensures unopened { IfErr result (λ ended. exit_status ended ≡ 11) }
    ensures exit { IfErr result (λ ended. IsRunExit (exit_status ended)) }
{
    if name == "-" {
        return Ok(standard);
    }
    open_to_read(rt, "address_list", name)
}

// Does what the words behind the program's name ask for.
fn perform<R: Print + Eprint + Files<File = File> + AllocGlobal>(
    rt: &R,
    command: &[String],
    standard: StdSource,
    mut out: StdSink,
) -> ExitCode
    ensures text { asks_for_text (map string_bytes command.now) ≡ true → IsTold 7 (exit_status result) }
    ensures faulty { asks_for_text (map string_bytes command.now) ≡ false → names_one command.now ≡ false → exit_status result ≡ 2 }
    ensures exit { asks_for_text (map string_bytes command.now) ≡ false → names_one command.now ≡ true →
        IsRunExit (exit_status result) }
{
    if let Some(own) = own_text(command) {
        return show(rt, own);
    }
    let [name] = command else {
        return end_faulty(rt);
    };
    match open_lines(rt, name.as_str(), standard) {
        Ok(source) => list(rt, &mut TextReader::new(source, LINE_MAX), &mut out),
        Err(ended) => ended,
    }
}

// Ends where the words can't be had.
fn end_without_words(rt: &impl Eprint, reason: NoWords) -> ExitCode
    ensures memory { reason ≡ NoWords.Memory → exit_status result ≡ 10 }
    ensures not_text { reason ≡ NoWords.NotText → exit_status result ≡ 2 }
{
    match reason {
        NoWords::Memory => end(rt, LinesEnd::Memory),
        NoWords::NotText => end_faulty(rt),
    }
}

fn main(rt: HostRuntime) -> ExitCode {
    match command_words(&rt) {
        Ok(command) => perform(
            &rt,
            &command,
            StdSource::standard(rt.stdin()),
            StdSink::standard(rt.stdout()),
        ),
        Err(reason) => end_without_words(&rt, reason),
    }
}
