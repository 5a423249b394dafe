//! The program `line_feed`: prints the lines of a radio receiver on the standard input as lines that `wmbus` reads.
#![tactic(auto)]

ghost use Rattle.std.specs.Prelude.{◌≡◌, ◌⊎◌, [], true, false, map, None, IsTrue, IfSome, MatchOption};
ghost use Rattle.std.specs.String.{string_bytes};
ghost use Rattle.std.specs.Process.{exit_status};
ghost use Rattle.outer_io.specs.Shown.{source_change, sink_change};
ghost use Rattle.line_feed.specs.declared.status.FeedStatus.{FeedStatus};
ghost use Rattle.line_feed.specs.Run.{IsRun, code_of};
ghost use Rattle.line_feed.specs.FileRun.{IsFileRun};
ghost use Rattle.line_feed.specs.Printings.{printing_of};
ghost use Rattle.program_words.specs.OwnTexts.{asks_for_text, IsTold};
ghost use Rattle.line_feed.specs.Words.{printing_asked, asks_for_file};

mod appended;
mod civil;
mod clock;
mod columns;
mod cul;
mod cutting;
mod digits;
mod feed;
mod heard;
mod hex_lines;
mod host_clock;
mod laws;
mod line_file;
mod lines;
mod moments;
mod notes;
mod opened;
mod printings;
mod reasons;
mod rtl_433;
mod rtl_wmbus;
mod running;
mod status;
mod status_words;
mod stream_laws;
mod streaming;
mod teller;
mod zones;

use appended::open_appended;
use clock::Clock;
use cutting::Unfit;
use error_sink::ErrorSink;
use host_clock::HostClock;
use line_file::LineFile;
use outer_io::{Sink, Source, StdSink, StdSource};
use printings::Printing;
use program_words::{NoWords, OwnText, command_words, own_text, tell};
use running::{feed_file, feed_lines};
use status::FeedStatus;
use status_words::{Said, Stopped, UnfitFile};
use std::fs::{File, Files};
use std::process::ExitCode;

const HELP: &str =
    "line_feed: what a radio receiver prints, as the lines that wmbus and the other programs read

usage: line_feed FORMAT <PRINTED >LINES
       line_feed FORMAT --restart-safe FILE <PRINTED
       line_feed --help
       line_feed --version

FORMAT says what the standard input is:
cul        lines of culfw: a frame with its CRCs behind b, or behind bY in format B
rtl_wmbus  lines of rtl_wmbus, taken where its CRC_OK is 1
rtl_433    JSON lines of rtl_433 -F json, of the model Wireless-MBus, taken where mic is CRC
hex        a telegram without CRCs in hexadecimal in each line; | and _ may stand between digits

For each telegram its frame of format A is printed, with the moment in seconds since
1970: the line's own time, or the clock's where the line has none. A date and a time
without a zone are taken as those of UTC: start rtl_433 with -M time:unix, and rtl_wmbus
with TZ=UTC. Each line is written at once, so that line_feed stands in a pipe, for as
long as the receiver runs: it reads any number of lines. A line that isn't a telegram is
named on the standard error with its number and the reason, and at the end how many were
taken and how many weren't.

With --restart-safe the lines are appended to FILE, which is made where there is none,
each by one write. A line at its end that has no newline, which a line_feed left that was
killed, is cut off first; so FILE has whole lines alone, however often this is begun anew.

exit status: 0 every line was taken, 1 some lines weren't, 2 faulty words, 5 the input
can't be read, 7 a line not written, 8 the input has more bytes than 64 bits count, 10 no
memory, 11 FILE can't be opened, another program appends to it or it isn't one of lines.
docs/FORMATS.md says what each reason means, and docs/line_feed.1 is the man page
";

const VERSION: &str = "line_feed 0.9.0\n";

// Says what a status means, unless there is nothing to say, and ends with it.
fn end(rt: &impl Eprint, status: FeedStatus) -> ExitCode
    ensures { exit_status result ≡ code_of status }
{
    let code = status.code();
    program_words::end(rt, code, Said { status })
}

// Ends with the status of faulty words, and says what they have to be.
fn end_faulty(rt: &impl Eprint) -> ExitCode
    ensures { exit_status result ≡ 2 }
{
    program_words::end(rt, 2, Stopped)
}

// Prints a text of the program's own.
fn show<R: Print + Eprint>(rt: &R, own: OwnText) -> ExitCode
    ensures { IsTold 7 (exit_status result) }
{
    let unwritten = FeedStatus::Write;
    tell(
        rt,
        own.text(HELP, VERSION),
        unwritten.code(),
        Said { status: unwritten },
    )
}

// The format that the words ask for: its name is the only word.
fn printing_asked(command: &[String]) -> Option<Printing>
    ensures { result ≡ printing_asked (map string_bytes command.now) }
{
    let [word] = command else {
        return None;
    };
    Printing::of_word(word.as_bytes())
}

// Does what the words behind the program's name ask for, over an input of which nothing was taken.
fn perform<R: Print + Eprint + AllocGlobal, S: Source, K: Sink, E: Sink, C: Clock + Drop>(
    rt: &R,
    command: &[String],
    clock: C,
    input: &mut S,
    out: &mut K,
    notes: &mut E,
) -> ExitCode
    requires fresh { IsTrue S.tells → S.taken input.old ≡ [] }
    ensures text { asks_for_text (map string_bytes command.now) ≡ true → IsTold 7 (exit_status result) }
    ensures faulty { asks_for_text (map string_bytes command.now) ≡ false → printing_asked (map string_bytes command.now) ≡ None →
        exit_status result ≡ 2 }

    // The exit status is that of a feed of the input, in the format that the words ask for.
    ensures run { asks_for_text (map string_bytes command.now) ≡ false →
        IfSome (printing_asked (map string_bytes command.now)) (λ printing.
        (status : FeedStatus) × (exit_status result ≡ code_of status) × IsRun (record {
          printing = printing;
          input_tells = S.tells;
          out_tells = K.tells;
          notes_tell = E.tells;
          input = source_change S.Source input.old input.new;
          out = sink_change K.Sink out.old out.new;
          notes = sink_change E.Sink notes.old notes.new;
          status = status;
        })) }
{
    if let Some(own) = own_text(command) {
        return show(rt, own);
    }
    let Some(printing) = printing_asked(command) else {
        return end_faulty(rt);
    };
    let status = feed_lines(rt.alloc(), printing, clock, input, out, notes);
    end(rt, status)
}

// Ends where the words can't be had.
fn end_without_words(rt: &impl Eprint, reason: NoWords) -> ExitCode
    ensures memory { reason ≡ NoWords.Memory → exit_status result ≡ 10 }
    ensures not_text { reason ≡ NoWords.NotText → exit_status result ≡ 2 }
{
    match reason {
        NoWords::Memory => end(rt, FeedStatus::Memory),
        NoWords::NotText => end_faulty(rt),
    }
}

// The words of a feed into a file: its format, `--restart-safe` and the file's name.
fn file_asked(command: &[String]) -> Option<(&str, &str)>
    ensures { MatchOption result (asks_for_file (map string_bytes command.now) ≡ false) (λ _. asks_for_file (map string_bytes command.now) ≡ true) }
{
    let [word, option, name] = command else {
        return None;
    };
    if option.as_str() != "--restart-safe" {
        return None;
    }
    Some((word.as_str(), name.as_str()))
}

// Says why a file can't be appended to, and ends with status 11.
fn end_unfit(rt: &impl Eprint, name: &str, reason: Unfit) -> ExitCode
    ensures { exit_status result ≡ 11 }
{
    program_words::end(rt, 11, UnfitFile { name, reason })
}

// Feeds the input into a file.
fn append<R: Eprint + AllocGlobal, S: Source, F: LineFile, E: Sink, C: Clock + Drop>(
    rt: &R,
    printing: Printing,
    name: &str,
    clock: C,
    input: &mut S,
    file: &mut F,
    notes: &mut E,
) -> ExitCode
    requires fresh { IsTrue S.tells → S.taken input.old ≡ [] }

    // The exit status is that of a feed into the file, or the file is left as it is.
    ensures run { ((status : FeedStatus) × (exit_status result ≡ code_of status) × IsFileRun printing status
        S.tells (source_change S.Source input.old input.new) F.tells (sink_change F.Sink file.old file.new)
        E.tells (sink_change E.Sink notes.old notes.new))
        ⊎ ((exit_status result ≡ 11) × (IsTrue F.tells → F.written file.new ≡ F.written file.old)) }
{
    match feed_file(rt.alloc(), printing, clock, input, file, notes) {
        Ok(status) => end(rt, status),
        Err(reason) => end_unfit(rt, name, reason),
    }
}

// Opens the file that is appended to, and feeds the input into it.
fn perform_in_file<
    R: Eprint + AllocGlobal + Files<File = File>,
    S: Source,
    E: Sink,
    C: Clock + Drop,
>(rt: &R, word: &str, name: &str, clock: C, input: &mut S, notes: &mut E) -> ExitCode
    requires fresh { IsTrue S.tells → S.taken input.old ≡ [] }
    ensures faulty { printing_of word.now ≡ None → exit_status result ≡ 2 }
{
    let Some(printing) = Printing::of_word(word.as_bytes()) else {
        return end_faulty(rt);
    };
    match open_appended(rt, name) {
        Ok(mut file) => append(rt, printing, name, clock, input, &mut file, notes),
        Err(ended) => ended,
    }
}

fn main(rt: HostRuntime) -> ExitCode {
    match command_words(&rt) {
        Ok(command) => {
            let mut input = StdSource::standard(rt.stdin());
            let mut notes = ErrorSink::new(rt.stderr());
            let clock = HostClock::new(&rt);
            if let Some((word, name)) = file_asked(&command) {
                return perform_in_file(&rt, word, name, clock, &mut input, &mut notes);
            }
            let mut out = StdSink::standard(rt.stdout());
            perform(&rt, &command, clock, &mut input, &mut out, &mut notes)
        }
        Err(reason) => end_without_words(&rt, reason),
    }
}
