//! The program `frame_inspect`: opens the file that its words name, and shows every layer of its frames.
#![tactic(auto)]

ghost use Rattle.std.specs.Prelude.{◌≡◌, ◌++◌, [], true, false, IsTrue, IsSome, IfErr, map, length, None};
ghost use Rattle.std.specs.String.{string_bytes};
ghost use Rattle.std.specs.Process.{exit_status};
ghost use Rattle.outer_io.specs.Shown.{source_change, sink_change};
ghost use Rattle.line_reader.specs.Lines.{all_lines};
ghost use Rattle.line_reader.specs.Reader.{given};
ghost use Rattle.frame_inspect_main.specs.declared.status.InspectStatus.{InspectStatus};
ghost use Rattle.frame_inspect_main.specs.Run.{IsRun, inspected};
ghost use Rattle.frame_inspect_main.specs.Statuses.{code_of};
ghost use Rattle.frame_inspect_main.specs.Words.{workers_of};
ghost use Rattle.program_words.specs.OwnTexts.{asks_for_text, IsTold};
ghost use Rattle.frame_inspect.specs.declared.status.RecordsStatus.{RecordsStatus};
ghost use Rattle.frame_inspect.specs.Run as records;
ghost use Rattle.frame_inspect.specs.Statuses as records_status;
ghost use Rattle.frame_inspect.specs.Exit.{IsRunExit, IsRecordsExit, names_records};

mod laws;
mod names;
mod reasons;
mod record_lines;
mod running;
mod serving;
mod status;
mod status_words;
mod telling;

use frame_inspect_main::{InspectStatus, inspect_run, workers};
use line_reader::{LINE_MAX, TextReader};
use outer_io::{Sink, Source, StdSink, StdSource};
use program_words::{NoWords, Numbered, command_words, own_text, tell};
use running::show_records;
use status::RecordsStatus;
use status_words::Said;
use std::fs::{File, Files};
use std::process::ExitCode;
use std::thread::Threads;

const HELP: &str = "frame_inspect: shows every layer of wireless M-Bus and OMS frames, without a key

usage: frame_inspect FRAMES WORKERS
       frame_inspect --records KEYS FRAMES
       frame_inspect --help
       frame_inspect --version

reads the lines of a receiver from the file FRAMES and writes a line for each of
them to the standard output: the link, the extension of the link layer, the
authentication and fragmentation layer and the transport header of its
telegram, or why there is none. WORKERS, from 1 to 16, is the number of
threads; the output doesn't depend on it.

With --records it shows the same, and below each frame the data records of its
message, where a key of the roster KEYS opens it, or why it isn't opened. Each
frame is opened by itself: a fragment of a message alone says nothing, and what
was heard before doesn't count.

exit status: 0 done, 2 faulty words, 3 faulty roster, 4 roster not read, 5 file
not read, 7 output not written, 8 file past its limit, 10 no memory, 11 a file
can't be opened

docs/FORMATS.md says what each fault, refusal and message means and what to do about
it; docs/frame_inspect.1 is the man page.
";

const VERSION: &str = "frame_inspect 0.9.0\n";

// How a status is said.
fn said(code: u8) -> Numbered {
    Numbered {
        program: "frame_inspect",
        code,
    }
}

// Says the exit status, unless all is done, and ends with it.
fn end(rt: &impl Eprint, status: InspectStatus) -> ExitCode
    ensures { exit_status result ≡ code_of status }
{
    let code = status.code();
    program_words::end(rt, code, said(code))
}

// Shows the frames of a file, and ends with the status of that.
fn show<R: Threads + Sync + Eprint + AllocGlobal, S: Source, K: Sink>(
    rt: &R,
    command: &[String],
    frames: &mut TextReader<S>,
    out: &mut K,
) -> ExitCode
    requires words { IsSome (workers_of (map string_bytes command.now)) }
    requires fresh { (frames.old.reader.line ≡ 0) × (frames.old.reader.done ≡ false) }
    requires longest { frames.old.longest ≡ 1024 }
    requires empty { IsTrue K.tells → K.written out.old ≡ [] }

    // The exit status is that of a run over the lines of the file, and one of those that the program has for a run.
    ensures run { (status : InspectStatus) × (exit_status result ≡ code_of status) × IsRun (record {
      workers = workers_of (map string_bytes command.now);
      source_tells = S.tells;
      sink_tells = K.tells;
      frames = source_change S.Source frames.old.reader.source frames.new.reader.source;
      lines = given S.taken frames.new.reader;
      output = sink_change K.Sink out.old out.new;
      status = status;
    }) }
    ensures exit { IsRunExit (exit_status result) }

    // After status 0 the output is the text of all lines.
    ensures done { exit_status result ≡ 0 → IsTrue S.tells → IsTrue K.tells →
        K.written out.new ≡ inspected (all_lines (S.taken frames.old.reader.source ++ S.left frames.old.reader.source)) }
{
    let status = inspect_run(rt, rt.alloc(), command, frames, out);
    end(rt, status)
}

// Says the exit status of a run with records, unless all is done, and ends with it.
fn end_records(rt: &impl Eprint, status: RecordsStatus) -> ExitCode
    ensures { exit_status result ≡ records_status.code_of status }
{
    program_words::end(rt, status.code(), Said { status })
}

// Shows the frames of a file with their records, and ends with the status of that.
fn show_with_records<R: Eprint + AllocGlobal, S: Source, K: Sink>(
    rt: &R,
    keys: &mut S,
    frames: &mut TextReader<S>,
    out: &mut K,
) -> ExitCode
    requires fresh { frames.old.reader.line ≡ 0 }
    requires goes_on { frames.old.reader.done ≡ false }
    requires longest { frames.old.longest ≡ 1024 }

    // The exit status is that of a run over the roster and the lines of the file, and one of those that the program has for it.
    ensures run { (status : RecordsStatus) × (exit_status result ≡ records_status.code_of status) × records.IsRun (record {
      sources_tell = S.tells;
      out_tells = K.tells;
      keys = source_change S.Source keys.old keys.new;
      frames = source_change S.Source frames.old.reader.source frames.new.reader.source;
      out = sink_change K.Sink out.old out.new;
      status = status;
    }) }
    ensures exit { IsRecordsExit (exit_status result) }
{
    let status = show_records(rt.alloc(), keys, frames, out);
    end_records(rt, status)
}

// Opens the file of frames, or ends with status 11.
fn open_frames<R: Eprint + Files<File = File>>(rt: &R, name: &str) -> Result<File, ExitCode>
    ensures unopened { IfErr result (λ ended. exit_status ended ≡ 11) }
    ensures exit { IfErr result (λ ended. IsRunExit (exit_status ended)) }
{
    match File::open(rt, name) {
        Ok(file) => Ok(file),
        Err(_unopened) => Err(program_words::end(rt, 11, said(11))),
    }
}

// Opens a roster and a file of frames, and shows these with their records.
fn open_with_records<R: Eprint + Files<File = File> + AllocGlobal>(
    rt: &R,
    keys: &str,
    frames: &str,
    out: &mut StdSink,
) -> ExitCode
    ensures { IsRecordsExit (exit_status result) }
{
    let (Ok(keys), Ok(frames)) = (File::open(rt, keys), File::open(rt, frames)) else {
        return program_words::end(rt, 11, said(11));
    };
    let mut lines = TextReader::new(StdSource::file(frames), LINE_MAX);
    show_with_records(rt, &mut StdSource::file(keys), &mut lines, out)
}

// Whether the words ask for frames with their records: `--records KEYS FRAMES`.
#[tactic(auto, unfolding(crate::specs::Exit::names_records))]
fn names_records(command: &[String]) -> bool
    ensures right { result ≡ names_records (map string_bytes command.now) }
    ensures three { result ≡ true → length command.now ≡ 3 }
{
    match command {
        [flag, _, _] => flag.as_bytes() == b"--records".as_slice(),
        _ => false,
    }
}

// Does what the words behind the program's name ask for.
fn perform<R: Threads + Sync + Print + Eprint + Files<File = File> + AllocGlobal>(
    rt: &R,
    command: &[String],
    mut out: StdSink,
) -> ExitCode
    ensures text { asks_for_text (map string_bytes command.now) ≡ true → IsTold 7 (exit_status result) }
    ensures faulty { asks_for_text (map string_bytes command.now) ≡ false → workers_of (map string_bytes command.now) ≡ None
        → names_records (map string_bytes command.now) ≡ false → exit_status result ≡ 2 }
    ensures exit { IsSome (workers_of (map string_bytes command.now)) → IsRunExit (exit_status result) }
    ensures records { asks_for_text (map string_bytes command.now) ≡ false → names_records (map string_bytes command.now) ≡ true
        → IsRecordsExit (exit_status result) }
{
    if let Some(own) = own_text(command) {
        let unwritten = InspectStatus::Write.code();
        return tell(rt, own.text(HELP, VERSION), unwritten, said(unwritten));
    }
    if names_records(command) {
        return open_with_records(rt, command[1].as_str(), command[2].as_str(), &mut out);
    }
    let (Some(_), [name, ..]) = (workers(command), command) else {
        return end(rt, InspectStatus::Words);
    };
    let file = match open_frames(rt, name.as_str()) {
        Ok(file) => file,
        Err(ended) => return ended,
    };
    let mut frames = TextReader::new(StdSource::file(file), LINE_MAX);
    show(rt, command, &mut frames, &mut out)
}

// What it means that the words can't be had.
fn status_without_words(reason: NoWords) -> InspectStatus
    ensures memory { reason ≡ NoWords.Memory → result ≡ InspectStatus.Memory }
    ensures not_text { reason ≡ NoWords.NotText → result ≡ InspectStatus.Words }
{
    match reason {
        NoWords::Memory => InspectStatus::Memory,
        NoWords::NotText => InspectStatus::Words,
    }
}

fn main(rt: HostRuntime) -> ExitCode {
    match command_words(&rt) {
        Ok(command) => perform(&rt, &command, StdSink::standard(rt.stdout())),
        Err(reason) => end(&rt, status_without_words(reason)),
    }
}
