//! The top call.
ghost use Rattle.std.specs.Prelude.{◌≡◌, ◌≤◌, ◌<◌, ◌+◌, ◌^◌, ◌&&◌, [], ℕ, true, false, map, length};
ghost use Rattle.std.specs.Prelude.{codes, nat_eq, nat_le};
ghost use Rattle.std.specs.Prelude.{vec_len, is_some, option_copied, option_map, ◌⊎◌, Err, IsTrue, IfOk, IfSome};
ghost use Rattle.std.specs.Cmp.Lexicographic.{pointwise};
ghost use Rattle.std.specs.String.{string_bytes};
ghost use Rattle.outer_io.specs.Bytes.{AppendsFront};
ghost use Rattle.lists.specs.Each.{Each, EachWith, IsFirst};
ghost use Rattle.outer_io.specs.Shown.{source_change, sink_change, ReadFailed, LosesNothing, WriteFailed};
ghost use Rattle.audit_check_main.specs.Run.{IsRun, IsReadPast, IsNextRead, NextFailed, WasRead, source_changes, next_change};
ghost use Rattle.audit_check_main.specs.Run.{are_files, file_words, judges_next, writes};
ghost use Rattle.audit_check_main.specs.Statuses.{status_of};
ghost use Rattle.audit_check_main.specs.Texts.{verdict_text};

use crate::auditing::audit;
use crate::input::Input;
use crate::status::AuditStatus;
use crate::verdict::Verdict;
use line_reader::BYTES_MAX;
use outer_io::{Memory, Sink, Source};
use paper::write;
use state_file::STATE_MOST;
use std::alloc::Global;

/// The most bytes of a report.
pub const REPORT_MAX: usize = 1_073_741_824;

// Why a source isn't read.
#[derive(Clone, Copy)]
enum Unread {
    Failed,
    Memory,
}

// Reads a source to its end, or past `most` bytes, in place of what the room held.
fn read_into<S: Source>(source: &mut S, most: usize, room: &mut Vec<u8>) -> Result<(), Unread>
    requires { most < 2 ^ 63 }
    ensures read { IfOk result (λ _. IsTrue S.tells → IsReadPast most (source_change S.Source source.old source.new) room.new.items) }
    ensures failed { result ≡ Err Unread.Failed → ReadFailed (source_change S.Source source.old source.new) }
    ensures no_loss { IsTrue S.tells → LosesNothing (source_change S.Source source.old source.new) }
{
    room.clear();
    let mut buffer = [0u8; 4096];
    'reads: while room.len() <= most {
        let Ok(count) = source.read(&mut buffer) else {
            return Err(Unread::Failed);
        };
        if count == 0 {
            return Ok(());
        }
        if room.extend_from_slice(&buffer[..count]).is_err() {
            return Err(Unread::Memory);
        }
    }
    Ok(())
}

// Reads a source to its end, or past `most` bytes.
fn read_past<S: Source>(alloc: Global, source: &mut S, most: usize) -> Result<Vec<u8>, Unread>
    requires { most < 2 ^ 63 }
    ensures read { IfOk result (λ bytes. IsTrue S.tells → IsReadPast most (source_change S.Source source.old source.new) bytes.items) }
    ensures failed { result ≡ Err Unread.Failed → ReadFailed (source_change S.Source source.old source.new) }
    ensures no_loss { IsTrue S.tells → LosesNothing (source_change S.Source source.old source.new) }
{
    let mut bytes = Vec::new(alloc);
    match read_into(source, most, &mut bytes) {
        Ok(()) => Ok(bytes),
        Err(unread) => Err(unread),
    }
}

// Reads the state that is judged, if one is, to its end or past the limit of a state.
fn read_next<S: Source>(alloc: Global, next: &mut Option<S>) -> Result<Option<Vec<u8>>, Unread>
    ensures read { IfOk result (λ bytes. IsTrue S.tells →
        IsNextRead (next_change S.Source next.old next.new) (option_map (λ b. b.items) bytes)) }
    ensures failed { result ≡ Err Unread.Failed → NextFailed (next_change S.Source next.old next.new) }
    ensures no_loss { IsTrue S.tells → IfSome (next_change S.Source next.old next.new) LosesNothing }
{
    match next {
        None => Ok(None),
        Some(source) => match read_past(alloc, source, STATE_MOST) {
            Ok(bytes) => Ok(Some(bytes)),
            Err(unread) => Err(unread),
        },
    }
}

// Reads an input to its end or past the limit of a receiver. Its bytes stand in the room until the next one is read.
fn read_input<S: Source>(alloc: Global, source: &mut S, room: &mut Vec<u8>) -> Result<Input, Unread>
    ensures read { IfOk result (λ input. IsTrue S.tells → IsReadPast 67108864 (source_change S.Source source.old source.new) input) }
    ensures failed { result ≡ Err Unread.Failed → ReadFailed (source_change S.Source source.old source.new) }
    ensures no_loss { IsTrue S.tells → LosesNothing (source_change S.Source source.old source.new) }
{
    match read_into(source, BYTES_MAX, room) {
        Ok(()) => match Input::of(alloc, room) {
            Ok(input) => Ok(input),
            Err(_) => Err(Unread::Memory),
        },
        Err(unread) => Err(unread),
    }
}

// Why the inputs aren't read.
#[derive(Clone, Copy)]
enum InputFault {
    // This input, from 1, can't be read.
    Read(u32),
    Memory,
}

// Reads all inputs, each to its end or past the limit of a receiver, one after the other into the room.
fn read_inputs<S: Source>(
    alloc: Global,
    inputs: &mut Vec<S>,
    room: &mut Vec<u8>,
) -> Result<Vec<Input>, InputFault>
    requires { vec_len inputs.old ≤ 16 }
    ensures read { IfOk result (λ read. IsTrue S.tells →
        EachWith (IsReadPast 67108864) (source_changes S.Source inputs.old.items inputs.new.items) read.items) }
    ensures count { IfOk result (λ read. vec_len read ≤ 16) }
    ensures failed { (w : ℕ) → result ≡ Err (InputFault.Read w) →
        IsFirst (λ source. IsTrue S.tells → WasRead source) ReadFailed w
        (source_changes S.Source inputs.old.items inputs.new.items) }
    ensures no_loss { IsTrue S.tells → Each LosesNothing (source_changes S.Source inputs.old.items inputs.new.items) }
{
    let mut read = Vec::new(alloc);
    for place in 0..inputs.len() {
        let source = &mut inputs[place];
        match read_input(alloc, source, room) {
            Ok(input) => {
                let Ok(()) = read.push(input) else {
                    return Err(InputFault::Memory);
                };
            }
            Err(Unread::Failed) => return Err(InputFault::Read(place as u32 + 1)),
            Err(Unread::Memory) => return Err(InputFault::Memory),
        }
    }
    Ok(read)
}

/// The files that the words name.
#[derive(Clone, Copy)]
pub struct FilesNamed<'a> {
    /// The state that is judged, if one is.
    pub next: Option<&'a str>,
    /// The state from which the session began, which may be a roster.
    pub state: &'a str,
    /// The report.
    pub report: &'a str,
    /// What the receivers heard, in their order.
    pub inputs: &'a [String],
}

// Whether a word asks for a state to be judged.
fn is_next(word: &str) -> bool
    ensures { result ≡ pointwise nat_eq word.now (codes "--next") }
{
    word == "--next"
}

// The files that the words `STATE REPORT RX..` name, beside a state that is judged: none where they aren't 3 to 18 words.
fn session_files<'a>(next: Option<&'a str>, words: &'a [String]) -> Option<FilesNamed<'a>>
    ensures named { is_some result ≡ (nat_le 3 (length words.now) && nat_le (length words.now) 18) }
    ensures next { IfSome result (λ files. option_copied files.next ≡ option_copied next.entry) }
    ensures inputs { IfSome result (λ files. length files.inputs.now + 2 ≡ length words.now) }
{
    let [state, report, inputs @ ..] = words else {
        return None;
    };
    if inputs.is_empty() || inputs.len() > 16 {
        return None;
    }
    Some(FilesNamed {
        next,
        state: state.as_str(),
        report: report.as_str(),
        inputs,
    })
}

/// The files that the words `STATE REPORT RX..` name, or these words behind `--next NEXT`: none where the first are fewer than 3 words or
/// more than 18.
pub fn files_named(words: &[String]) -> Option<FilesNamed<'_>>
    ensures named { is_some result ≡ are_files (map string_bytes words.now) }
    ensures next { IfSome result (λ files. is_some files.next ≡ judges_next (map string_bytes words.now)) }
    ensures inputs { IfSome result (λ files. length files.inputs.now + 2 ≡ length (file_words (map string_bytes words.now))) }
{
    if let [option, behind @ ..] = words {
        if is_next(option.as_str()) {
            let [next, files @ ..] = behind else {
                return None;
            };
            return session_files(Some(next.as_str()), files);
        }
    }
    session_files(None, words)
}

// What was read of the state that is judged.
fn bytes_of(bytes: &Option<Vec<u8>>) -> Option<&[u8]>
    ensures { option_copied result ≡ option_map (λ b. b.items) bytes.now }
{
    match bytes {
        None => None,
        Some(bytes) => Some(bytes.as_slice()),
    }
}

// Writes a verdict, and answers its status or that of a failed write.
fn finish<K: Sink>(out: &mut K, verdict: Verdict) -> AuditStatus
    requires { IsTrue K.tells → K.written out.old ≡ [] }
    ensures status { (result ≡ status_of verdict) ⊎ (result ≡ AuditStatus.Write) }
    ensures written { result ≡ status_of verdict → IsTrue K.tells → K.written out.new ≡ verdict_text verdict }
    ensures front { result ≡ AuditStatus.Write → IsTrue K.tells → AppendsFront (verdict_text verdict) [] (K.written out.new) }
    ensures failed { result ≡ AuditStatus.Write → WriteFailed (sink_change K.Sink out.old out.new) }
{
    match write(out, &verdict) {
        Ok(()) => AuditStatus::of(verdict),
        Err(_) => AuditStatus::Write,
    }
}

/// Audits a report that is read from a source, and the state that the session is said to have left, if there is one, and writes the
/// verdict: `yes`, or `no` and its cause. Each source is read to its end, a state and an input until they are too long.
///
/// The words are those of the program, without its name: `STATE REPORT` and 1 to 16 inputs, behind `--next NEXT` where a state is judged.
pub fn audit_run<S: Source, K: Sink>(
    alloc: Global,
    words: &[String],
    state: &mut S,
    next: &mut Option<S>,
    report: &mut S,
    inputs: &mut Vec<S>,
    out: &mut K,
) -> AuditStatus
    requires count { are_files (map string_bytes words.now) ≡ true →
        vec_len inputs.old + 2 ≡ length (file_words (map string_bytes words.now)) }
    requires next { are_files (map string_bytes words.now) ≡ true → is_some next.old ≡ judges_next (map string_bytes words.now) }
    requires empty { IsTrue K.tells → K.written out.old ≡ [] }

    // Each status with its cause, and what is written.
    ensures run { IsRun (record {
      sources_tell = S.tells;
      sinks_tell = K.tells;
      words = map string_bytes words.now;
      state = source_change S.Source state.old state.new;
      next = next_change S.Source next.old next.new;
      report = source_change S.Source report.old report.new;
      inputs = source_changes S.Source inputs.old.items inputs.new.items;
      out = sink_change K.Sink out.old out.new;
      status = result;
    }) }

    // After faulty words all is as it was, and where there is no verdict the output is.
    ensures unread { result ≡ AuditStatus.Words →
        (state.new ≡ state.old) × (next.new ≡ next.old) × (report.new ≡ report.old) × (inputs.new.items ≡ inputs.old.items) }
    ensures unwritten { writes result ≡ false → out.new ≡ out.old }
{
    match files_named(words) {
        None => return AuditStatus::Words,
        Some(_) => {}
    }
    let state = match read_past(alloc, state, STATE_MOST) {
        Ok(bytes) => bytes,
        Err(Unread::Failed) => return AuditStatus::ReadState,
        Err(Unread::Memory) => return AuditStatus::Memory,
    };
    // The report is read behind the inputs and into the same room, so that no more is held than what the inputs told. Between them the
    // other state is read, as a session writes them.
    let mut text = Vec::new(alloc);
    let heard = read_inputs(alloc, inputs, &mut text);
    let next = match read_next(alloc, next) {
        Ok(bytes) => bytes,
        Err(Unread::Failed) => return AuditStatus::ReadNext,
        Err(Unread::Memory) => return AuditStatus::Memory,
    };
    match read_into(report, REPORT_MAX, &mut text) {
        Ok(()) => {}
        Err(Unread::Failed) => return AuditStatus::ReadReport,
        Err(Unread::Memory) => return AuditStatus::Memory,
    }
    if text.len() > REPORT_MAX {
        return AuditStatus::LongReport;
    }
    let heard = match heard {
        Ok(heard) => heard,
        Err(fault) => match fault {
            InputFault::Read(w) => return AuditStatus::Read(w),
            InputFault::Memory => return AuditStatus::Memory,
        },
    };
    let next = bytes_of(&next);
    match audit(
        alloc,
        state.as_slice(),
        next,
        text.as_slice(),
        heard.as_slice(),
    ) {
        Ok(verdict) => finish(out, verdict),
        Err(Memory) => AuditStatus::Memory,
    }
}
