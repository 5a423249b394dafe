//! The top call.
ghost use Rattle.std.specs.Prelude.{◌≡◌, ◌⊎◌, ◌+◌, ◌≤◌, ◌++◌, ◌∷◌, [], false, map, vec_len, IsTrue, IfOk, IfErr, IfSome, OnOk};
ghost use Rattle.std.specs.List.{concat, flat_map};
ghost use Rattle.std.specs.String.{string_bytes};
ghost use Rattle.outer_io.specs.Faults.{Rose};
ghost use Rattle.outer_io.specs.Shown.{HasText, WriteFailed, source_change, sink_change};
ghost use Rattle.line_reader.specs.Reader.{given};
ghost use Rattle.paper.specs.Puts.{Puts};
ghost use Rattle.frame_inspect_main.specs.Items.{item_of, GivesItem};
ghost use Rattle.frame_inspect_main.specs.Run.{IsRun};
ghost use Rattle.frame_inspect_main.specs.Statuses.{EndsBy, IsEnd, unwritten};
ghost use Rattle.frame_inspect_main.specs.Words.{workers_of};

use crate::inspecting::inspect_runs;
use crate::item::Item;
use crate::layered::Layered;
use crate::shown::Shown;
use crate::status::InspectStatus;
use line_reader::{LINES_MAX, NextText, TextReader};
use outer_io::{Memory, Sink, Source};
use paper::{Paper, Printed, write};
use plain_text::read_number;
use std::alloc::Global;
use std::thread::Threads;

/// How many workers the words `FRAMES WORKERS` ask for: none where there aren't two words, or the second is no plain decimal
/// number from 1 to 16.
pub fn workers(words: &[String]) -> Option<u32>
    ensures exact { result ≡ workers_of (map string_bytes words.now) }
    ensures range { IfSome result (λ n. (1 ≤ n) × (n ≤ 16)) }
{
    let [_, count] = words else {
        return None;
    };
    let count = read_number(count.as_str().as_bytes(), 16)?;
    if count == 0 {
        return None;
    }
    Some(count as u32)
}

// The next line as it is shown, if there is memory for it, or the status by which the lines end.
fn next_item<S: Source>(
    alloc: Global,
    frames: &mut TextReader<S>,
) -> Result<Result<Item, Memory>, InspectStatus>
    requires goes_on { frames.old.reader.done ≡ false }
    requires longest { frames.old.longest ≡ 1024 }
    ensures longest { frames.new.longest ≡ 1024 }
    ensures item { IfOk result (λ answer. IfOk answer (λ item. IsTrue S.tells →
        GivesItem item (given S.taken frames.old.reader) (given S.taken frames.new.reader))) }
    ensures goes_on { OnOk result ((frames.new.reader.line ≡ frames.old.reader.line + 1) × (frames.new.reader.done ≡ false)) }
    ensures few { frames.new.reader.line ≤ LINES_MAX }
    ensures ended { IfErr result (λ status. IsTrue S.tells →
        (given S.taken frames.new.reader ≡ given S.taken frames.old.reader)
        × EndsBy status (S.taken frames.new.reader.source) (S.left frames.new.reader.source) (given S.taken frames.new.reader)) }
    ensures end { IfErr result IsEnd }
    ensures cause { IfErr result (λ status. status ≡ InspectStatus.Read →
        Rose (S.faults frames.old.reader.source) (S.faults frames.new.reader.source)) }
    ensures later { S.faults frames.old.reader.source ≤ S.faults frames.new.reader.source }
    ensures bytes { IsTrue S.tells →
        S.taken frames.new.reader.source ++ S.left frames.new.reader.source
        ≡ S.taken frames.old.reader.source ++ S.left frames.old.reader.source }
{
    match frames.next() {
        Ok(NextText::Line) => Ok(Item::of_text(alloc, frames.text())),
        Ok(NextText::TooLong) => Ok(Ok(Item::TooLong)),
        Ok(NextText::End) => Err(InspectStatus::Done),
        Ok(NextText::Cut) => Err(InspectStatus::Cut),
        Err(_) => Err(InspectStatus::Read),
    }
}

// All lines of a file, and the status by which they end.
#[derive(Drop)]
struct Gathered {
    items: Vec<Item>,
    status: InspectStatus,
}

// Takes all lines of a file.
fn gather<S: Source>(alloc: Global, frames: &mut TextReader<S>) -> Result<Gathered, Memory>
    requires fresh { frames.old.reader.line ≡ 0 }
    requires goes_on { frames.old.reader.done ≡ false }
    requires longest { frames.old.longest ≡ 1024 }
    ensures items { IfOk result (λ all. IsTrue S.tells → all.items.items ≡ map item_of (given S.taken frames.new.reader)) }
    ensures few { IfOk result (λ all. vec_len all.items ≤ LINES_MAX) }
    ensures ended { IfOk result (λ all. IsTrue S.tells →
        EndsBy all.status (S.taken frames.new.reader.source) (S.left frames.new.reader.source) (given S.taken frames.new.reader)) }
    ensures end { IfOk result (λ all. IsEnd all.status) }
    ensures cause { IfOk result (λ all. all.status ≡ InspectStatus.Read →
        Rose (S.faults frames.old.reader.source) (S.faults frames.new.reader.source)) }
    ensures bytes { IsTrue S.tells →
        S.taken frames.new.reader.source ++ S.left frames.new.reader.source
        ≡ S.taken frames.old.reader.source ++ S.left frames.old.reader.source }
{
    let mut items = Vec::new(alloc);
    'lines: loop {
        match next_item(alloc, frames) {
            Ok(item) => items.push(item?)?,
            Err(status) => return Ok(Gathered { items, status }),
        }
    }
}

// Puts what is shown of a run of items, one after another.
#[tactic(auto, using(paper::proofs::Calls::none))]
fn put_run<P: Paper>(paper: &mut P, run: &[Shown])
    ensures { Puts P.takes paper.old (concat run.now) paper.new }
{
    for shown in run {
        paper.put(shown.bytes());
    }
}

// What is shown of runs of items, one after another.
#[derive(Drop)]
struct Sheet<'a> {
    runs: &'a [Vec<Shown>],
}

impl Printed for Sheet<'_> {
    ghost use Rattle.std.specs.List.{concat, flat_map};

    ghost text = { λ s. concat (flat_map (λ run. run.items) s.runs.now) };

    #[tactic(auto, using(paper::proofs::Calls::none))]
    fn print<P: Paper>(&self, paper: &mut P) {
        for run in self.runs {
            put_run(paper, run);
        }
    }
}

// The status where a write failed.
fn status_unwritten(status: InspectStatus) -> InspectStatus
    ensures { result ≡ unwritten status }
{
    match status {
        InspectStatus::Done => InspectStatus::Write,
        other => other,
    }
}

// Writes what is shown, and answers the status or that of a failed write.
fn finish<K: Sink>(out: &mut K, runs: &[Vec<Shown>], status: InspectStatus) -> InspectStatus
    requires { IsTrue K.tells → K.written out.old ≡ [] }
    ensures status { (result ≡ status) ⊎ ((result ≡ unwritten status) × WriteFailed (sink_change K.Sink out.old out.new)) }
    ensures written { IsTrue K.tells → HasText (concat (flat_map (λ run. run.items) runs.now)) (sink_change K.Sink out.old out.new) }
    ensures done { result ≡ InspectStatus.Done → IsTrue K.tells → K.written out.new ≡ concat (flat_map (λ run. run.items) runs.now) }
{
    match write(out, &Sheet { runs }) {
        Ok(()) => status,
        Err(_) => status_unwritten(status),
    }
}

/// Shows every layer of the frames of a file, a line for each of its lines, with as many threads as the second of the words
/// `FRAMES WORKERS` says. The reader is one that was just made over the file, for lines of at most `LINE_MAX` bytes. It returns.
///
/// Status 5 comes only where the source's count of faults rose, 7 only where the output's did, 8 exactly where the bytes taken
/// pass the limits of `line_reader`. The lines taken are shown after 5 and 8 too.
pub fn inspect_run<R: Threads + Sync, S: Source, K: Sink>(
    rt: &R,
    alloc: Global,
    words: &[String],
    frames: &mut TextReader<S>,
    out: &mut K,
) -> InspectStatus
    requires fresh { (frames.old.reader.line ≡ 0) × (frames.old.reader.done ≡ false) }
    requires longest { frames.old.longest ≡ 1024 }
    requires empty { IsTrue K.tells → K.written out.old ≡ [] }

    // What the output is, and each status with its cause.
    ensures run { IsRun (record {
      workers = workers_of (map string_bytes words.now);
      source_tells = S.tells;
      sink_tells = K.tells;
      frames = source_change S.Source frames.old.reader.source frames.new.reader.source;
      lines = given S.taken frames.new.reader;
      output = sink_change K.Sink out.old out.new;
      status = result;
    }) }

    // After faulty words all is as it was, and after want of memory the output is.
    ensures unread { result ≡ InspectStatus.Words → frames.new ≡ frames.old }
    ensures unwritten { (result ≡ InspectStatus.Words) ⊎ (result ≡ InspectStatus.Memory) → out.new ≡ out.old }
{
    let Some(workers) = workers(words) else {
        return InspectStatus::Words;
    };
    let Ok(gathered) = gather(alloc, frames) else {
        return InspectStatus::Memory;
    };
    let Ok(runs) = inspect_runs(rt, alloc, &Layered, &gathered.items, workers) else {
        return InspectStatus::Memory;
    };
    finish(out, &runs, gathered.status)
}
