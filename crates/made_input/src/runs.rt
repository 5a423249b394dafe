//! The lines of a made session, put together for four receivers by several workers.
ghost use Rattle.std.specs.Prelude.{◌≡◌, ◌+◌, ◌<◌, ◌≤◌, [], length, map, IfOk, OnOk};
ghost use Rattle.made_input.specs.Lines.{lines_of};
ghost use Rattle.made_input.specs.Runs.{lines_behind, joined, nothing, texts_heard, texts_rotated, run_start, lines_of_run};

use crate::lines::{append_rotated, lines};
use crate::senders::Sender;
use crate::texts::MadeText;
use outer_io::Memory;
use std::alloc::Global;
use std::marker::Model;
use std::thread;
use std::thread::Threads;

// How many threads make the lines.
const WORKERS: usize = 4;

// About how many bytes a line has.
const LINE_ROOM: usize = 128;

// What the receivers hear of some lines.
#[derive(Drop)]
struct Run {
    first: Vec<u8>,
    second: Vec<u8>,
    third: Vec<u8>,
    fourth: Vec<u8>,
}

impl Model for Run {
    ghost use Rattle.made_input.specs.Runs.{Texts};

    ghost Value = { Texts };

    ghost view = { λ r. record {
      first = r.first.items;
      second = r.second.items;
      third = r.third.items;
      fourth = r.fourth.items;
    } };
}

impl Run {
    // Nothing yet, with room for so many lines.
    fn with_room(alloc: Global, count: u32) -> Result<Run, Memory>
        requires { count ≤ 16384 }
        ensures { IfOk result (λ run. run ≡ nothing) }
    {
        let room = count as usize * LINE_ROOM;
        Ok(Run {
            first: Vec::with_capacity(alloc, room)?,
            second: Vec::with_capacity(alloc, room)?,
            third: Vec::with_capacity(alloc, room)?,
            fourth: Vec::with_capacity(alloc, room)?,
        })
    }

    // Has the receivers hear a group of lines, each in its order.
    fn append(&mut self, group: &[Vec<u8>]) -> Result<(), Memory>
        requires { 0 < length group.now }
        ensures { OnOk result (self.new ≡ joined self.old (texts_rotated (map (λ l. l.items) group.now))) }
    {
        append_rotated(&mut self.first, group, 0)?;
        append_rotated(&mut self.second, group, 1)?;
        append_rotated(&mut self.third, group, 2)?;
        append_rotated(&mut self.fourth, group, 3)
    }
}

// What the receivers hear of so many telegrams behind those before them.
fn run_behind(alloc: Global, meters: &[Sender], before: u32, count: u32) -> Result<Run, Memory>
    requires few { length meters.now ≤ 1024 }
    requires counted { before + count ≤ 16384 }
    ensures { IfOk result (λ run. run ≡ texts_heard (lines_behind meters.now before count)) }
{
    let mut run = Run::with_room(alloc, count)?;
    let mut made = 0;
    'groups: while made < count {
        let len = (count - made).min(4);
        let group = lines(alloc, meters, before + made, len)?;
        run.append(group.as_slice())?;
        made += len;
    }
    Ok(run)
}

// How many telegrams stand before the run of a worker, the workers being numbered from 0.
fn start_of_run(telegrams: u32, worker: usize) -> u32
    requires few { telegrams ≤ 16384 }
    requires worker { worker ≤ WORKERS }
    ensures start { result ≡ run_start telegrams worker }
    ensures within { result ≤ telegrams }
{
    telegrams.min((telegrams + 15) / 16 * 4 * worker as u32)
}

// What the receivers hear of the run of a worker.
fn run_of_worker(
    alloc: Global,
    meters: &[Sender],
    telegrams: u32,
    worker: usize,
) -> Result<Run, Memory>
    requires few { length meters.now ≤ 1024 }
    requires counted { telegrams ≤ 16384 }
    requires worker { worker < WORKERS }
    ensures { IfOk result (λ run. run ≡ texts_heard (lines_of_run meters.now telegrams worker)) }
{
    let start = start_of_run(telegrams, worker);
    let end = start_of_run(telegrams, worker + 1);
    run_behind(alloc, meters, start, end - start)
}

/// What four receivers hear.
#[derive(Drop)]
pub(crate) struct FourTexts {
    pub(crate) first: MadeText,
    pub(crate) second: MadeText,
    pub(crate) third: MadeText,
    pub(crate) fourth: MadeText,
}

impl Model for FourTexts {
    ghost use Rattle.made_input.specs.Runs.{Texts};

    ghost Value = { Texts };

    ghost view = { λ t. record { first = t.first; second = t.second; third = t.third; fourth = t.fourth } };
}

impl FourTexts {
    // Nothing yet.
    fn new(alloc: Global) -> FourTexts
        ensures { result ≡ nothing }
    {
        FourTexts {
            first: MadeText::new(alloc),
            second: MadeText::new(alloc),
            third: MadeText::new(alloc),
            fourth: MadeText::new(alloc),
        }
    }

    // Has the receivers hear a run behind what they hear.
    fn push(&mut self, run: Run) -> Result<(), Memory>
        ensures { OnOk result (self.new ≡ joined self.old run) }
    {
        self.first.push(run.first)?;
        self.second.push(run.second)?;
        self.third.push(run.third)?;
        self.fourth.push(run.fourth)
    }
}

/// What four receivers hear of so many telegrams. Several threads make them, and each puts its own together.
pub(crate) fn four_texts<R: Threads + Sync>(
    rt: &R,
    alloc: Global,
    meters: &[Sender],
    telegrams: u32,
) -> Result<FourTexts, Memory>
    requires few { length meters.now ≤ 1024 }
    requires counted { telegrams ≤ 16384 }
    ensures { IfOk result (λ texts. texts ≡ texts_heard (lines_of meters.now telegrams)) }
{
    let runs = thread::map_indices(
        rt,
        alloc,
        WORKERS,
        &|worker| -> Result<Run, Memory>
            requires { (worker < WORKERS) × (length meters.now ≤ 1024) × (telegrams ≤ 16384) }
            ensures { IfOk result (λ run. run ≡ texts_heard (lines_of_run meters.entry.now telegrams worker)) }
        { run_of_worker(alloc, meters, telegrams, worker) },
    )?;
    let mut texts = FourTexts::new(alloc);
    for run in runs {
        texts.push(run?)?;
    }
    Ok(texts)
}
