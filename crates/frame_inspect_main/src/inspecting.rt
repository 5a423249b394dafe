//! Many items, looked at in threads.
ghost use Rattle.std.specs.Prelude.{◌≡◌, ◌+◌, ◌*◌, ◌^◌, ◌<◌, ◌≤◌, length, IfOk};
ghost use Rattle.std.specs.List.{flat_map};
ghost use Rattle.frame_inspect_main.specs.Looks.{shown_from, shown_of_run};
ghost use Rattle.frame_inspect_main.specs.Runs.{run_start};

use crate::item::Item;
use crate::look::Look;
use crate::room::Room;
use crate::shown::Shown;
use outer_io::Memory;
use std::alloc::Global;
use std::thread;
use std::thread::Threads;

/// The most items that are looked at in one call.
pub const ITEMS_MAX: usize = 131_072;

/// The most threads.
pub const WORKERS_MAX: u32 = 16;

// Looks at items one after another, numbered on from a first number.
fn look_at_each<L: Look>(
    alloc: Global,
    look: &L,
    number: u32,
    items: &[Item],
) -> Result<Vec<Shown>, Memory>
    requires { number + length items.now < 2 ^ 32 }
    ensures { IfOk result (λ all. all.items ≡ shown_from (L.meaning look.now) number items.now) }
{
    let mut all = Vec::with_capacity(alloc, items.len())?;
    let mut room = Room::new(alloc)?;
    let mut next = number;
    for item in items {
        all.push(look.look(&mut room, next, item)?)?;
        next += 1;
    }
    Ok(all)
}

// How many items stand before the run of a worker, the workers being numbered from 0.
#[tactic(auto, using(crate::proofs::EvenRuns::starts_within))]
fn start_of_run(count: usize, workers: usize, worker: usize) -> usize
    requires workers { (1 ≤ workers) × (worker ≤ workers) }
    ensures start { result ≡ run_start count workers worker }
    ensures within { result ≤ count }
{
    count / workers * worker + worker.min(count % workers)
}

// Looks at the run of a worker.
fn look_at_run<L: Look>(
    alloc: Global,
    look: &L,
    items: &[Item],
    workers: usize,
    worker: usize,
) -> Result<Vec<Shown>, Memory>
    requires worker { worker < workers }
    requires items { length items.now ≤ ITEMS_MAX }
    ensures { IfOk result (λ run. run.items ≡ shown_of_run (L.meaning look.now) items.now workers worker) }
{
    let start = start_of_run(items.len(), workers, worker);
    let end = start_of_run(items.len(), workers, worker + 1);
    look_at_each(alloc, look, start as u32 + 1, &items[start..end])
}

/// Looks at each item as `inspect` does, and leaves what each worker shows where it was written.
pub(crate) fn inspect_runs<R: Threads + Sync, L: Look>(
    rt: &R,
    alloc: Global,
    look: &L,
    items: &[Item],
    workers: u32,
) -> Result<Vec<Vec<Shown>>, Memory>
    requires workers { 1 ≤ workers }
    requires items { length items.now ≤ ITEMS_MAX }
    ensures { IfOk result (λ runs. flat_map (λ run. run.items) runs.items ≡ shown_from (L.meaning look.now) 1 items.now) }
{
    let count = workers as usize;
    let looked = thread::map_indices(
        rt,
        alloc,
        count,
        &|worker| -> Result<Vec<Shown>, Memory>
            requires { (worker < count) × (length items.now ≤ ITEMS_MAX) }
            ensures { IfOk result (λ run. run.items ≡ shown_of_run (L.meaning look.entry.now) items.entry.now count worker) }
        { look_at_run(alloc, look, items, count, worker) },
    )?;
    let mut runs = Vec::with_capacity(alloc, count)?;
    for run in looked {
        runs.push(run?)?;
    }
    Ok(runs)
}

/// Looks at each item, numbered from 1. The items are cut into as many runs as there are workers, whose lengths differ by at most
/// one, the longer ones first, and each run is looked at in a thread of its own.
pub fn inspect<R: Threads + Sync, L: Look>(
    rt: &R,
    alloc: Global,
    look: &L,
    items: &[Item],
    workers: u32,
) -> Result<Vec<Shown>, Memory>
    requires workers { (1 ≤ workers) × (workers ≤ WORKERS_MAX) }
    requires items { length items.now ≤ ITEMS_MAX }
    ensures { IfOk result (λ all. all.items ≡ shown_from (L.meaning look.now) 1 items.now) }
{
    let mut all = Vec::with_capacity(alloc, items.len())?;
    for mut run in inspect_runs(rt, alloc, look, items, workers)? {
        all.append(&mut run)?;
    }
    Ok(all)
}
