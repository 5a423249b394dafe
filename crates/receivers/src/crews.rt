//! Passes for all receivers.
ghost use Rattle.std.specs.Prelude.{◌≡◌, ℕ, ◌≤◌, length, ◌+◌, ◌<◌, ◌^◌, ◌++◌, List, map, IfOk, OnOk, vec_len};
ghost use Rattle.lists.specs.Each.{Each};
ghost use Rattle.book_cells.specs.Acts.{IsPassOf};
ghost use Rattle.receivers.specs.Passes.{crew, ArePassesOf};
ghost use Rattle.receivers.specs.Crews.{IsCrew, AreCrews, AreRoots, CanJoin, HaveAllJoined};

use crate::cells::StrangerCell;
use crate::receiver::Receiver;
use crate::roots::{join_each, split_each};
use crate::workers::Worker;
use book_cells::{Book, BookCell, Pass};
use meter_slots::{Event, Outcome};
use outer_io::{Memory, Sink, Source};
use std::alloc::Global;
use stranger_ring::Strangers;

// A receiver with its passes.
fn hire_one<S: Source + Drop, K: Sink + Drop, B: Book<Call = Event, Answer = Outcome>>(
    alloc: Global,
    cells: &[BookCell<B>],
    roots: &mut [Pass<B>],
    strangers: &StrangerCell,
    stranger_root: &mut Pass<Strangers>,
    receiver: Receiver<S, K>,
    source: u32,
) -> Result<Worker<S, K, B>, Memory>
    requires small { 0 < source }
    requires roots { (most : ℕ) × AreRoots cells.now strangers.now source most roots.old stranger_root.old }
    ensures roots { IfOk result (λ _. (least most : ℕ) → least + 1 ≡ source → source ≤ most
        → AreRoots cells.now strangers.now source most roots.old stranger_root.old
        → AreRoots cells.now strangers.now least most roots.new stranger_root.new) }
    ensures crew { IfOk result (λ w. IsCrew cells.now strangers.now source (crew w.passes.items w.stranger_pass)) }
    ensures receiver { IfOk result (λ w. w.receiver ≡ receiver) }
{
    let passes = split_each(alloc, cells, roots, source)?;
    let stranger_pass = strangers.split(stranger_root, source);
    Ok(Worker {
        receiver,
        passes,
        stranger_pass,
    })
}

/// Takes the receivers, and gives each its passes. They are numbered from 1, in their order.
pub(crate) fn hire<
    S: Source + Drop,
    K: Sink + Drop,
    B: Book<Call = Event, Answer = Outcome> + Drop,
>(
    alloc: Global,
    cells: &[BookCell<B>],
    roots: &mut [Pass<B>],
    strangers: &StrangerCell,
    stranger_root: &mut Pass<Strangers>,
    receivers: &mut Vec<Receiver<S, K>>,
) -> Result<Vec<Worker<S, K, B>>, Memory>
    requires few { vec_len receivers.old < 2 ^ 32 }
    requires roots { let most = length receivers.old.items in AreRoots cells.now strangers.now most most roots.old stranger_root.old }
    ensures roots { IfOk result (λ _. AreRoots cells.now strangers.now 0 (length receivers.old.items) roots.new stranger_root.new) }
    ensures crews { IfOk result (λ workers.
        AreCrews cells.now strangers.now 1 (map (λ w. crew w.passes.items w.stranger_pass) workers.items)) }
    ensures receivers { IfOk result (λ workers. map (λ w. w.receiver) workers.items ≡ receivers.old.items) }
    ensures empty { IfOk result (λ _. length receivers.new.items ≡ 0) }
{
    let mut workers = Vec::new(alloc);
    while let Some(receiver) = receivers.pop() {
        let source = receivers.len() as u32 + 1;
        let worker = hire_one(
            alloc,
            cells,
            roots,
            strangers,
            stranger_root,
            receiver,
            source,
        )?;
        workers.insert(0, worker)?;
    }
    Ok(workers)
}

/// Joins the passes of all receivers, and gives the receivers back in their order.
pub(crate) fn dismiss<
    S: Source + Drop,
    K: Sink + Drop,
    B: Book<Call = Event, Answer = Outcome> + Drop,
>(
    cells: &[BookCell<B>],
    roots: &mut [Pass<B>],
    strangers: &StrangerCell,
    stranger_root: &mut Pass<Strangers>,
    mut workers: Vec<Worker<S, K, B>>,
    receivers: &mut Vec<Receiver<S, K>>,
) -> Result<(), Memory>
    requires roots { ArePassesOf cells.now roots.old × IsPassOf strangers.now stranger_root.old }
    requires crews { Each (CanJoin cells.now strangers.now) (map (λ w. crew w.passes.items w.stranger_pass) workers.items) }
    ensures roots { ArePassesOf cells.now roots.new × IsPassOf strangers.now stranger_root.new }
    ensures joined { OnOk result (HaveAllJoined (map (λ w. crew w.passes.items w.stranger_pass) workers.items)
        roots.old roots.new stranger_root.old stranger_root.new) }
    ensures receivers { OnOk result (receivers.new.items ≡ map (λ w. w.receiver) workers.items ++ receivers.old.items) }
{
    while let Some(worker) = workers.pop() {
        let Worker {
            receiver,
            passes,
            stranger_pass,
        } = worker;
        join_each(cells, roots, passes);
        strangers.join(stranger_root, stranger_pass);
        receivers.insert(0, receiver)?;
    }
    Ok(())
}
