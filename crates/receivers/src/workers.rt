//! Many receivers, each in a thread of its own where one can be made.
ghost use Rattle.std.specs.Prelude.{◌≡◌, ℕ, ◌<◌, length, All, slice_index_or};
ghost use Rattle.receivers.specs.Passes.{crew};
ghost use Rattle.receivers.specs.Run.{receiver_run};
ghost use Rattle.receivers.specs.Workers.{CanWork, IsDone};

use crate::cells::StrangerCell;
use crate::receiver::Receiver;
use book_cells::{Book, BookCell, Pass};
use meter_directory::Directory;
use meter_slots::{Event, Outcome};
use outer_io::{Sink, Source};
use std::sync::Wait;
use std::thread;
use std::thread::Threads;
use stranger_ring::Strangers;

/// A receiver, and its passes of all cells.
#[derive(Drop)]
pub struct Worker<S: Source, K: Sink, B: Book> {
    /// The receiver.
    pub receiver: Receiver<S, K>,
    /// Its pass of each slot's cell.
    pub passes: Vec<Pass<B>>,
    /// Its pass of the strangers' cell.
    pub stranger_pass: Pass<Strangers>,
}

fn work_one<R: Wait, S: Source, K: Sink, B: Book<Call = Event, Answer = Outcome>>(
    rt: &R,
    directory: &Directory,
    cells: &[BookCell<B>],
    strangers: &StrangerCell,
    worker: &mut Worker<S, K, B>,
)
    requires places { length directory.now ≡ length cells.now }
    requires can { CanWork cells.now strangers.now worker.old.receiver.ended (crew worker.old.passes.items worker.old.stranger_pass) }
    ensures { IsDone cells.now strangers.now directory.now (receiver_run S.Source K.Sink worker.old.receiver worker.new.receiver)
        (crew worker.old.passes.items worker.old.stranger_pass) (crew worker.new.passes.items worker.new.stranger_pass) }
{
    worker.receiver.work(
        rt,
        directory,
        cells,
        worker.passes.as_mut_slice(),
        strangers,
        &mut worker.stranger_pass,
    );
}

/// Has each worker's receiver work, each in a thread of its own where one can be made. Each worker is left as `work` leaves it.
pub fn work_all<
    R: Threads + Wait + Sync,
    S: Source + Send + Drop,
    K: Sink + Send + Drop,
    B: Book<Call = Event, Answer = Outcome> + Send + Drop,
>(
    rt: &R,
    directory: &Directory,
    cells: &[BookCell<B>],
    strangers: &StrangerCell,
    workers: &mut Vec<Worker<S, K, B>>,
)
    requires places { length directory.now ≡ length cells.now }
    requires can { All (λ w. CanWork cells.now strangers.now w.receiver.ended (crew w.passes.items w.stranger_pass)) workers.old.items }
    ensures as_many { length workers.new.items ≡ length workers.old.items }
    ensures each { (i : ℕ) (d : _) → i < length workers.old.items →
        let w = slice_index_or workers.old.items i d in let w' = slice_index_or workers.new.items i d in
        IsDone cells.now strangers.now directory.now (receiver_run S.Source K.Sink w.receiver w'.receiver)
        (crew w.passes.items w.stranger_pass) (crew w'.passes.items w'.stranger_pass) }
{
    let count = workers.len();
    if count == 0 {
        return;
    }
    thread::for_each_mut(
        rt,
        workers.as_mut_slice(),
        count,
        &|_, worker|
            requires places { length directory.now ≡ length cells.now }
            requires can { CanWork cells.now strangers.now worker.now.receiver.ended (crew worker.now.passes.items worker.now.stranger_pass) }
            ensures { IsDone cells.entry.now strangers.entry.now directory.entry.now
                (receiver_run S.Source K.Sink worker.entry.now.receiver worker.exit.now.receiver)
                (crew worker.entry.now.passes.items worker.entry.now.stranger_pass)
                (crew worker.exit.now.passes.items worker.exit.now.stranger_pass) }
        {
            work_one(rt, directory, cells, strangers, worker);
        },
    );
}
