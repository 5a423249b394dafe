//! All receivers at work on the cells.
ghost use Rattle.std.specs.Prelude.{◌≡◌, ◌<◌, ◌^◌, None, length, All, OnOk, vec_len};
ghost use Rattle.book_cells.specs.Acts.{IsPassOf};
ghost use Rattle.receivers.specs.Passes.{ArePassesOf};
ghost use Rattle.receivers.specs.Crews.{AreRoots};
ghost use Rattle.receivers.specs.Run.{receiver_runs};
ghost use Rattle.receivers.specs.Running.{HaveRun};

use crate::cells::StrangerCell;
use crate::crews::{dismiss, hire};
use crate::receiver::Receiver;
use crate::workers::work_all;
use book_cells::{Book, BookCell, Pass};
use meter_directory::Directory;
use meter_slots::{Event, Outcome};
use outer_io::{Memory, Sink, Source};
use std::alloc::Global;
use std::sync::Wait;
use std::thread::Threads;
use stranger_ring::Strangers;

// Has all receivers work, and joins their passes.
pub(crate) fn run_cells<
    R: Threads + Wait + Sync,
    S: Source + Send + Drop,
    K: Sink + Send + Drop,
    B: Book<Call = Event, Answer = Outcome> + Send + Drop,
>(
    rt: &R,
    alloc: Global,
    directory: &Directory,
    cells: &[BookCell<B>],
    roots: &mut [Pass<B>],
    strangers: &StrangerCell,
    stranger_root: &mut Pass<Strangers>,
    receivers: &mut Vec<Receiver<S, K>>,
) -> Result<(), Memory>
    requires places { length directory.now ≡ length cells.now }
    requires few { vec_len receivers.old < 2 ^ 32 }
    requires roots { let most = length receivers.old.items in AreRoots cells.now strangers.now most most roots.old stranger_root.old }
    requires fresh { All (λ r. r.ended ≡ None) receivers.old.items }
    ensures roots { OnOk result (ArePassesOf cells.now roots.new × IsPassOf strangers.now stranger_root.new) }
    ensures run { OnOk result (HaveRun directory.now cells.now strangers.now
        (receiver_runs S.Source K.Sink receivers.old.items receivers.new.items) roots.new stranger_root.new) }
    ensures as_many { OnOk result (length receivers.new.items ≡ length receivers.old.items) }
{
    let mut workers = hire(alloc, cells, roots, strangers, stranger_root, receivers)?;
    work_all(rt, directory, cells, strangers, &mut workers);
    match dismiss(cells, roots, strangers, stranger_root, workers, receivers) {
        Ok(()) => Ok(()),
        Err(memory) => Err(memory),
    }
}
