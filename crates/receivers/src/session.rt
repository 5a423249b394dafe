//! A session of several receivers over the slots of some commissions.
ghost use Rattle.std.specs.Prelude.{◌≡◌, ◌<◌, ◌^◌, None, [], map, length, All, IfOk, OnOk, vec_len};
ghost use Rattle.meter_address.specs.Address.{AreApart};
ghost use Rattle.book_cells.specs.Acts.{IsPassOf, IsFirstPass};
ghost use Rattle.receivers.specs.Run.{receiver_runs};
ghost use Rattle.receivers.specs.Collected.{address_of, AreFresh, IsCollected};

use crate::cells::{SlotCell, StrangerCell};
use crate::receiver::Receiver;
use crate::roots::close_each;
use crate::running::run_cells;
use book_cells::{Book, BookCell, Pass};
use meter_address::Address;
use meter_directory::Directory;
use meter_slots::{MeterStart, SlotBook, addresses_of};
use outer_io::{Memory, Sink, Source};
use std::alloc::Global;
use std::snapshot::Snapshot;
use std::sync::Wait;
use std::thread::Threads;
use stranger_ring::Strangers;

// A cell for a book on which nothing was done yet, and its pass.
pub(crate) fn enclose<B: Book + Drop>(
    alloc: Global,
    book: B,
) -> Result<(BookCell<B>, Pass<B>), Memory>
    requires { B.acts book ≡ [] }
    ensures opening { IfOk result (λ made. B.opening made.0.opening ≡ B.opening book) }
    ensures pass { IfOk result (λ made. IsPassOf made.0 made.1 × IsFirstPass 0 made.1) }
{
    match BookCell::new(alloc, book, 0) {
        Ok(made) => Ok(made),
        Err(_) => Err(Memory),
    }
}

// A cell for each meter, with its pass.
#[derive(Drop)]
struct Fresh {
    cells: Vec<SlotCell>,
    roots: Vec<Pass<SlotBook>>,
}

fn make_cells(alloc: Global, own: Address, starts: Vec<MeterStart>) -> Result<Fresh, Memory>
    ensures { IfOk result (λ f. AreFresh own starts.items f.cells.items f.roots.items) }
{
    let mut cells = Vec::new(alloc);
    let mut roots = Vec::new(alloc);
    for start in starts {
        let book = SlotBook::resume(alloc, own, start);
        let (cell, root) = enclose(alloc, book)?;
        cells.push(cell)?;
        roots.push(root)?;
    }
    Ok(Fresh { cells, roots })
}

/// The slots and the strangers after a session.
#[derive(Drop)]
pub struct Collected {
    /// The slots, in the order of the commissions.
    pub slots: Vec<SlotBook>,
    /// The strangers.
    pub strangers: Strangers,
}

// Has all receivers work over these cells, and closes them.
fn collect_over<R: Threads + Wait + Sync, S: Source + Send + Drop, K: Sink + Send + Drop>(
    rt: &R,
    alloc: Global,
    own: Address,
    starts: Snapshot<Vec<MeterStart>>,
    directory: &Directory,
    fresh: Fresh,
    strangers: StrangerCell,
    mut stranger_root: Pass<Strangers>,
    receivers: &mut Vec<Receiver<S, K>>,
) -> Result<Collected, Memory>
    requires apart { AreApart (map address_of starts.value.items) }
    requires directory { directory.now ≡ map address_of starts.value.items }
    requires cells { AreFresh own starts.value.items fresh.cells.items fresh.roots.items }
    requires strangers { IsPassOf strangers stranger_root × IsFirstPass 0 stranger_root }
    requires few_receivers { vec_len receivers.old < 2 ^ 32 }
    requires fresh { All (λ r. r.ended ≡ None) receivers.old.items }
    ensures collected { IfOk result (λ c. IsCollected own starts.value.items
        (receiver_runs S.Source K.Sink receivers.old.items receivers.new.items)
        (record { slots = c.slots.items; strangers = c.strangers })) }
    ensures as_many { OnOk result (length receivers.new.items ≡ length receivers.old.items) }
{
    let Fresh { cells, mut roots } = fresh;
    run_cells(
        rt,
        alloc,
        directory,
        cells.as_slice(),
        roots.as_mut_slice(),
        &strangers,
        &mut stranger_root,
        receivers,
    )?;
    let slots = close_each(alloc, cells, roots)?;
    Ok(Collected {
        slots,
        strangers: strangers.close(stranger_root),
    })
}

// The cell of the strangers, with its pass.
fn make_strangers(alloc: Global) -> Result<(StrangerCell, Pass<Strangers>), Memory>
    ensures { IfOk result (λ made. IsPassOf made.0 made.1 × IsFirstPass 0 made.1) }
{
    enclose(alloc, Strangers::new(alloc))
}

// Where each meter's slot stands.
fn directory_of(alloc: Global, starts: &[MeterStart]) -> Result<Directory, Memory>
    requires apart { AreApart (map address_of starts.now) }
    requires few { length starts.now < 2 ^ 32 }
    ensures { IfOk result (λ directory. directory ≡ map address_of starts.now) }
{
    let addresses = addresses_of(alloc, starts)?;
    Directory::new(alloc, addresses.as_slice())
}

/// Has all receivers work over slots of meters of which this is known, each in a thread of its own where one can be made.
pub fn collect<R: Threads + Wait + Sync, S: Source + Send + Drop, K: Sink + Send + Drop>(
    rt: &R,
    alloc: Global,
    own: Address,
    starts: Vec<MeterStart>,
    receivers: &mut Vec<Receiver<S, K>>,
) -> Result<Collected, Memory>
    requires apart { AreApart (map address_of starts.items) }
    requires few { length starts.items < 2 ^ 32 }
    requires few_receivers { vec_len receivers.old < 2 ^ 32 }
    requires fresh { All (λ r. r.ended ≡ None) receivers.old.items }
    ensures collected { IfOk result (λ c. IsCollected own starts.items
        (receiver_runs S.Source K.Sink receivers.old.items receivers.new.items)
        (record { slots = c.slots.items; strangers = c.strangers })) }
    ensures as_many { OnOk result (length receivers.new.items ≡ length receivers.old.items) }
{
    let directory = directory_of(alloc, starts.as_slice())?;
    let begun = Snapshot::of(&starts);
    let fresh = make_cells(alloc, own, starts)?;
    let (strangers, stranger_root) = make_strangers(alloc)?;
    collect_over(
        rt,
        alloc,
        own,
        begun,
        &directory,
        fresh,
        strangers,
        stranger_root,
        receivers,
    )
}
