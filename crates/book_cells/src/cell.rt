//! The cell and its passes.
ghost use Rattle.std.specs.Prelude.{◌≡◌};
ghost use Rattle.book_cells.specs.Acts.{CellShown, Shown};
ghost use Rattle.book_cells.specs.Passes.{shown};
ghost use Rattle.book_cells.specs.Turns.{IsAtRest};

use crate::book::Book;
use crate::kept::Kept;
use crate::known::Known;
use atomic_table::{Seat, Table, TableRule};
use std::alloc::Global;
use std::marker::{Model, PhantomData};
use std::snapshot::Snapshot;
use std::sync::Mutex;

/// The book at the making, and the number of the first pass.
#[derive(Drop)]
pub struct Beginning<B> {
    pub book: Snapshot<B>,
    pub number: u32,
}

/// The rule of a cell.
pub struct InTurns;

impl<B: Book> TableRule<Option<Kept<B>>, Known<B, B::Call, B::Answer>, Beginning<B>> for InTurns {
    ghost use Rattle.book_cells.specs.Turns.{Turning, first_known};

    ghost holds = { λ k. Turning B.opening B.acts B.is_legal k.book.value };

    ghost first = { λ k. first_known k.book.value k.number };
}

/// A book behind a lock that keeps its turns.
#[derive(Drop)]
pub struct BookCell<B: Book> {
    pub(crate) table: Table<
        Option<Kept<B>>,
        Known<B, B::Call, B::Answer>,
        Beginning<B>,
        InTurns,
        Global,
    >,
    // Where callers sleep until one of them may draw a ticket.
    pub(crate) gate: Mutex<()>,
    // A cell takes 128 bytes, so that no two of a list are in one line of the processors' memory: who takes one holds up no other.
    pub(crate) apart: [u64; 7],
}

impl<B: Book> Model for BookCell<B> {
    ghost Value = { CellShown B };

    ghost view = { λ c. record { id = c.table.shared.table_id; opening = c.table.shared.key.book.value } };

    ghost invariant = { λ c. (c.table.shared.table_id.words ≡ 2) × (c.table.shared.table_id.slots ≡ 1) };
}

/// A pass of a cell. It shows, to contracts alone, what its source made there and what it has seen.
#[derive(Drop)]
pub struct Pass<B: Book> {
    pub(crate) source: u32,
    pub(crate) seat: Seat<Option<Kept<B>>, Known<B, B::Call, B::Answer>>,
}

impl<B: Book> Model for Pass<B> {
    ghost Value = { Shown B B.Call B.Answer };

    ghost view = { λ p. shown p.seat };

    ghost invariant = { λ p. (p.source ≡ p.seat.me.0.number) × IsAtRest p.seat.me };
}
