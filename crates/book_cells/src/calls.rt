//! The calls of a cell.
ghost use Rattle.std.specs.Prelude.{◌≡◌, ℕ, ◌+◌, ◌^◌, ◌<◌, false, true, List, [], ◌∷◌, ◌++◌, length, Some, None};
ghost use Rattle.std.specs.Prelude.{IfOk, IfErr, OnErr};
ghost use Rattle.book_cells.specs.declared.known.Stage.TheVariants.{Idle, Waiting, Holding};
ghost use Rattle.lists.specs.Each.{Each};
ghost use Rattle.book_cells.specs.Acts.{act, acts_by, mine, made_by, sources, is_among, StartsWith, GoesOnTo};
ghost use Rattle.book_cells.specs.Acts.{IsPassOf, IsSamePass, IsFirstPass, HasHanded, IsSplitOff, HasJoined};
ghost use Rattle.book_cells.specs.Turns.{wrapped, IsTurn, GoesHome, IsOneTurn, fresh_of, StandsFor, back_with, IsAtRest};
ghost use Rattle.book_cells.specs.declared.kept.Kept.{Kept};
ghost use Rattle.book_cells.specs.declared.act.Act.{Act};

use crate::book::Book;
use crate::cell::{Beginning, BookCell, InTurns, Pass};
use crate::kept::Kept;
use crate::known::Known;
use crate::plays::{Apart, Draw, Leave, Look, Numbered, Together};
use atomic_table::{Refused, Seat, Table};
use outer_io::Memory;
use std::alloc::{AllocFailed, Global};
use std::marker::Brand;
use std::snapshot::Snapshot;
use std::sync::{Mutex, Wait};

// How often a caller looks before it goes to the gate.
const LOOKS: u32 = 1000;

/// There was no memory for a cell. The book comes back.
#[derive(Drop)]
pub struct NotMade<B> {
    /// The book.
    pub book: B,
}

impl<B: Book> BookCell<B> {
    /// A cell that holds a book on which nothing was done yet, and its first pass, with this number. For want of memory the book
    /// comes back.
    pub fn new(alloc: Global, book: B, source: u32) -> Result<(BookCell<B>, Pass<B>), NotMade<B>>
        requires { B.acts book ≡ [] }
        ensures cell { IfOk result (λ r. (B.opening r.0.opening ≡ B.opening book) × IsPassOf r.0 r.1) }
        ensures pass { IfOk result (λ r. IsFirstPass source r.1) }
        ensures not_made { IfErr result (λ e. e.book ≡ book) }
    {
        let beginning = Beginning {
            book: Snapshot::of(&book),
            number: source,
        };
        let placed = match Box::new(alloc, book) {
            Ok(placed) => placed,
            Err(AllocFailed { value }) => return Err(NotMade { book: value }),
        };
        let mut slots = match Vec::with_capacity(alloc, 1) {
            Ok(slots) => slots,
            Err(_) => {
                return Err(NotMade {
                    book: Box::into_inner(placed),
                });
            }
        };
        let kept = Kept {
            book: placed,
            idle: 0,
        };
        slots.push_reserved(Some(kept));
        match Table::new(alloc, &[0, 0], slots, &beginning) {
            Ok((table, seat)) => {
                let cell = BookCell {
                    table,
                    gate: Mutex::new(()),
                    apart: [0; 7],
                };
                Ok((cell, Pass { source, seat }))
            }
            Err(Refused { slots }) => Err(NotMade {
                book: book_of(slots),
            }),
        }
    }

    // Waits until the ticket is served, and takes the slot out.
    fn wait_turn<R: Wait>(
        &self,
        rt: &R,
        seat: &mut Seat<Option<Kept<B>>, Known<B, B::Call, B::Answer>>,
        ticket: u64,
    )
        requires own { seat.old.table_id ≡ self.now.id }
        requires waits { (t : ℕ) × (wrapped t ≡ ticket) × (seat.old.me.0.stage ≡ Waiting t) }
        ensures own { (seat.new.table_id ≡ seat.old.table_id) × (seat.new.id ≡ seat.old.id) }
        ensures turn { (t : ℕ) → seat.old.me.0.stage ≡ Waiting t → (k : Kept B)
            × (IsTurn B.opening B.acts B.is_legal seat.old.me.0 seat.new.me.0 t k × (seat.new.me.1 ≡ (0, Some k) ∷ seat.old.me.1)) }
    {
        for _ in rt.forever() {
            if self.table.shared.load::<Look>(seat, 1) == ticket {
                return;
            }
            std::thread::yield_now();
        }
        unreachable!()
    }

    // Looks for about as long as a turn takes whether the book is back: who comes to the gate then mostly needn't sleep there, which takes
    // longer than a turn.
    fn look_ahead(&self) {
        for _ in 0..LOOKS {
            if self.table.shared.peek(0) == self.table.shared.peek(1) {
                return;
            }
        }
    }

    /// Waits for its turn, and makes the call on the book. The pass has then seen a history that begins with what it had seen and ends
    /// with this call, and made just this act more. For want of memory there is no act. It may wait.
    pub fn step<R: Wait>(
        &self,
        rt: &R,
        pass: &mut Pass<B>,
        line: u32,
        call: B::Call,
    ) -> Result<B::Answer, Memory>
        requires { IsPassOf self.now pass.old }
        ensures same { IsSamePass pass.old pass.new × (pass.new.joined ≡ pass.old.joined) × (pass.new.handed ≡ pass.old.handed) }
        ensures legal { B.is_legal (B.opening self.now.opening) pass.new.seen }
        ensures seen { IfOk result (λ a. GoesOnTo pass.old.seen pass.new.seen (act pass.old.number line call a)) }
        ensures own { IfOk result (λ a. pass.new.own ≡ pass.old.own ++ act pass.old.number line call a ∷ []) }
        ensures memory { OnErr result (StartsWith pass.new.seen pass.old.seen × (pass.new.own ≡ pass.old.own)) }
    {
        self.look_ahead();
        let gate = self.gate.lock(rt);
        let mut kept = self.take(rt, &mut pass.seat);
        let answer = turn(&mut kept, pass.source, line, call);
        self.give(&mut pass.seat, kept);
        drop(gate);
        answer
    }

    /// Splits off a pass with a number that no pass of this cell has had, which has seen as much.
    pub fn split(&self, pass: &mut Pass<B>, source: u32) -> Pass<B>
        requires cell { IsPassOf self.now pass.old }
        requires first { pass.old.is_first ≡ true }
        requires unused { is_among source (pass.old.number ∷ pass.old.handed) ≡ false }
        ensures handed { HasHanded source pass.old pass.new }
        ensures cell { IsPassOf self.now result }
        ensures given { IsSplitOff source pass.old result }
    {
        self.split_as::<Brand>(pass, source)
    }

    fn split_as<J: Numbered>(&self, pass: &mut Pass<B>, source: u32) -> Pass<B>
        requires number { source ≡ J.number }
        requires cell { IsPassOf self.now pass.old }
        requires first { pass.old.is_first ≡ true }
        requires unused { is_among source (pass.old.number ∷ pass.old.handed) ≡ false }
        ensures handed { HasHanded source pass.old pass.new }
        ensures cell { IsPassOf self.now result }
        ensures given { IsSplitOff source pass.old result }
    {
        let seat = self.table.shared.split_seat::<Apart<J>>(&mut pass.seat);
        Pass { source, seat }
    }

    /// Takes the other pass in, which didn't come with the cell.
    pub fn join(&self, pass: &mut Pass<B>, other: Pass<B>)
        requires cell { IsPassOf self.now pass.old × IsPassOf self.now other }
        requires not_first { other.is_first ≡ false }
        ensures { HasJoined pass.old other pass.new }
    {
        let Pass { source: _, seat } = other;
        self.table
            .shared
            .join_seat::<Together>(&mut pass.seat, seat);
    }

    /// Ends the cell once every pass that was split off is joined, and gives the book back: of each number it has just the acts of that
    /// number's pass, in order, and no others.
    pub fn close(self, pass: Pass<B>) -> B
        requires cell { IsPassOf self pass }
        requires first { pass.is_first ≡ true }
        requires all_joined { Each (λ n. is_among n (sources pass.joined) ≡ true) pass.handed }
        ensures opening { B.opening result ≡ B.opening self.opening }
        ensures legal { B.is_legal (B.opening self.opening) (B.acts result) }
        ensures seen { StartsWith (B.acts result) pass.seen }
        ensures acts { (n : ℕ) → acts_by n (B.acts result) ≡ made_by n (mine pass) }
    {
        let BookCell { table, gate, .. } = self;
        drop(gate);
        let Pass { source: _, seat } = pass;
        let mut closed = table.close_with(seat);
        let slot = closed.take(0);
        closed.free();
        let Some(Kept { book, idle: _ }) = slot else {
            unreachable!()
        };
        Box::into_inner(book)
    }

    // Draws a ticket, waits until it is served, and takes the book out.
    fn take<R: Wait>(
        &self,
        rt: &R,
        seat: &mut Seat<Option<Kept<B>>, Known<B, B::Call, B::Answer>>,
    ) -> Kept<B>
        requires own { seat.old.table_id ≡ self.now.id }
        requires rest { IsAtRest seat.old.me }
        ensures own { (seat.new.table_id ≡ seat.old.table_id) × (seat.new.id ≡ seat.old.id) × (seat.new.me.1 ≡ (0, None) ∷ []) }
        ensures turn { (t : ℕ) × IsTurn B.opening B.acts B.is_legal seat.old.me.0 seat.new.me.0 t result }
    {
        let ticket = self.table.shared.fetch_add::<Draw>(seat, 0, 1);
        self.wait_turn(rt, seat, ticket);
        let taken = self.table.shared.exchange(seat, 0, None);
        let Some(kept) = taken else { unreachable!() };
        kept
    }

    // Puts the book back, and lets the next ticket be served.
    fn give(&self, seat: &mut Seat<Option<Kept<B>>, Known<B, B::Call, B::Answer>>, kept: Kept<B>)
        requires own { (seat.old.table_id ≡ self.now.id) × (seat.old.me.1 ≡ (0, None) ∷ []) }
        requires turn { (t : ℕ) × (fresh : List (Act B.Call B.Answer)) × GoesHome B.opening B.acts B.is_legal seat.old.me.0 t fresh kept }
        ensures own { (seat.new.table_id ≡ seat.old.table_id) × (seat.new.id ≡ seat.old.id) }
        ensures back { seat.new.me ≡ (back_with seat.old.me.0 (B.acts kept.book.value), []) }
    {
        let gap = self.table.shared.exchange(seat, 0, Some(kept));
        let None = gap else { unreachable!() };
        self.table.shared.fetch_add::<Leave>(seat, 1, 1);
    }
}

// One turn on the book.
fn turn<B: Book>(
    kept: &mut Kept<B>,
    source: u32,
    line: u32,
    call: B::Call,
) -> Result<B::Answer, Memory>
    ensures { IsOneTurn B.opening B.acts B.is_legal (fresh_of source line call result) kept.old kept.new }
{
    let book = &mut *kept.book;
    match book.act(source, line, call) {
        Ok(answer) => Ok(answer),
        Err(memory) => {
            kept.idle = kept.idle.wrapping_add(1);
            Err(memory)
        }
    }
}

fn book_of<B>(mut slots: Vec<Option<Kept<B>>>) -> B
    requires { (k : Kept B) × (slots.items ≡ Some k ∷ []) }
    ensures { (k : Kept B) → slots.items ≡ Some k ∷ [] → result ≡ k.book.value }
{
    let last = slots.pop();
    let Some(Some(Kept { book, idle: _ })) = last else {
        unreachable!()
    };
    slots.destroy_empty();
    Box::into_inner(book)
}
