//! Slots that several receivers share: each is in a cell, of which each receiver has a pass.
ghost use Rattle.std.specs.Prelude.{◌≡◌, ◌<◌, length};
ghost use Rattle.book_cells.specs.Acts.{IsPassOf};
ghost use Rattle.receivers.specs.Passes.{ArePassesOf, HaveAnswered, HasNoted};
ghost use Rattle.receivers.specs.Works.{answer_by, note_if};

use crate::cells::StrangerCell;
use crate::class::Class;
use crate::downlinks::send;
use crate::slots::{Heard, Slots, silent};
use book_cells::{Book, BookCell, Pass};
use meter_address::Address;
use meter_directory::Directory;
use meter_slots::{Event, Outcome};
use outer_io::{Memory, Sink};
use std::sync::Wait;
use stranger_ring::Strangers;

// The cells of all slots and that of the strangers, and a receiver's pass of each.
#[derive(Drop)]
pub(crate) struct Shared<'w, R: Wait, B: Book> {
    pub(crate) rt: &'w R,
    pub(crate) directory: &'w Directory,
    pub(crate) cells: &'w [BookCell<B>],
    pub(crate) passes: &'w mut [Pass<B>],
    pub(crate) strangers: &'w StrangerCell,
    pub(crate) stranger_pass: &'w mut Pass<Strangers>,
}

// The step of the slot at a place.
fn step_at<B: Book<Call = Event, Answer = Outcome>, R: Wait>(
    rt: &R,
    cells: &[BookCell<B>],
    passes: &mut [Pass<B>],
    place: usize,
    line: u32,
    event: Event,
) -> Result<Outcome, Memory>
    requires passes { ArePassesOf cells.now passes.old }
    requires place { place < length cells.now }
    ensures passes { ArePassesOf cells.now passes.new }
    ensures answered { HaveAnswered (answer_by (record { place = place; line = line; event = event }) result) passes.old passes.new }
{
    let pass = &mut passes[place];
    cells[place].step(rt, pass, line, event)
}

// Notes a stranger's line.
fn note<R: Wait>(
    rt: &R,
    strangers: &StrangerCell,
    pass: &mut Pass<Strangers>,
    line: u32,
    address: Address,
) -> Result<(), Memory>
    requires pass { IsPassOf strangers.now pass.old }
    ensures pass { IsPassOf strangers.now pass.new }
    ensures noted { HasNoted (note_if (record { line = line; address = address }) result) pass.old pass.new }
{
    strangers.step(rt, pass, line, address)
}

impl<R: Wait, B: Book<Call = Event, Answer = Outcome>, K: Sink> Slots<K> for Shared<'_, R, B> {
    ghost use Rattle.std.specs.Prelude.{ℕ, ◌≡◌, List, [], length};
    ghost use Rattle.meter_address.specs.declared.address.Address.{Address};
    ghost use Rattle.outer_io.specs.Shown.{sink_change};
    ghost use Rattle.book_cells.specs.Acts.{CellShown, IsPassOf};
    ghost use Rattle.stranger_ring.specs.declared.strangers.Heard.{Heard};
    ghost use Rattle.receivers.specs.Passes.{crew, ArePassesOf};
    ghost use Rattle.receivers.specs.Works.{Works, MakesShared};

    ghost Fixed = { List Address × List (CellShown B) × CellShown (List Heard) × ℕ × ℕ };

    ghost fixed = { λ s. (s.directory.now, s.cells.now, s.strangers.now, s.passes.ghost_name, s.stranger_pass.ghost_name) };

    ghost directory = { λ f. f.0 };

    ghost ready = { λ s. (length s.directory.now ≡ length s.cells.now)
        × ArePassesOf s.cells.now s.passes.now × IsPassOf s.strangers.now s.stranger_pass.now };

    ghost makes = { λ f line address event sent p q. MakesShared f.0 line address event sent
        (crew p.0.passes.now p.0.stranger_pass.now) (crew q.0.passes.now q.0.stranger_pass.now)
        K.tells (sink_change K.Sink p.1 q.1) };

    ghost waits = { λ f p q. Works f.0 [] []
        (crew p.0.passes.now p.0.stranger_pass.now) (crew q.0.passes.now q.0.stranger_pass.now) × (q.1 ≡ p.1) };

    fn step(
        &mut self,
        tx: &mut K,
        line: u32,
        address: Address,
        event: Event,
    ) -> Result<Heard, Memory> {
        let Some(place) = self.directory.find(address) else {
            return match note(self.rt, self.strangers, self.stranger_pass, line, address) {
                Ok(()) => Ok(silent(Class::Strange)),
                Err(memory) => Err(memory),
            };
        };
        let passes = &mut *self.passes;
        match step_at(self.rt, self.cells, passes, place as usize, line, event) {
            Ok(outcome) => {
                let sent = send(tx, &outcome);
                Ok(Heard {
                    class: Class::Own,
                    sent,
                })
            }
            Err(memory) => Err(memory),
        }
    }
}
