//! A slot as a book, on which a cell makes acts.
use crate::book::SlotBook;
use crate::entry::{Event, Outcome};
use book_cells::Book;
use outer_io::Memory;

impl Book for SlotBook {
    ghost use Rattle.std.specs.Prelude.{map};
    ghost use Rattle.meter_slots.specs.Acting.{Opening, opening_of, act_of, IsLegalJournal};

    type Call = Event;

    type Answer = Outcome;

    ghost Opening = { Opening };

    ghost opening = { opening_of };

    ghost acts = { λ b. map act_of b.journal };

    ghost is_legal = { IsLegalJournal };

    fn act(&mut self, source: u32, line: u32, call: Event) -> Result<Outcome, Memory> {
        self.step(source, line, call)
    }

    ghost empty_is_legal = { λ o. tt };
}
