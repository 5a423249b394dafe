//! The strangers as a book, on which a cell makes acts.
use crate::strangers::Strangers;
use book_cells::Book;
use meter_address::Address;
use outer_io::Memory;

impl Book for Strangers {
    ghost use Rattle.std.specs.Prelude.{map};
    ghost use Rattle.stranger_ring.specs.Ring.{note_of};

    type Call = Address;

    type Answer = ();

    ghost Opening = { Unit {0} };

    ghost opening = { λ b. tt };

    ghost acts = { λ b. map note_of b };

    ghost is_legal = { λ o acts. Unit {0} };

    fn act(&mut self, source: u32, line: u32, call: Address) -> Result<(), Memory> {
        self.note(source, line, call)
    }

    ghost empty_is_legal = { λ o. tt };
}
