//! What is told of a line of a stream.
ghost use Rattle.std.specs.Prelude.{ℕ, ◌<◌, List, length, OnOk};
ghost use Rattle.line_teller.specs.Telling.{Tells};

use line_teller::Sheet;
use outer_io::Memory;
use std::alloc::Global;

/// Tells lines one after another, of which there may be more than any source has that ends.
pub trait StreamTeller {
    /// The most bytes of a line that is told by its bytes.
    ghost longest: { ℕ };

    /// The teller tells the line with this number, from 1, by this text and this note, and is then the second one.
    ghost tells: { Self → ℕ → List ℕ → List ℕ → List ℕ → Self → Type 0 };

    /// Tells a line, which is given without its end. `Memory` leaves the teller and the sheets as they happen to be.
    fn tell(
        &mut self,
        alloc: Global,
        number: u64,
        line: &[u8],
        text: &mut Sheet,
        note: &mut Sheet,
    ) -> Result<(), Memory>
        ensures { OnOk result (Tells (tells self.old number line.now) self.new text.old text.new note.old note.new) };

    /// Tells a line that is too long to be looked at.
    fn tell_long(&mut self, number: u64, text: &mut Sheet, note: &mut Sheet)
        ensures { (line : List ℕ) → longest < length line →
            Tells (tells self.old number line) self.new text.old text.new note.old note.new };
}
