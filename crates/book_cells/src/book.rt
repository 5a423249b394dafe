//! What a cell holds: a value that keeps the list of the acts made on it.
ghost use Rattle.std.specs.Prelude.{◌≡◌, List, [], ◌∷◌, ◌++◌, IfOk, OnOk, OnErr};
ghost use Rattle.book_cells.specs.Acts.{act};
ghost use Rattle.book_cells.specs.declared.act.Act.{Act};

use crate::act::Act;
use outer_io::Memory;

/// A value that keeps the list of the acts made on it.
pub trait Book {
    /// What is asked.
    type Call;

    /// What is answered.
    type Answer;

    /// What a book is made with.
    ghost Opening: { Type 0 };

    /// What this one was made with.
    ghost opening: { Self → Opening };

    /// The acts on it, in order.
    ghost acts: { Self → List (Act Self.Call Self.Answer) };

    /// Which acts can come about on a book that was made so.
    ghost is_legal: { Opening → List (Act Self.Call Self.Answer) → Type 0 };

    /// Makes one act: it stands at the end of the list with its answer. For want of memory there is none.
    fn act(&mut self, source: u32, line: u32, call: Self::Call) -> Result<Self::Answer, Memory>
        ensures opening { opening self.new ≡ opening self.old }
        ensures added { IfOk result (λ a. acts self.new ≡ acts self.old ++ act source line call a ∷ []) }
        ensures legal { OnOk result (is_legal (opening self.old) (acts self.old) → is_legal (opening self.old) (acts self.new)) }
        ensures memory { OnErr result (acts self.new ≡ acts self.old) };

    /// No act at all can always be.
    ghost empty_is_legal: { (o : Opening) → is_legal o [] };
}
