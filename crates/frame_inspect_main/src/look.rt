//! A way to look at items.
ghost use Rattle.std.specs.Prelude.{◌≡◌, ℕ, List, IfOk};
ghost use Rattle.frame_inspect_main.specs.declared.item.Item.{Item};

use crate::item::Item;
use crate::room::Room;
use crate::shown::Shown;
use outer_io::Memory;

/// A way to look at an item, which tells the same of the same item under the same number, in whatever thread.
pub trait Look: Sync {
    /// What is shown of an item with a number.
    ghost meaning: { Self → ℕ → Item → List ℕ };

    /// Looks at an item with a number, and writes what it shows in this room.
    fn look(&self, room: &mut Room, number: u32, next: &Item) -> Result<Shown, Memory>
        ensures { IfOk result (λ shown. shown ≡ meaning self.now number next.now) };
}
