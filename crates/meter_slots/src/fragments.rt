//! The fragments that a slot holds.
ghost use Rattle.std.specs.Prelude.{◌≡◌, ◌≤◌, ◌∷◌, List, IfOk, IfSome, OnOk, OnErr, length, slice_get, option_copied};
ghost use Rattle.afl_fragments.specs.Held.{Told, Piece, Tick, StandsFor, held_bytes};
ghost use Rattle.meter_slots.specs.Keeping.{held_by, Admits};

use afl_fragments::{HeldPart, Part, Parts};
use message_check::{Layers, Reason};
use outer_io::Memory;
use std::alloc::Global;

/// The fragments that are held, and room for them from the first one on: most meters never send any.
pub(crate) type Fragments = Option<Box<Parts>>;

/// How many bytes the fragments have together.
pub(crate) fn held_bytes(fragments: &Fragments) -> usize
    ensures { result ≡ held_bytes (held_by fragments.now) }
{
    match fragments {
        None => 0,
        Some(parts) => parts.held_bytes(),
    }
}

/// Takes room for the fragment of a telegram with these layers, where it has one.
#[tactic(auto, using(crate::proofs::NothingHeld::still_nothing))]
pub(crate) fn take_place(
    alloc: Global,
    fragments: &mut Fragments,
    layers: &Result<Layers, Reason>,
) -> Result<(), Memory>
    ensures room { IfOk result (λ _. IfOk layers.now (λ l. Admits l.afl fragments.new)) }
    ensures held { held_by fragments.new ≡ held_by fragments.old }
{
    let Ok(layers) = layers else {
        return Ok(());
    };
    if layers.is_fragment() && fragments.is_none() {
        *fragments = Some(Box::new(alloc, Parts::new(alloc)?)?);
    }
    Ok(())
}

/// A tick of the meter: a fragment that sees its second tick is dropped.
#[tactic(auto, using(crate::proofs::NothingHeld::nothing_ticked))]
pub(crate) fn tick(fragments: &mut Fragments)
    ensures { (told : List Told) → StandsFor (held_by fragments.old) told → StandsFor (held_by fragments.new) (Tick ∷ told) }
{
    match fragments {
        None => {}
        Some(parts) => parts.tick(),
    }
}

/// Holds a fragment.
pub(crate) fn hold(alloc: Global, fragments: &mut Fragments, part: Part) -> Result<(), Memory>
    ensures ok { OnOk result ((told : List Told) → StandsFor (held_by fragments.old) told
        → StandsFor (held_by fragments.new) (Piece part ∷ told)) }
    ensures err { OnErr result (held_by fragments.new ≡ held_by fragments.old) }
{
    match fragments {
        Some(parts) => {
            parts.hold(part);
        }
        None => {
            let mut parts = Box::new(alloc, Parts::new(alloc)?)?;
            parts.hold(part);
            *fragments = Some(parts);
        }
    }
    Ok(())
}

/// How many fragments are held.
pub(crate) fn part_count(fragments: &Fragments) -> usize
    ensures count { result ≡ length (held_by fragments.now) }
    ensures few { length (held_by fragments.now) ≤ 16 }
{
    match fragments {
        None => 0,
        Some(parts) => parts.count(),
    }
}

/// The fragment at a place, of which the one heard last has the first.
pub(crate) fn part_at(fragments: &Fragments, place: usize) -> Option<&HeldPart>
    ensures held { option_copied result ≡ slice_get (held_by fragments.now) place }
    ensures counted { IfSome result (λ h. h.now.part.afl.fid ≤ 16) }
{
    match fragments {
        None => None,
        Some(parts) => parts.at(place),
    }
}
