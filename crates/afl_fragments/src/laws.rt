//! Laws of the fragments that are held.
ghost use Rattle.std.specs.Prelude.{◌≡◌, ◌↔◌, ◌++◌, ℕ, List, Some, option_map};
ghost use Rattle.afl_fragments.specs.Fragment.{Fragment};
ghost use Rattle.afl_fragments.specs.declared.places.HeldPart.{HeldPart};
ghost use Rattle.afl_fragments.specs.Held.{Told, held, piece_at, last_end, Message, assembled};
ghost use Rattle.afl_fragments.specs.Short.{cut_down};
ghost use Rattle.afl_fragments.specs.Laws.{IsLatest, IsLastEnd, IsMessage, MessagesAreThoseOfHistories, EachNumberIsHeldOnce};

/// A fragment is held exactly where it is the latest that was heard with its number, no message that fragments made was
/// stored after it, and at most one tick came after it.
pub fn held_is_latest()
    ensures { (told : List Told) (fid : ℕ) (part : Fragment)
        → (option_map (λ h. h.part) (piece_at fid (held told)) ≡ Some part) ↔ IsLatest fid told part }
{}

/// The end with which a message ends is the one heard last: an end that is held, and no end that came after it is held.
pub fn end_is_the_last_heard()
    ensures { (told : List Told) (part : Fragment)
        → (option_map (λ h. h.part) (last_end (held told)) ≡ Some part) ↔ IsLastEnd told part }
{}

/// A message is made exactly where an end is held and, for the end that was heard last, all fragments with smaller numbers,
/// each with more to follow. It is these fragments joined.
pub fn message_is_joined()
    ensures { (hs : List HeldPart) (m : Message) → (assembled hs ≡ Some m) ↔ IsMessage hs m }
{}

/// The message that fragments make is found by looking back over what was told alone: at the end that was heard last, and
/// at the latest fragment of each smaller number.
pub fn message_is_that_of_the_history()
    ensures { MessagesAreThoseOfHistories }
{}

/// A number stands at most once among the fragments that are held, so that none is counted twice in `held_bytes`.
pub fn each_number_is_held_once()
    ensures { EachNumberIsHeldOnce }
{}

/// What was told, cut down to the fragments that are held, holds the same, whatever is told after it.
#[tactic(auto, using(crate::proofs::Shortening::held_goes_on, crate::proofs::Shortening::cut_holds))]
pub fn a_cut_history_holds_the_same()
    ensures { (later told : List Told) → held (later ++ cut_down told) ≡ held (later ++ told) }
{}
