//! Whether the printed lists are orders of the lines that they have to have.
ghost use Rattle.std.specs.Prelude.{◌≡◌, ◌<◌, ◌+◌, ◌-◌, ◌^◌, [], ◌∷◌, ◌++◌, ℕ, List, true, false, length};
ghost use Rattle.std.specs.Prelude.{vec_len, slice_get, slice_index_or, Ok, None, Some, IfSome};
ghost use Rattle.audit_check_main.specs.Order.{IsRight, IsWrongAt, IsFirstWrong, AreNext};
ghost use Rattle.audit_check_main.specs.Hearing.{numbers_in_list};
ghost use Rattle.audit_check_main.specs.Cursors.{HaveTaken};

use crate::hearing::Hearing;
use crate::printed::Order;
use outer_io::Memory;
use std::alloc::Global;

// The number of a receiver's line at a place of a list, if it has one there.
fn number_at(heard: &[Hearing<'_>], list: usize, receiver: usize, place: usize) -> Option<u32>
    ensures number { result ≡ slice_get (numbers_in_list heard.now list (receiver + 1)) place }
    ensures few { IfSome result (λ _. place < 2 ^ 64 - 1) }
{
    let hearing = heard.get(receiver)?;
    let numbers = hearing.numbers(list);
    if place < numbers.len() {
        Some(numbers[place])
    } else {
        None
    }
}

// Takes a pair of a list, if it is the next line of its receiver, of which so many were taken.
fn take_next(heard: &[Hearing<'_>], list: usize, taken: &mut Vec<usize>, pair: (u32, u32)) -> bool
    requires { vec_len taken.old ≡ length heard.now }
    ensures count { vec_len taken.new ≡ length heard.now }
    ensures next { result ≡ true → (order : List (ℕ × ℕ)) → HaveTaken (numbers_in_list heard.now list) order taken.old.items
        → HaveTaken (numbers_in_list heard.now list) (order ++ pair ∷ []) taken.new.items }
    ensures other { result ≡ false → (order : List (ℕ × ℕ)) → HaveTaken (numbers_in_list heard.now list) order taken.old.items
        → AreNext (numbers_in_list heard.now list) (order ++ pair ∷ []) → ⊥ }
{
    let (source, line) = pair;
    if source == 0 {
        return false;
    }
    if source as usize > taken.len() {
        return false;
    }
    let receiver = source as usize - 1;
    let count = taken[receiver];
    if number_at(heard, list, receiver, count) != Some(line) {
        return false;
    }
    taken[receiver] = count + 1;
    true
}

// Whether all lines of a list were taken of each receiver.
fn are_all_taken(heard: &[Hearing<'_>], list: usize, taken: &[usize]) -> bool
    requires { length taken.now ≡ length heard.now }
    ensures all { result ≡ true → (order : List (ℕ × ℕ)) → HaveTaken (numbers_in_list heard.now list) order taken.now
        → IsRight (numbers_in_list heard.now list) order }
    ensures missing { result ≡ false → (order : List (ℕ × ℕ)) → HaveTaken (numbers_in_list heard.now list) order taken.now
        → IsRight (numbers_in_list heard.now list) order → ⊥ }
{
    for (receiver, hearing) in heard.iter().enumerate() {
        if hearing.numbers(list).len() != taken[receiver] {
            return false;
        }
    }
    true
}

// The place at which a list goes wrong, if it does.
fn wrong_place(
    alloc: Global,
    heard: &[Hearing<'_>],
    list: usize,
    order: &[(u32, u32)],
) -> Result<Option<usize>, Memory>
    ensures right { result ≡ Ok None → IsRight (numbers_in_list heard.now list) order.now }
    ensures wrong { (place : ℕ) → result ≡ Ok (Some place) → IsWrongAt (numbers_in_list heard.now list) order.now place }
{
    let mut taken = vec![in alloc; 0usize; heard.len()]?;
    for (place, pair) in order.iter().enumerate() {
        if !take_next(heard, list, &mut taken, *pair) {
            return Ok(Some(place));
        }
    }
    if are_all_taken(heard, list, taken.as_slice()) {
        return Ok(None);
    }
    Ok(Some(order.len()))
}

/// The first list that isn't right, and the place where it goes wrong.
pub(crate) fn first_wrong(
    alloc: Global,
    heard: &[Hearing<'_>],
    lists: &[Order],
) -> Result<Option<(usize, usize)>, Memory>
    ensures right { result ≡ Ok None → (k : ℕ) → k < length lists.now
        → IsRight (numbers_in_list heard.now k) (slice_index_or lists.now k []) }
    ensures wrong { (list place : ℕ) → result ≡ Ok (Some (list, place))
        → IsFirstWrong (numbers_in_list heard.now) lists.now list place }
{
    for (list, order) in lists.iter().enumerate() {
        if let Some(place) = wrong_place(alloc, heard, list, order.pairs())? {
            return Ok(Some((list, place)));
        }
    }
    Ok(None)
}
