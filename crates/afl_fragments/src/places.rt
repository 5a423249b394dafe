//! Places for fragments: one for each number, and which of them are in use.
ghost use Rattle.std.specs.Prelude.{◌≡◌, ◌≤◌, ◌<◌, ◌+◌, ◌*◌, ◌++◌, ◌∷◌, length, filter, map, not};
ghost use Rattle.std.specs.Prelude.{eqb, find, take, IfSome, IfNone, Some, None, if◌then◌else◌, vec_capacity};
ghost use Rattle.std.specs.List.{flat_map};
ghost use Rattle.afl_fragments.specs.Held.{is_end, front, auth_of, message_with, assembled, held_bytes};
ghost use Rattle.afl_fragments.specs.Places.{at_place, held_in, held_with, is_in, is_led, is_fresh, older, parts_in, IsPlace, AreOrdered};

use crate::part::{PART_MAX, Part};
use afl_layer::{Afl, Auth, Scratch};

/// The most fragments of a message.
pub const PARTS_MAX: u8 = 16;

// How many places there are: one for each fragment of a message.
pub(crate) const PLACES: usize = PARTS_MAX as usize;

/// A fragment that is held, and how many ticks came after it.
#[derive(Drop)]
pub struct HeldPart {
    pub(crate) ticks: u8,
    pub(crate) part: Part,
}

impl HeldPart {
    ghost use Rattle.std.specs.Prelude.{◌≡◌};
    ghost use Rattle.afl_fragments.specs.Places.{is_fresh};

    /// The fragment.
    pub fn part(&self) -> &Part
        ensures { result.now ≡ self.now.part }
    {
        &self.part
    }

    /// Whether no tick came after it.
    pub fn is_fresh(&self) -> bool
        ensures { result ≡ is_fresh self.now }
    {
        self.ticks == 0
    }

    // What stands in a place that isn't in use.
    pub(crate) fn unused() -> HeldPart {
        let afl = Afl {
            more: true,
            fid: 1,
            mcl: None,
            ki: None,
            mcr: None,
            mac: None,
            ml: None,
            len: 4,
        };
        HeldPart {
            ticks: 0,
            part: Part::new(afl, &[]),
        }
    }
}

// Takes a place out of use.
fn leave_out(order: &mut Vec<u8>, place: u8)
    ensures left { order.new.items ≡ filter (λ i. not (eqb i place)) order.old.items }
    ensures room { vec_capacity order.new ≡ vec_capacity order.old }
{
    order.retain(|i| *i != place);
}

// Puts a place in front of those in use.
fn put_first(order: &mut Vec<u8>, place: u8)
    requires room { length order.old.items < vec_capacity order.old }
    ensures first { order.new.items ≡ place ∷ order.old.items }
    ensures room { vec_capacity order.old ≤ vec_capacity order.new }
{
    order.insert(0, place).unwrap();
}

// Holds a fragment in the place of its number.
pub(crate) fn put(places: &mut [HeldPart; PLACES], order: &mut Vec<u8>, part: Part)
    requires counted { part.afl.fid ≤ PARTS_MAX }
    requires ordered { AreOrdered places.old order.old.items }
    requires room { PLACES ≤ vec_capacity order.old }
    ensures ordered { AreOrdered places.new order.new.items }
    ensures held { held_in places.new order.new.items ≡ held_with part (held_in places.old order.old.items) }
    ensures room { vec_capacity order.old ≤ vec_capacity order.new }
{
    let place = part.afl().fid - 1;
    leave_out(order, place);
    put_first(order, place);
    places[place as usize] = HeldPart { ticks: 0, part };
}

fn is_fresh_at(places: &[HeldPart; PLACES], place: u8) -> bool
    ensures { result ≡ is_fresh (at_place places.now place) }
{
    match places.get(place as usize) {
        Some(held) => held.ticks == 0,
        None => true,
    }
}

// Takes out of use the places whose fragments have seen a tick.
pub(crate) fn keep_fresh(order: &mut Vec<u8>, places: &[HeldPart; PLACES])
    ensures left { order.new.items ≡ filter (λ i. is_fresh (at_place places.now i)) order.old.items }
    ensures room { vec_capacity order.new ≡ vec_capacity order.old }
{
    order.retain(|i| is_fresh_at(places, *i));
}

// Each fragment sees its first tick.
pub(crate) fn grow_older(places: &mut [HeldPart])
    ensures { places.new ≡ map older places.old }
{
    for held in places.iter_mut() {
        held.ticks = 1;
    }
}

fn is_in_use(order: &[u8], place: u8) -> bool
    ensures { result ≡ is_in place order.now }
{
    order.iter().any(|i| *i == place)
}

fn has_more_at(places: &[HeldPart; PLACES], place: u8) -> bool
    ensures { result ≡ (at_place places.now place).part.afl.more }
{
    match places.get(place as usize) {
        Some(held) => held.part.afl().more,
        None => true,
    }
}

// Whether a fragment with more to follow is held in the place.
fn leads(places: &[HeldPart; PLACES], order: &[u8], place: u8) -> bool
    ensures { result ≡ is_led places.now order.now place }
{
    is_in_use(order, place) && has_more_at(places, place)
}

// The place of the end that was heard last.
fn find_end(places: &[HeldPart; PLACES], order: &[u8]) -> Option<u8>
    requires { AreOrdered places.now order.now }
    ensures held { IfSome result (IsPlace places.now) }
    ensures first { result ≡ find (λ i. is_end (at_place places.now i)) order.now }
{
    order
        .iter()
        .copied()
        .find(|place| !has_more_at(places, *place))
}

// Whether the fragments of the first places are held, each with more to follow.
fn is_front_held(places: &[HeldPart; PLACES], order: &[u8], count: u8) -> bool
    requires count { count < 16 }
    requires ordered { AreOrdered places.now order.now }
    ensures { front count (held_in places.now order.now) ≡ (if result then Some (parts_in (take count places.now)) else None) }
{
    for place in 0..count {
        if !leads(places, order, place) {
            return false;
        }
    }
    true
}

// Puts the pieces behind one another.
fn join(places: &[HeldPart], out: &mut Scratch)
    requires { length out.old + PART_MAX * length places.now ≤ 4096 }
    ensures { out.new ≡ out.old ++ flat_map (λ p. p.bytes) (parts_in places.now) }
{
    for held in places {
        out.extend(held.part.bytes());
    }
}

// The fields that authenticate a message with this first and this last fragment.
fn auth_between(first: &Part, last: &Part) -> Auth
    ensures { result ≡ auth_of first.now last.now }
{
    let header = first.afl();
    Auth {
        mcl: header.mcl,
        mcr: header.mcr,
        ml: header.ml,
        mac: last.afl().mac,
    }
}

// Puts the message together that the fragments make.
pub(crate) fn assemble(places: &[HeldPart; PLACES], order: &[u8], out: &mut Scratch) -> Option<Auth>
    requires { AreOrdered places.now order.now }
    ensures message { message_with result out.new ≡ assembled (held_in places.now order.now) }
    ensures unchanged { IfNone result (out.new ≡ out.old) }
{
    let end = find_end(places, order)?;
    if !is_front_held(places, order, end) {
        return None;
    }
    let count = end as usize + 1;
    out.clear();
    join(&places[..count], out);
    Some(auth_between(&places[0].part, &places[end as usize].part))
}

fn len_at(places: &[HeldPart; PLACES], place: u8) -> usize
    ensures value { result ≡ length (at_place places.now place).part.bytes }
    ensures most { result ≤ PART_MAX }
{
    match places.get(place as usize) {
        Some(held) => held.part.bytes().len(),
        None => 0,
    }
}

// How many bytes the fragments have together.
pub(crate) fn count_bytes(places: &[HeldPart; PLACES], order: &[u8]) -> usize
    requires { length order.now ≤ 16 }
    ensures { result ≡ held_bytes (held_in places.now order.now) }
{
    let mut bytes = 0;
    for place in order {
        bytes += len_at(places, *place);
    }
    bytes
}
