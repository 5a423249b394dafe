//! The fragments that are held.
ghost use Rattle.std.specs.Prelude.{◌≡◌, ◌≤◌, ◌<◌, ◌+◌, ◌↔◌, List, [], ◌∷◌, length, Some, IfNone, OnSome, IfSome, IfOk, slice_get};
ghost use Rattle.std.specs.Option.{option_copied};
ghost use Rattle.afl_fragments.specs.Held.{Told, Piece, Tick, Clear, StandsFor, Message, message_with, assembled, held_bytes};
ghost use Rattle.afl_fragments.specs.Laws.{IsMessageOf};

use crate::part::Part;
use crate::places::{
    HeldPart, PARTS_MAX, PLACES, assemble, count_bytes, grow_older, keep_fresh, put,
};
use afl_layer::{Auth, Scratch};
use std::alloc::{AllocError, Global};
use std::array;
use std::marker::Model;

/// Whether a fragment is held.
#[derive(Clone, Copy)]
pub enum Held {
    /// It is held, in place of an earlier one with its number.
    Kept,
    /// Its number, this one, is above 16, and nothing has changed.
    TooMany(u8),
}

/// The fragments of a meter's message that are held, of each number the latest: a fragment is dropped at its second tick.
/// They stand in sixteen fixed places, one for each number, and room for their order is taken at first, so that no other
/// call takes memory.
#[derive(Drop)]
pub struct Parts {
    places: [HeldPart; PLACES],
    order: Vec<u8>,
}

impl Model for Parts {
    ghost use Rattle.std.specs.Prelude.{◌≤◌, List, vec_capacity};
    ghost use Rattle.afl_fragments.specs.declared.places.HeldPart.{HeldPart};
    ghost use Rattle.afl_fragments.specs.declared.places.TheConstants.{PLACES};
    ghost use Rattle.afl_fragments.specs.Places.{held_in, AreOrdered};

    ghost Value = { List HeldPart };

    ghost view = { λ p. held_in p.places p.order.items };

    ghost invariant = { λ p. AreOrdered p.places p.order.items × (PLACES ≤ vec_capacity p.order) };
}

impl Parts {
    /// No fragment is held.
    pub fn new(alloc: Global) -> Result<Parts, AllocError>
        ensures { IfOk result (λ parts. StandsFor parts []) }
    {
        Ok(Parts {
            places: array::from_fn(|_| HeldPart::unused()),
            order: Vec::with_capacity(alloc, PLACES)?,
        })
    }

    /// Holds a fragment, unless its number is above 16.
    pub fn hold(&mut self, part: Part) -> Held
        ensures kept { (result ≡ Held.Kept) ↔ (part.afl.fid ≤ 16) }
        ensures too_many { (result ≡ Held.TooMany part.afl.fid) ↔ (16 < part.afl.fid) }
        ensures held { (told : List Told) → StandsFor self.old told → StandsFor self.new (Piece part ∷ told) }
        ensures unchanged { 16 < part.afl.fid → self.new ≡ self.old }

        // So much room is enough for a message that the fragment completes.
        ensures room { held_bytes self.new ≤ held_bytes self.old + length part.bytes }
    {
        let fid = part.afl().fid;
        if fid > PARTS_MAX {
            return Held::TooMany(fid);
        }
        put(&mut self.places, &mut self.order, part);
        Held::Kept
    }

    /// A tick of the meter: a fragment that sees its second tick is dropped.
    pub fn tick(&mut self)
        ensures { (told : List Told) → StandsFor self.old told → StandsFor self.new (Tick ∷ told) }
    {
        keep_fresh(&mut self.order, &self.places);
        grow_older(&mut self.places);
    }

    /// Drops all fragments: the message that they made was stored.
    pub fn clear(&mut self)
        ensures { (told : List Told) → StandsFor self.old told → StandsFor self.new (Clear ∷ told) }
    {
        self.order.clear();
    }

    /// Puts the message together that the fragments make, and answers the fields that authenticate it. None where they
    /// make none.
    pub fn whole(&self, out: &mut Scratch) -> Option<Auth>
        ensures message { message_with result out.new ≡ assembled self.now }

        // It is the message of what was told.
        ensures told { (told : List Told) (m : Message) → StandsFor self.now told
            → (message_with result out.new ≡ Some m) ↔ IsMessageOf told m }
        ensures unchanged { IfNone result (out.new ≡ out.old) }
        ensures room { OnSome result (length out.new ≤ held_bytes self.now) }
    {
        assemble(&self.places, self.order.as_slice(), out)
    }

    /// How many fragments are held.
    pub fn count(&self) -> usize
        ensures count { result ≡ length self.now }
        ensures few { length self.now ≤ 16 }
    {
        self.order.len()
    }

    /// The fragment at a place, of which the one heard last has the first.
    pub fn at(&self, place: usize) -> Option<&HeldPart>
        ensures held { option_copied result ≡ slice_get self.now place }
        ensures counted { IfSome result (λ h. h.now.part.afl.fid ≤ 16) }
    {
        match self.order.as_slice().get(place) {
            Some(i) => self.places.get(*i as usize),
            None => None,
        }
    }

    /// How many bytes the fragments have together.
    #[tactic(auto, using(crate::proofs::PlaceLaws::few_places))]
    pub fn held_bytes(&self) -> usize
        ensures { result ≡ held_bytes self.now }
    {
        count_bytes(&self.places, self.order.as_slice())
    }
}
