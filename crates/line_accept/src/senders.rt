//! The senders.
use crate::fence::{Answer, Fence, Numbered};
use indexmap::IndexMap;
use outer_io::Memory;
use std::alloc::Global;
use std::marker::Model;

/// All senders that are known, each by its name with its fence, in the order in which they were added.
#[derive(Drop)]
pub struct Senders {
    fences: IndexMap<Vec<u8>, Fence>,
}

impl Model for Senders {
    ghost use Rattle.std.specs.Prelude.{List, map};
    ghost use Rattle.line_accept.specs.Senders.{Sender};

    ghost Value = { List Sender };

    ghost view = { λ s. map (λ e. record { name = e.0.items; fence = e.1 }) s.fences.entries };
}

impl Senders {
    ghost use Rattle.std.specs.Prelude.{ℕ, ◌≡◌, ◌++◌, List, [], ◌∷◌, map, length, slice_get, true, false, Some, None, IfOk, OnErr, option_map, is_some, if◌then◌else◌};
    ghost use Rattle.line_accept.specs.Senders.{Sender, fence_of, answer_in, passed_in};
    ghost use Rattle.line_accept.specs.Laws.{Numbering, Delivered, IsNumbered, StandsFor};

    /// No sender.
    pub fn new(alloc: Global) -> Senders
        ensures { result ≡ [] }
    {
        Senders {
            fences: IndexMap::new(alloc),
        }
    }

    /// Whether a sender has this name.
    pub fn is_known(&self, name: &[u8]) -> bool
        ensures { result ≡ is_some (fence_of name.now self.now) }
    {
        self.fences.contains_key(name)
    }

    /// Adds a sender whose name no other has, behind the others. For want of memory nothing changes.
    pub fn add(&mut self, name: Vec<u8>, fence: Fence) -> Result<(), Memory>
        requires { fence_of name.items self.old ≡ None }
        ensures added { IfOk result (λ _. self.new ≡ self.old ++ record { name = name.items; fence = fence } ∷ []) }
        ensures err { OnErr result (self.new ≡ self.old) }
    {
        self.fences.insert(name, fence)?;
        Ok(())
    }

    /// The fences of all, in their order.
    pub fn fences(&self, alloc: Global) -> Result<Vec<Fence>, Memory>
        ensures { IfOk result (λ fences. fences.items ≡ map (λ s. s.fence) self.now) }
    {
        let mut fences = Vec::new(alloc);
        for place in 0..self.fences.len() {
            fences.push(self.fences[place])?;
        }
        Ok(fences)
    }

    /// How many there are.
    pub fn len(&self) -> usize
        ensures { result ≡ length self.now }
    {
        self.fences.len()
    }

    /// The name and the fence of the one at a place.
    pub fn at(&self, place: usize) -> Option<(&[u8], Fence)>
        ensures { option_map (λ s. record { name = s.0.now; fence = s.1 }) result ≡ slice_get self.now place }
    {
        let (name, fence) = self.fences.get_index(place)?;
        Some((name.as_slice(), *fence))
    }

    /// Takes a message of the sender with this name, if it is its very next one.
    pub fn accept(&mut self, name: &[u8], message: &Numbered) -> Answer
        ensures answer { result ≡ answer_in self.old name.now message.now }
        ensures after { self.new ≡ passed_in self.old name.now message.now }
        // The theorem over every list of deliveries: what stands for some stands for one more.
        ensures stands { (told : Numbering) (first : List Sender) (before : List Delivered) (content : List ℕ)
            → StandsFor told first before self.old
            → IsNumbered told (record { sender = name.now; message = message.now; content = content })
            → StandsFor told first (before ++ record { sender = name.now; message = message.now; content = content } ∷ []) self.new }
    {
        let Some(place) = self.fences.get_index_of(name) else {
            return Answer::Unknown;
        };
        let mut fence = self.fences[place];
        let answer = fence.accept(message);
        self.fences[place] = fence;
        answer
    }
}
