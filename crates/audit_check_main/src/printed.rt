//! The pairs of a report's lists.
ghost use Rattle.std.specs.Prelude.{◌≡◌};
ghost use Rattle.audit_check_main.specs.Lists.{small_number, numbers_in, pair_of};

use outer_io::Memory;
use plain_text::{Fields, read_number};
use std::alloc::Global;
use std::marker::Model;

/// The pairs of a list, in their order.
#[derive(Drop)]
pub(crate) struct Order {
    pairs: Vec<(u32, u32)>,
}

impl Model for Order {
    ghost use Rattle.std.specs.Prelude.{List, ℕ};

    ghost Value = { List (ℕ × ℕ) };

    ghost view = { λ o. o.pairs.items };
}

impl Order {
    ghost use Rattle.std.specs.Prelude.{◌≡◌, [], ◌∷◌, ◌++◌, OnOk, OnErr};

    /// No pair.
    pub(crate) fn new(alloc: Global) -> Order
        ensures { result ≡ [] }
    {
        Order {
            pairs: Vec::new(alloc),
        }
    }

    /// The pairs.
    pub(crate) fn pairs(&self) -> &[(u32, u32)]
        ensures { result.now ≡ self.now }
    {
        self.pairs.as_slice()
    }

    /// Adds a pair. For want of memory nothing changes.
    pub(crate) fn push(&mut self, pair: (u32, u32)) -> Result<(), Memory>
        ensures ok { OnOk result (self.new ≡ self.old ++ pair ∷ []) }
        ensures err { OnErr result (self.new ≡ self.old) }
    {
        self.pairs.push(pair)?;
        Ok(())
    }
}

fn read_small(text: &[u8]) -> Option<u32>
    ensures { result ≡ small_number text.now }
{
    match read_number(text, u64::from(u32::MAX)) {
        Some(number) => Some(number as u32),
        None => None,
    }
}

fn read_numbers(mut fields: Fields<'_>) -> Option<(u32, u32)>
    ensures { result ≡ numbers_in fields.entry }
{
    let (Some(_), Some(first), Some(second)) = (fields.next(), fields.next(), fields.next()) else {
        return None;
    };
    match (read_small(first), read_small(second)) {
        (Some(source), Some(line)) => Some((source, line)),
        _ => None,
    }
}

/// The pair that a line names behind its first word, if it names one.
pub(crate) fn read_pair(line: &[u8]) -> Option<(u32, u32)>
    ensures { result ≡ pair_of line.now }
{
    read_numbers(Fields::of_line(line))
}
