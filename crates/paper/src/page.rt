//! A page: the last bytes of a text, which no sink has yet.
ghost use Rattle.std.specs.Prelude.{◌≡◌, ◌≤◌, ◌+◌, ◌-◌, ◌++◌, [], length, take};

use std::marker::Model;

/// How many bytes a page has room for.
pub(crate) const PAGE_MAX: usize = 16_384;

/// Bytes, in order.
#[derive(Drop)]
pub(crate) struct Page {
    bytes: [u8; PAGE_MAX],
    len: usize,
}

impl Model for Page {
    ghost use Rattle.std.specs.Prelude.{ℕ, ◌≤◌, List, take};
    ghost use Rattle.paper.specs.declared.page.TheConstants.{PAGE_MAX};

    ghost Value = { List ℕ };

    ghost view = { λ p. take p.len p.bytes };

    ghost invariant = { λ p. p.len ≤ PAGE_MAX };
}

// Copies bytes to a place.
fn copy_to(bytes: &mut [u8], at: usize, more: &[u8])
    requires { at + length more.now ≤ length bytes.old }
    ensures front { take (at + length more.now) bytes.new ≡ take at bytes.old ++ more.now }
{
    let (_, rest) = bytes.split_at_mut(at);
    let (room, _) = rest.split_at_mut(more.len());
    room.copy_from_slice(more);
}

impl Page {
    /// No bytes.
    pub(crate) fn new() -> Page
        ensures { result ≡ [] }
    {
        Page {
            bytes: [0; PAGE_MAX],
            len: 0,
        }
    }

    /// The bytes.
    pub(crate) fn bytes(&self) -> &[u8]
        ensures { result.now ≡ self.now }
    {
        &self.bytes[..self.len]
    }

    /// How many more bytes have room.
    pub(crate) fn room(&self) -> usize
        ensures { result ≡ PAGE_MAX - length self.now }
    {
        PAGE_MAX - self.len
    }

    /// Takes more bytes, for which there is room.
    pub(crate) fn append(&mut self, more: &[u8])
        requires { length more.now ≤ PAGE_MAX - length self.old }
        ensures { self.new ≡ self.old ++ more.now }
    {
        copy_to(&mut self.bytes, self.len, more);
        self.len += more.len();
    }

    /// Gives up all bytes.
    pub(crate) fn clear(&mut self)
        ensures { self.new ≡ [] }
    {
        self.len = 0;
    }
}
