//! What a meter's messages say.
use outer_io::Memory;
use std::alloc::Global;
use std::marker::Model;

// What a message of one block says takes no memory of its own.
const FEW_MAX: usize = 32;

// So few bytes that they stand within the value.
#[derive(Drop)]
struct Few {
    bytes: [u8; FEW_MAX],
    count: u8,
}

impl Model for Few {
    ghost use Rattle.std.specs.Prelude.{ℕ, ◌≤◌, List, take};

    ghost Value = { List ℕ };

    ghost view = { λ f. take f.count f.bytes };

    ghost invariant = { λ f. f.count ≤ 32 };
}

impl Few {
    ghost use Rattle.std.specs.Prelude.{◌≡◌, ◌≤◌, length};

    // These.
    fn copied(from: &[u8]) -> Few
        requires { length from.now ≤ 32 }
        ensures { result ≡ from.now }
    {
        let mut bytes = [0; FEW_MAX];
        bytes[..from.len()].copy_from_slice(from);
        Few {
            bytes,
            count: from.len() as u8,
        }
    }

    // The bytes.
    fn bytes(&self) -> &[u8]
        ensures { result.now ≡ self.now }
    {
        &self.bytes[..self.count as usize]
    }
}

// Where bytes are kept: in the value, or in memory of their own.
#[derive(Drop)]
enum Store {
    Within(Few),
    Apart(Vec<u8>),
}

/// Bytes that are kept, at most 4,096: a message has no more.
#[derive(Drop)]
pub struct Bytes {
    store: Store,
}

impl Model for Bytes {
    ghost use Rattle.std.specs.Prelude.{ℕ, ◌≤◌, List, length};
    ghost use Rattle.meter_slots.specs.Storing.{stored_bytes};

    ghost Value = { List ℕ };

    ghost view = { λ b. stored_bytes b.store };

    ghost invariant = { λ b. length (stored_bytes b.store) ≤ 4096 };
}

impl Bytes {
    ghost use Rattle.std.specs.Prelude.{◌≡◌, ◌≤◌, length};

    /// The bytes.
    pub fn bytes(&self) -> &[u8]
        ensures bytes { result.now ≡ self.now }
        ensures most { length self.now ≤ 4096 }
    {
        match &self.store {
            Store::Within(few) => few.bytes(),
            Store::Apart(bytes) => bytes.as_slice(),
        }
    }
}

/// Room for bytes that are to be kept. A contract sees how many there may be: few of them need no memory of their own.
#[derive(Drop)]
pub(crate) struct Room {
    apart: Vec<u8>,
}

impl Model for Room {
    ghost use Rattle.std.specs.Prelude.{ℕ, ◌≡◌, max, [], vec_capacity};

    ghost Value = { ℕ };

    ghost view = { λ r. max 32 (vec_capacity r.apart) };

    ghost invariant = { λ r. r.apart.items ≡ [] };
}

impl Room {
    ghost use Rattle.std.specs.Prelude.{◌≡◌, ◌≤◌, length, IfOk};

    /// Room for so many.
    pub(crate) fn with_capacity(alloc: Global, capacity: usize) -> Result<Room, Memory>
        ensures { IfOk result (λ room. capacity ≤ room) }
    {
        let mut apart = Vec::new(alloc);
        if FEW_MAX < capacity {
            apart.reserve_exact(capacity)?;
        }
        Ok(Room { apart })
    }

    /// The bytes, kept in it.
    pub(crate) fn fill(self, bytes: &[u8]) -> Bytes
        requires fits { length bytes.now ≤ self }
        requires most { length bytes.now ≤ 4096 }
        ensures { result ≡ bytes.now }
    {
        let Room { mut apart } = self;
        if bytes.len() <= FEW_MAX {
            return Bytes {
                store: Store::Within(Few::copied(bytes)),
            };
        }
        apart.extend_from_slice(bytes).unwrap();
        Bytes {
            store: Store::Apart(apart),
        }
    }
}

/// The reading of a stored message.
#[derive(Drop)]
pub struct Reading {
    /// The moment at which the telegram was heard that completed the message, in the receiver's own unit.
    pub at: u64,
    /// The message counter in mode 7, the access number in mode 5.
    pub counter: u32,
    /// What the message says: its decrypted blocks and the plain rest (EN 13757-3 data records).
    pub payload: Bytes,
}
