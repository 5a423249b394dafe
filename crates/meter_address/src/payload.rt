//! The payload of a command.
ghost use Rattle.std.specs.Prelude.{◌≡◌, ◌≤◌, ◌↔◌, length, IsSome, IfSome};

use std::marker::Model;

/// The most bytes that a command's payload has.
pub const PAYLOAD_MAX: usize = 94;

/// The payload of a command: 1 to 94 bytes. What stands in the array behind them counts nowhere.
#[derive(Drop)]
pub struct Payload {
    bytes: [u8; PAYLOAD_MAX],
    len: usize,
}

impl Model for Payload {
    ghost use Rattle.std.specs.Prelude.{ℕ, ◌≤◌, List, take};
    ghost use Rattle.meter_address.specs.declared.payload.TheConstants.{PAYLOAD_MAX};

    ghost Value = { List ℕ };

    ghost view = { λ p. take p.len p.bytes };

    ghost invariant = { λ p. (1 ≤ p.len) × (p.len ≤ PAYLOAD_MAX) };
}

impl Payload {
    /// The payload with these bytes, where they are 1 to 94.
    pub fn new(bytes: &[u8]) -> Option<Payload>
        ensures found { IsSome result ↔ ((1 ≤ length bytes.now) × (length bytes.now ≤ 94)) }
        ensures value { IfSome result (λ payload. payload ≡ bytes.now) }
    {
        if bytes.is_empty() || bytes.len() > PAYLOAD_MAX {
            return None;
        }
        let mut kept = [0; PAYLOAD_MAX];
        kept[..bytes.len()].copy_from_slice(bytes);
        Some(Payload {
            bytes: kept,
            len: bytes.len(),
        })
    }

    /// The bytes.
    pub fn bytes(&self) -> &[u8]
        ensures bytes { result.now ≡ self.now }
        ensures least { 1 ≤ length self.now }
        ensures most { length self.now ≤ 94 }
    {
        &self.bytes[..self.len]
    }

    /// The same payload again.
    pub fn copied(&self) -> Payload
        ensures { result ≡ self.now }
    {
        Payload {
            bytes: self.bytes,
            len: self.len,
        }
    }
}
