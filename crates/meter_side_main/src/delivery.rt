//! What is delivered to a meter, and what it executes.
ghost use Rattle.std.specs.Prelude.{◌≡◌, ◌≤◌, ◌<◌, ◌↔◌, length, IsSome, IfSome};
ghost use Rattle.std.specs.Prelude.{take};
ghost use Rattle.frame_formats.specs.Crc.{IsBytes};

use std::marker::Model;

// The first bytes, which are bytes.
fn front_of(bytes: &[u8], len: usize) -> &[u8]
    requires { len ≤ length bytes.now }
    ensures front { result.now ≡ take len bytes.now }
    ensures each { IsBytes result.now }
{
    let (front, _) = bytes.split_at(len);
    front
}

/// The most bytes that are delivered: a frame of format A has no more.
pub const DELIVERY_MAX: usize = 290;

/// The most bytes of a content: six blocks less two check bytes.
pub const CONTENT_MAX: usize = 94;

/// What is delivered to a meter: at most 290 bytes. What stands in the array behind them counts nowhere.
#[derive(Drop)]
pub struct Delivery {
    bytes: [u8; DELIVERY_MAX],
    len: usize,
}

impl Model for Delivery {
    ghost use Rattle.std.specs.Prelude.{ℕ, ◌≤◌, List, take};
    ghost use Rattle.meter_side_main.specs.declared.delivery.TheConstants.{DELIVERY_MAX};

    ghost Value = { List ℕ };

    ghost view = { λ d. take d.len d.bytes };

    ghost invariant = { λ d. d.len ≤ DELIVERY_MAX };
}

impl Delivery {
    /// These bytes, delivered: none exactly where there are more than 290.
    pub fn new(bytes: &[u8]) -> Option<Delivery>
        ensures found { IsSome result ↔ (length bytes.now ≤ 290) }
        ensures value { IfSome result (λ delivery. delivery ≡ bytes.now) }
    {
        if bytes.len() > DELIVERY_MAX {
            return None;
        }
        let mut kept = [0; DELIVERY_MAX];
        kept[..bytes.len()].copy_from_slice(bytes);
        Some(Delivery {
            bytes: kept,
            len: bytes.len(),
        })
    }

    /// The bytes.
    pub fn bytes(&self) -> &[u8]
        ensures bytes { result.now ≡ self.now }
        ensures most { length self.now ≤ 290 }
        ensures each { IsBytes self.now }
    {
        front_of(&self.bytes, self.len)
    }
}

/// What a meter is told by a downlink: the decrypted message behind its two check bytes, that is a payload and its fillers. What
/// stands in the array behind its bytes counts nowhere.
#[derive(Drop)]
pub struct Content {
    bytes: [u8; CONTENT_MAX],
    len: u8,
}

impl Model for Content {
    ghost use Rattle.std.specs.Prelude.{ℕ, ◌≤◌, List, take};
    ghost use Rattle.meter_side_main.specs.declared.delivery.TheConstants.{CONTENT_MAX};

    ghost Value = { List ℕ };

    ghost view = { λ c. take c.len c.bytes };

    ghost invariant = { λ c. c.len ≤ CONTENT_MAX };
}

impl Content {
    // The content with these bytes.
    pub(crate) fn of(bytes: &[u8]) -> Content
        requires { length bytes.now ≤ 94 }
        ensures { result ≡ bytes.now }
    {
        let mut kept = [0; CONTENT_MAX];
        kept[..bytes.len()].copy_from_slice(bytes);
        Content {
            bytes: kept,
            len: bytes.len() as u8,
        }
    }

    /// The bytes.
    pub fn bytes(&self) -> &[u8]
        ensures bytes { result.now ≡ self.now }
        ensures most { length self.now ≤ 94 }
    {
        &self.bytes[..self.len as usize]
    }

    /// The same content again.
    pub fn copied(&self) -> Content
        ensures { result ≡ self.now }
    {
        Content {
            bytes: self.bytes,
            len: self.len,
        }
    }
}

/// A command that a meter executes: the counter of its downlink, and its content.
#[derive(Drop)]
pub struct Executed {
    /// The counter.
    pub down: u32,
    /// The content.
    pub content: Content,
}

impl Executed {
    /// The same again.
    pub fn copied(&self) -> Executed
        ensures { result ≡ self.now }
    {
        Executed {
            down: self.down,
            content: self.content.copied(),
        }
    }
}
