//! Telegrams.
ghost use Rattle.std.specs.Prelude.{◌≡◌, ◌<◌, ◌≤◌, ◌+◌, ◌↔◌, length, take, drop, slice_index, replicate, ◌∷◌, IsSome, IfSome};
ghost use Rattle.frame_formats.specs.Crc.{IsBytes};

use std::marker::Model;

// The first bytes, which are bytes.
fn front_of(bytes: &[u8], len: usize) -> &[u8]
    requires { len ≤ length bytes.now }
    ensures front { result.now ≡ take len bytes.now }
    ensures each { IsBytes result.now }
{
    let (front, _) = bytes.split_at(len);
    front
}

/// The bytes of a telegram, L, C, M, A, CI and all that follows, without CRCs: 11 to 256 bytes, of which the first, L,
/// counts those behind it.
#[derive(Drop)]
pub struct Telegram {
    pub(crate) bytes: [u8; 256],
    pub(crate) len: u16,
}

impl Model for Telegram {
    ghost use Rattle.std.specs.Prelude.{ℕ, ◌≡◌, ◌+◌, ◌≤◌, List, take, slice_index};

    ghost Value = { List ℕ };

    ghost view = { λ t. take t.len t.bytes };

    ghost invariant = { λ t. (11 ≤ t.len) × (t.len ≤ 256) × (slice_index t.bytes 0 + 1 ≡ t.len) };
}

impl Telegram {
    ghost use Rattle.frame_formats.specs.Crc.{IsBytes};
    ghost use Rattle.frame_formats.specs.Frames.{IsTelegram};

    /// The shortest telegram, zeros behind its length: a start value for a decoder.
    pub fn shortest() -> Telegram
        ensures { result ≡ 10 ∷ replicate 10 0 }
    {
        let mut bytes = [0; 256];
        bytes[0] = 10;
        Telegram { bytes, len: 11 }
    }

    /// The telegram of these bytes, none where they are no telegram.
    pub fn from_bytes(bytes: &[u8]) -> Option<Telegram>
        ensures exactly { IsSome result ↔ IsTelegram bytes.now }
        ensures same { IfSome result (λ t. t ≡ bytes.now) }
    {
        let len = bytes.len();
        if len < 11 || 256 < len || bytes[0] as usize + 1 != len {
            return None;
        }
        let mut telegram = [0; 256];
        telegram[..len].copy_from_slice(bytes);
        Some(Telegram {
            bytes: telegram,
            len: len as u16,
        })
    }

    /// All bytes.
    pub fn bytes(&self) -> &[u8]
        ensures bytes { result.now ≡ self.now }
        ensures telegram { IsTelegram self.now }
        ensures each { IsBytes self.now }
    {
        front_of(&self.bytes, self.len as usize)
    }

    /// The C field.
    pub fn control(&self) -> u8
        ensures { result ≡ slice_index self.now 1 }
    {
        self.bytes[1]
    }

    /// The link address: M in two bytes and A in six, as they are sent.
    pub fn link_address_bytes(&self) -> [u8; 8]
        ensures { result ≡ take 8 (drop 2 self.now) }
    {
        let (_, from_manufacturer) = self.bytes().split_at(2);
        let mut address = [0; 8];
        address.copy_from_slice(&from_manufacturer[..8]);
        address
    }

    /// The same telegram again.
    pub fn copied(&self) -> Telegram
        ensures { result ≡ self.now }
    {
        Telegram {
            bytes: self.bytes,
            len: self.len,
        }
    }
}
