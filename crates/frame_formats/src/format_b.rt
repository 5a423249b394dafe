//! Format B: one block or two, each with its CRC. L counts the CRCs too.
ghost use Rattle.std.specs.Prelude.{◌≡◌, ◌≤◌, ◌<◌, ◌+◌, length, slice_index, Ok, Err, OnOk, MatchResult};
ghost use Rattle.frame_formats.specs.Decodes.{Decodes};
ghost use Rattle.frame_formats.specs.Decoding.{content_of, pieces_b, telegram_b, decoded_b};

use crate::blocks::checked_block;
use crate::format::{Format, decode};
use crate::{FrameFault, Telegram};
use lists::put;

// Fills `into` from one block with its CRC.
#[tactic(auto, using(crate::proofs::RelationB::one_read, crate::proofs::RelationB::one_fault))]
fn read_one(bytes: &[u8], into: &mut [u8]) -> Result<(), FrameFault>
    requires short { length bytes.now ≤ 128 }
    requires whole { length bytes.now ≡ length into.old + 2 }
    ensures { MatchResult result
        (λ _. content_of 1 (pieces_b bytes.now) ≡ Ok into.new) (λ e. content_of 1 (pieces_b bytes.now) ≡ Err e) }
{
    let block = checked_block(bytes, 1)?;
    into.copy_from_slice(block);
    Ok(())
}

// Fills `into` from two blocks, each with its CRC, of which the first has 126 bytes.
fn read_two(bytes: &[u8], into: &mut [u8]) -> Result<(), FrameFault>
    requires long { 131 ≤ length bytes.now }
    requires whole { length bytes.now ≡ length into.old + 4 }
    ensures { MatchResult result
        (λ _. content_of 1 (pieces_b bytes.now) ≡ Ok into.new) (λ e. content_of 1 (pieces_b bytes.now) ≡ Err e) }
{
    let (front, back) = bytes.split_at(128);
    let first = checked_block(front, 1)?;
    let second = checked_block(back, 2)?;
    put(into, 0, first);
    put(into, 126, second);
    Ok(())
}

// Fills `into` from all blocks, each with its CRC.
fn read_blocks(bytes: &[u8], into: &mut [u8]) -> Result<(), FrameFault>
    requires short { length bytes.now ≤ 128 → length bytes.now ≡ length into.old + 2 }
    requires long { 128 < length bytes.now → (131 ≤ length bytes.now) × (length bytes.now ≡ length into.old + 4) }
    ensures { MatchResult result
        (λ _. content_of 1 (pieces_b bytes.now) ≡ Ok into.new) (λ e. content_of 1 (pieces_b bytes.now) ≡ Err e) }
{
    if bytes.len() <= 128 {
        read_one(bytes, into)
    } else {
        read_two(bytes, into)
    }
}

// Fills `into` from all blocks, with its own length less one as the first byte.
#[tactic(auto, using(crate::proofs::RelationB::counted_is, crate::proofs::RelationB::counted_fault))]
fn read_counted(bytes: &[u8], into: &mut [u8]) -> Result<(), FrameFault>
    requires short { length bytes.now ≤ 128 → length bytes.now ≡ length into.old + 2 }
    requires long { 128 < length bytes.now → (131 ≤ length bytes.now) × (length bytes.now ≡ length into.old + 4) }
    requires some { 0 < length into.old }
    requires fits { length into.old ≤ 256 }
    ensures read { MatchResult result (λ _. telegram_b bytes.now ≡ Ok into.new) (λ e. telegram_b bytes.now ≡ Err e) }
    ensures head { OnOk result (slice_index into.new 0 + 1 ≡ length into.new) }
{
    read_blocks(bytes, into)?;
    into[0] = (into.len() - 1) as u8;
    Ok(())
}

// The telegram of as many bytes as its first one says.
pub(crate) fn read_telegram_b(bytes: &[u8]) -> Result<Telegram, FrameFault>
    requires least { 13 ≤ length bytes.now }
    requires most { length bytes.now ≤ 256 }
    requires no_gap { 128 < length bytes.now → 131 ≤ length bytes.now }
    ensures { MatchResult result (λ t. telegram_b bytes.now ≡ Ok t) (λ e. telegram_b bytes.now ≡ Err e) }
{
    let checks = if bytes.len() <= 128 { 2 } else { 4 };
    let len = bytes.len() - checks;
    let mut telegram = [0; 256];
    read_counted(bytes, &mut telegram[..len])?;
    Ok(Telegram {
        bytes: telegram,
        len: len as u16,
    })
}

/// Reads a frame of format B (EN 13757-4), as `decode` does.
pub fn decode_b(bytes: &[u8], out: &mut Telegram) -> Result<(), FrameFault>
    ensures decodes { Decodes Format.B bytes.now out.old out.new result }
    ensures exact { MatchResult result (λ _. decoded_b bytes.now ≡ Ok out.new) (λ e. decoded_b bytes.now ≡ Err e) }
{
    decode(Format::B, bytes, out)
}
