//! Format A: a block of 10 bytes, then blocks of 16, each with its CRC.
ghost use Rattle.std.specs.Prelude.{◌≡◌, ◌≤◌, ◌<◌, ◌+◌, ◌-◌, ◌*◌, ◌/◌, ◌++◌, List, ℕ, length};
ghost use Rattle.std.specs.Prelude.{take, drop, slice_index, Ok, Err, OnOk, MatchResult};
ghost use Rattle.std.specs.List.{flat_map};
ghost use Rattle.frame_formats.specs.Frames.{FrameA};
ghost use Rattle.frame_formats.specs.Decodes.{Decodes};
ghost use Rattle.frame_formats.specs.Decoding.{cut, content_of, frame_len, pieces_a, decoded_a, frame_a, with_crc};

use crate::blocks::{checked_block, put_with_crc};
use crate::format::{Format, decode};
use crate::{FrameFault, Telegram};
use lists::put;

// Fills `into` from the blocks behind the first, each with its CRC.
#[tactic(auto, using(crate::proofs::Reading::fault, crate::proofs::Reading::finished))]
fn read_others(bytes: &[u8], into: &mut [u8]) -> Result<(), FrameFault>
    requires { length bytes.now ≡ length into.old + 2 * ((length into.old + 15) / 16) }
    ensures { let pieces = cut ((length into.old + 15) / 16) 18 bytes.now in
        MatchResult result (λ _. content_of 2 pieces ≡ Ok into.new) (λ e. content_of 2 pieces ≡ Err e) }
{
    let mut rest = bytes;
    let mut len = 0;
    let mut number = 2;
    while len < into.len() {
        let size = (into.len() - len).min(16);
        let (piece, after) = rest.split_at(size + 2);
        let block = checked_block(piece, number)?;
        put(into, len, block);
        len += size;
        number += 1;
        rest = after;
    }
    Ok(())
}

// Fills `into` from all blocks, each with its CRC.
#[tactic(auto, using(crate::proofs::Reading::front_fault))]
fn read_blocks(bytes: &[u8], into: &mut [u8]) -> Result<(), FrameFault>
    requires more { 10 < length into.old }
    requires whole { length bytes.now ≡ 12 + (length into.old - 10) + 2 * ((length into.old - 10 + 15) / 16) }
    ensures read { MatchResult result
        (λ _. content_of 1 (pieces_a bytes.now) ≡ Ok into.new) (λ e. content_of 1 (pieces_a bytes.now) ≡ Err e) }
    ensures head { OnOk result (slice_index into.new 0 ≡ slice_index bytes.now 0) }
{
    let (front, rest) = bytes.split_at(12);
    let first = checked_block(front, 1)?;
    put(into, 0, first);
    read_others(rest, &mut into[10..])?;
    Ok(())
}

// The telegram of as many bytes as its first one says.
pub(crate) fn read_telegram_a(bytes: &[u8]) -> Result<Telegram, FrameFault>
    requires counted { 10 ≤ slice_index bytes.now 0 }
    requires whole { length bytes.now ≡ frame_len (slice_index bytes.now 0) }
    ensures { MatchResult result
        (λ t. content_of 1 (pieces_a bytes.now) ≡ Ok t) (λ e. content_of 1 (pieces_a bytes.now) ≡ Err e) }
{
    let len = bytes[0] as usize + 1;
    let mut telegram = [0; 256];
    read_blocks(bytes, &mut telegram[..len])?;
    Ok(Telegram {
        bytes: telegram,
        len: len as u16,
    })
}

/// Reads a frame of format A (EN 13757-4), as `decode` does.
pub fn decode_a(bytes: &[u8], out: &mut Telegram) -> Result<(), FrameFault>
    ensures decodes { Decodes Format.A bytes.now out.old out.new result }
    ensures exact { MatchResult result (λ _. decoded_a bytes.now ≡ Ok out.new) (λ e. decoded_a bytes.now ≡ Err e) }
{
    decode(Format::A, bytes, out)
}

// Writes the blocks behind the first, and answers the place behind them.
fn put_others(out: &mut [u8], at: usize, bytes: &[u8]) -> usize
    requires { at + length bytes.now + 2 * ((length bytes.now + 15) / 16) ≤ length out.old }
    ensures end { result ≡ at + length bytes.now + 2 * ((length bytes.now + 15) / 16) }
    ensures written { take result out.new
        ≡ take at out.old ++ flat_map with_crc (cut ((length bytes.now + 15) / 16) 16 bytes.now) }
    ensures behind { drop result out.new ≡ drop result out.old }
{
    let mut end = at;
    let mut rest = bytes;
    'cutting: while !rest.is_empty() {
        let (block, after) = rest.split_at(rest.len().min(16));
        end = put_with_crc(out, end, block);
        rest = after;
    }
    end
}

/// Writes the one frame of format A of a telegram (EN 13757-4), and answers its length.
#[tactic(auto, using(lists::proofs::Puts::behind_both))]
pub fn encode_a(telegram: &Telegram, out: &mut [u8; 290]) -> usize
    ensures len { result ≡ frame_len (length telegram.now - 1) }
    ensures written { take result out.new ≡ frame_a telegram.now }
    ensures frame { FrameA (take result out.new) telegram.now }

    // What stands behind the frame stays.
    ensures behind { drop result out.new ≡ drop result out.old }
{
    let (first, others) = telegram.bytes().split_at(10);
    let end = put_with_crc(out, 0, first);
    put_others(out, end, others)
}
