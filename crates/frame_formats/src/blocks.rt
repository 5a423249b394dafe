//! Blocks and their CRCs.
ghost use Rattle.std.specs.Prelude.{◌≡◌, ◌≤◌, ◌+◌, ◌-◌, ◌++◌, length, take, drop, Ok, Err, IfOk, MatchResult};
ghost use Rattle.frame_formats.specs.Decoding.{block_of, with_crc};

use crate::FrameFault;
use crate::crc16::crc;
use lists::put;

/// The block of the piece with this number: what stands before its last two bytes, where these are its CRC.
#[tactic(auto, unfolding(crate::specs::Decoding::block_of))]
pub(crate) fn checked_block(piece: &[u8], number: usize) -> Result<&[u8], FrameFault>
    requires { 2 ≤ length piece.now }
    ensures read { MatchResult result
        (λ b. block_of number piece.now ≡ Ok b.now) (λ e. block_of number piece.now ≡ Err e) }
    ensures front { IfOk result (λ b. b.now ≡ take (length piece.now - 2) piece.now) }
    ensures len { IfOk result (λ b. length b.now + 2 ≡ length piece.now) }
{
    let (block, check) = piece.split_at(piece.len() - 2);
    if crc(block) == u16::from_be_bytes([check[0], check[1]]) {
        Ok(block)
    } else {
        Err(FrameFault::Crc(number))
    }
}

/// Writes a block and its CRC at this place, and answers the place behind them.
#[tactic(auto, using(lists::proofs::Puts::behind_both))]
pub(crate) fn put_with_crc(out: &mut [u8], at: usize, block: &[u8]) -> usize
    requires { at + length block.now + 2 ≤ length out.old }
    ensures end { result ≡ at + length block.now + 2 }
    ensures written { take result out.new ≡ take at out.old ++ with_crc block.now }
    ensures behind { drop result out.new ≡ drop result out.old }
{
    let end = put(out, at, block);
    put(out, end, &crc(block).to_be_bytes())
}
