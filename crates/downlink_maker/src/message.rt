//! A downlink's message in security mode 7 (OMS Volume 2): its encrypted content, and its MAC.
ghost use Rattle.std.specs.Prelude.{◌≡◌, ◌+◌, ◌*◌, ◌≤◌, ◌++◌, ℕ, List, length, take, drop};
ghost use Rattle.meter_address.specs.declared.payload.TheConstants.{PAYLOAD_MAX};
ghost use Rattle.downlink_maker.specs.Downlink.{blocks_for, plain_content, encrypted_content, message_bytes, mac_of};

use crate::layers::MESSAGE_CONTROL;
use aes_block::Keys;
use cbc_cmac::{cbc_encrypt_in_place, cmac_of_pieces};
use key_derivation::{KeyUse, derive};
use meter_address::{Commission, PAYLOAD_MAX};

// The most bytes of a content.
pub(crate) const CONTENT_MAX: usize = 96;

// A check byte, and a byte that fills the last block.
const FILLER: u8 = 0x2F;

// The least number of blocks that two check bytes and this payload fit in.
pub(crate) fn block_count(payload: &[u8]) -> u8
    requires { length payload.now ≤ PAYLOAD_MAX }
    ensures count { result ≡ blocks_for (length payload.now) }
    ensures most { result ≤ 6 }
{
    ((payload.len() + 2 + 15) / 16) as u8
}

// Writes bytes behind the first two.
fn put_behind_two(content: &mut [u8], bytes: &[u8])
    requires { 2 + length bytes.now ≤ length content.old }
    ensures { content.new ≡ take 2 content.old ++ bytes.now ++ drop (2 + length bytes.now) content.old }
{
    content[2..2 + bytes.len()].copy_from_slice(bytes);
}

// The content in plain.
fn plain(payload: &[u8]) -> [u8; CONTENT_MAX]
    requires { length payload.now ≤ PAYLOAD_MAX }
    ensures { take (16 * blocks_for (length payload.now)) result ≡ plain_content payload.now }
{
    let mut content = [FILLER; CONTENT_MAX];
    put_behind_two(&mut content, payload);
    content
}

// The encrypted content.
#[tactic(auto, unfolding(crate::specs::Downlink::encrypted_content))]
pub(crate) fn encrypted(commission: &Commission, down: u32, payload: &[u8]) -> [u8; CONTENT_MAX]
    requires { length payload.now ≤ PAYLOAD_MAX }
    ensures { take (16 * blocks_for (length payload.now)) result ≡ encrypted_content commission.now down payload.now }
{
    let id = commission.address.identification();
    let key = derive(&commission.key, KeyUse::PartnerCipher, down, id);
    let len = 16 * block_count(payload) as usize;
    let mut content = plain(payload);
    cbc_encrypt_in_place(&Keys::new(&key), &[0; 16], &mut content[..len]);
    content
}

// The MAC of the message with this header and content.
#[tactic(auto, unfolding(crate::specs::Downlink::message_bytes, crate::specs::Downlink::mac_of))]
pub(crate) fn mac(commission: &Commission, down: u32, header: &[u8], content: &[u8]) -> [u8; 8]
    ensures { (payload : List ℕ) → header.now ++ content.now ≡ message_bytes commission.now down payload
        → result ≡ mac_of commission.now down payload }
{
    let id = commission.address.identification();
    let key = derive(&commission.key, KeyUse::PartnerMac, down, id);
    let counter = down.to_le_bytes();
    let whole = cmac_of_pieces(
        &Keys::new(&key),
        &[&[MESSAGE_CONTROL], &counter, header, content],
    );
    let mut mac = [0; 8];
    mac.copy_from_slice(&whole[..8]);
    mac
}
