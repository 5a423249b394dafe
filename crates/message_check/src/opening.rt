//! What both security modes have in common: the header, its encrypted blocks, and the answer.
ghost use Rattle.std.specs.Prelude.{◌≡◌, ◌+◌, ◌-◌, ◌*◌, ◌≤◌, [], ◌++◌, length, take, drop, IfOk, OnOk, OnErr};
ghost use Rattle.frame_formats.specs.Crc.{IsBytes};
ghost use Rattle.tpl_headers.specs.Configuration.{blocks_of};
ghost use Rattle.cbc_cmac.specs.Cbc.{cbc_decrypted};
ghost use Rattle.message_check.specs.Opening.{encrypted_of, rest_of, header_in, address_passed, mode_passed, header_for, blocks_passed};

use crate::refusal::Reason;
use aes_block::Keys;
use afl_layer::Scratch;
use cbc_cmac::cbc_decrypt_in_place;
use ell_layer::Access;
use meter_address::Address;
use tpl_headers::{Tpl, read_tpl};

/// A message that was checked and decrypted.
#[derive(Clone, Copy)]
pub struct Opened {
    /// The number that counts the meter's messages: the message counter in mode 7, the access number in mode 5.
    pub counter: u32,
    /// The place at which the payload begins. It goes to the message's end.
    pub from: usize,
    /// When the meter listens, as the configuration field of mode 5 says; in mode 7 the message doesn't say it, and this
    /// is none.
    pub access: Access,
}

// The header with which the message begins.
fn read_header(message: &[u8]) -> Result<Tpl, Reason>
    ensures exact { result ≡ header_in message.now }
    ensures within { IfOk result (λ h. h.len ≤ length message.now) }
    ensures bytes { IsBytes message.now }
{
    read_tpl(message).map_err(Reason::BadMessage)
}

// Whether the header names no other meter.
fn check_address(address: Address, tpl: &Tpl) -> Result<(), Reason>
    ensures { result ≡ address_passed address tpl.now.address }
{
    match tpl.address {
        Some(found) if found != address => Err(Reason::OtherAddress(found)),
        _ => Ok(()),
    }
}

// Whether the message is in this security mode.
fn check_mode(wanted: u8, tpl: &Tpl) -> Result<(), Reason>
    ensures { result ≡ mode_passed wanted tpl.now.cf }
{
    let found = tpl.mode();
    if found == wanted {
        Ok(())
    } else {
        Err(Reason::Mode { found, wanted })
    }
}

// The header of a message to this meter in this security mode.
#[tactic(auto, unfolding(crate::specs::Opening::header_for))]
pub(crate) fn read_header_for(address: Address, mode: u8, message: &[u8]) -> Result<Tpl, Reason>
    ensures exact { result ≡ header_for address mode message.now }
    ensures within { IfOk result (λ h. h.len ≤ length message.now) }
    ensures bytes { IsBytes message.now }
{
    let tpl = read_header(message)?;
    check_address(address, &tpl)?;
    check_mode(mode, &tpl)?;
    Ok(tpl)
}

// Whether the blocks that the header says are there.
pub(crate) fn check_blocks(tpl: &Tpl, message: &[u8]) -> Result<(), Reason>
    requires { tpl.now.len ≤ length message.now }
    ensures exact { result ≡ blocks_passed tpl.now message.now }
    ensures enough { OnOk result (tpl.now.len + 16 * blocks_of tpl.now.cf ≤ length message.now) }
{
    let want = 16 * tpl.blocks() as usize;
    let have = message.len() - tpl.len;
    if have < want {
        return Err(Reason::ShortBlocks { want, have });
    }
    Ok(())
}

// Decrypts the blocks behind the header in place.
pub(crate) fn decrypt(keys: &Keys, iv: &[u8; 16], tpl: &Tpl, message: &mut [u8])
    requires { tpl.now.len + 16 * blocks_of tpl.now.cf ≤ length message.old }
    ensures payload { drop tpl.now.len message.new
        ≡ cbc_decrypted keys.now iv.now (encrypted_of tpl.now message.old) ++ rest_of tpl.now message.old }
    ensures front { take tpl.now.len message.new ≡ take tpl.now.len message.old }
    ensures long { length (cbc_decrypted keys.now iv.now (encrypted_of tpl.now message.old)) ≡ 16 * blocks_of tpl.now.cf }
{
    let end = tpl.len + 16 * tpl.blocks() as usize;
    cbc_decrypt_in_place(keys, iv, &mut message[tpl.len..end]);
}

// Empties the message where it was refused.
pub(crate) fn emptied_if_refused(
    answer: Result<Opened, Reason>,
    message: &mut Scratch,
) -> Result<Opened, Reason>
    ensures same { result ≡ answer }
    ensures kept { OnOk result (message.new ≡ message.old) }
    ensures emptied { OnErr result (message.new ≡ []) }
{
    match answer {
        Ok(opened) => Ok(opened),
        Err(reason) => {
            message.clear();
            Err(reason)
        }
    }
}
