//! Messages of security mode 5 (OMS Volume 2): AES-128-CBC under the meter's key, checked by two bytes.
ghost use Rattle.std.specs.Prelude.{◌≡◌, ◌+◌, ◌*◌, ◌^◌, ◌<◌, ◌≤◌, ◌++◌, length, take, drop, replicate, Ok, Err, IfOk, IfErr};
ghost use Rattle.frame_formats.specs.Crc.{IsBytes};
ghost use Rattle.meter_address.specs.Address.{bytes_of};
ghost use Rattle.tpl_headers.specs.Configuration.{blocks_of};
ghost use Rattle.message_check.specs.Opening.{initialization_vector, decrypted5, rest_of, Checked5, some_passed};
ghost use Rattle.message_check.specs.Opening.{check_bytes_passed, access_number_passed, opened5_after};
ghost use Rattle.message_check.specs.Keys.{keys_of};
ghost use Rattle.message_check.specs.Opened.{found_in, Opens, Says};
ghost use Rattle.message_check.specs.Refusals.{Refusal5};
ghost use Rattle.message_check.specs.declared.refusal.Reason.{Reason};

use crate::keys::MeterKeys;
use crate::opening::{Opened, check_blocks, decrypt, emptied_if_refused, read_header_for};
use crate::refusal::Reason;
use aes_block::Keys;
use afl_layer::Scratch;
use ell_layer::Access;
use meter_address::{Address, Commission, Mode};
use tpl_headers::Tpl;

// What CBC begins with: the meter's address, and eight times the access number.
fn first_block(address: Address, acc: u8) -> [u8; 16]
    ensures { result ≡ initialization_vector address acc }
{
    let mut iv = [acc; 16];
    iv[..8].copy_from_slice(&address.to_bytes());
    iv
}

// Whether some block is encrypted.
fn check_some_block(tpl: &Tpl) -> Result<(), Reason>
    ensures exact { result ≡ some_passed tpl.now.cf }
    ensures some { IfOk result (λ _. 0 < blocks_of tpl.now.cf) }
{
    if tpl.blocks() == 0 {
        return Err(Reason::Unchecked);
    }
    Ok(())
}

// Whether the decrypted bytes begin with the two check bytes.
fn check_bytes(decrypted: &[u8]) -> Result<(), Reason>
    requires { 2 ≤ length decrypted.now }
    ensures { result ≡ check_bytes_passed decrypted.now }
{
    let two = [decrypted[0], decrypted[1]];
    if two != [0x2F, 0x2F] {
        return Err(Reason::CheckBytes(two));
    }
    Ok(())
}

// Whether the access number isn't the last one.
fn check_access_number(last: Option<u32>, acc: u8) -> Result<(), Reason>
    ensures { result ≡ access_number_passed last acc }
{
    match last {
        Some(last) if last == u32::from(acc) => Err(Reason::SameAccess(acc)),
        _ => Ok(()),
    }
}

// Decrypts the blocks behind the header in place.
#[tactic(auto, unfolding(crate::specs::Opening::decrypted5))]
fn decrypt_for(keys: &Keys, commission: &Commission, tpl: &Tpl, message: &mut [u8])
    requires key { keys.now ≡ commission.now.key }
    requires blocks { tpl.now.len + 16 * blocks_of tpl.now.cf ≤ length message.old }
    ensures payload { drop tpl.now.len message.new ≡ decrypted5 commission.now tpl.now message.old ++ rest_of tpl.now message.old }
    ensures front { take tpl.now.len message.new ≡ take tpl.now.len message.old }
    ensures long { length (decrypted5 commission.now tpl.now message.old) ≡ 16 * blocks_of tpl.now.cf }
{
    let iv = first_block(commission.address, tpl.acc);
    decrypt(keys, &iv, tpl, message);
}

// What a message says after another, or the first refusal.
fn open_message(
    keys: &Keys,
    commission: &Commission,
    last: Option<u32>,
    message: &mut [u8],
) -> Result<Opened, Reason>
    requires { keys.now ≡ commission.now.key }
    ensures bytes { IsBytes message.old }
    ensures opened { IfOk result (λ o. opened5_after last commission.now message.old ≡ Ok (found_in message.new o)) }
    ensures within { IfOk result (λ o. o.from ≤ length message.new) }
    ensures front { IfOk result (λ o. take o.from message.new ≡ take o.from message.old) }
    ensures number { IfOk result (λ o. o.counter < 2 ^ 8) }
    ensures refused { IfErr result (λ r. opened5_after last commission.now message.old ≡ Err r) }
{
    let tpl = read_header_for(commission.address, 5, message)?;
    check_blocks(&tpl, message)?;
    check_some_block(&tpl)?;
    decrypt_for(keys, commission, &tpl, message);
    let (_, payload) = message.split_at(tpl.len);
    check_bytes(payload)?;
    check_access_number(last, tpl.acc)?;
    Ok(Opened {
        counter: u32::from(tpl.acc),
        from: tpl.len,
        access: Access::from_bits(tpl.is_bidirectional(), tpl.is_accessible()),
    })
}

/// The same as `open5`, with the meter's keys made ready beforehand, which have to be those of the commission.
pub fn open5_with_keys(
    keys: &MeterKeys,
    commission: &Commission,
    last: Option<u32>,
    message: &mut Scratch,
) -> Result<Opened, Reason>
    requires keys { keys.now ≡ keys_of commission.now }
    requires mode { commission.now.mode ≡ Mode.Five }

    // What is opened is a checked message, and what is refused has the cause that its reason names.
    ensures opens { Opens message.old message.new result
        (Checked5 commission.now message.old) (Refusal5 last commission.now message.old) }

    // An access number is one byte.
    ensures number { IfOk result (λ o. o.counter < 2 ^ 8) }

    // All of it as one function of the message.
    ensures exact { Says message.new result (opened5_after last commission.now message.old) }
{
    let answer = open_message(keys.first().keys(), commission, last, message.bytes_mut());
    emptied_if_refused(answer, message)
}

/// Checks a message of security mode 5, which begins with its transport header, and decrypts it in place under the
/// meter's key: the message becomes its payload, behind the header. `last` is the meter's last stored access number. A
/// refusal is the first that applies of `BadMessage`, `OtherAddress`, `Mode`, `ShortBlocks`, `Unchecked`, `CheckBytes`
/// and `SameAccess`, and empties the message. The meter has to be commissioned in mode 5.
pub fn open5(
    commission: &Commission,
    last: Option<u32>,
    message: &mut Scratch,
) -> Result<Opened, Reason>
    requires { commission.now.mode ≡ Mode.Five }

    // What is opened is a checked message, and what is refused has the cause that its reason names.
    ensures opens { Opens message.old message.new result
        (Checked5 commission.now message.old) (Refusal5 last commission.now message.old) }

    // An access number is one byte.
    ensures number { IfOk result (λ o. o.counter < 2 ^ 8) }

    // All of it as one function of the message.
    ensures exact { Says message.new result (opened5_after last commission.now message.old) }
{
    let keys = MeterKeys::new(commission);
    open5_with_keys(&keys, commission, last, message)
}
