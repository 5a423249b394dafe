//! Messages of security mode 7 (OMS Volume 2): AES-128-CBC and a CMAC, under keys derived from the meter's key.
ghost use Rattle.std.specs.Prelude.{◌≡◌, ◌+◌, ◌*◌, ◌≤◌, ◌++◌, length, take, drop, Ok, Err, IfOk, IfErr};
ghost use Rattle.frame_formats.specs.Crc.{IsBytes};
ghost use Rattle.meter_address.specs.Address.{identification_of};
ghost use Rattle.tpl_headers.specs.Configuration.{blocks_of};
ghost use Rattle.key_derivation.specs.Derivation.{derived};
ghost use Rattle.message_check.specs.Opening.{decrypted7, rest_of, Genuine7, derivation_passed, counter_passed, opened7_after};
ghost use Rattle.message_check.specs.Keys.{key_of, keys_of};
ghost use Rattle.message_check.specs.Opened.{found_in, Opens, Says};
ghost use Rattle.message_check.specs.Refusals.{Refusal7};
ghost use Rattle.message_check.specs.declared.refusal.Reason.{Reason};

use crate::keys::MeterKeys;
use crate::opening::{Opened, check_blocks, decrypt, emptied_if_refused, read_header_for};
use crate::refusal::Reason;
use crate::signature::{check_mac, read_signature};
use aes_block::Keys;
use afl_layer::{Auth, Scratch};
use ell_layer::Access;
use key_derivation::KeyUse;
use meter_address::{Commission, Mode};
use tpl_headers::Tpl;

// Whether the keys are derived by CMAC.
fn check_derivation(tpl: &Tpl) -> Result<(), Reason>
    ensures { result ≡ derivation_passed tpl.now }
{
    let found = tpl.derivation().unwrap_or(0);
    if found != 1 {
        return Err(Reason::Kdf(found));
    }
    Ok(())
}

// Whether the counter is above the last one.
fn check_counter(last: Option<u32>, got: u32) -> Result<(), Reason>
    ensures { result ≡ counter_passed last got }
{
    match last {
        Some(last) if got <= last => Err(Reason::Stale { got, last }),
        _ => Ok(()),
    }
}

// The key that is derived for a use, from the meter's key for a message with this header.
fn derive(
    keys: &MeterKeys,
    commission: &Commission,
    tpl: &Tpl,
    purpose: KeyUse,
    counter: u32,
) -> [u8; 16]
    requires { keys.now ≡ keys_of commission.now }
    ensures { result ≡ derived (key_of commission.now tpl.now) purpose counter (identification_of commission.now.address) }
{
    let id = commission.address.identification();
    keys.of_message(tpl).derive(purpose, counter, id)
}

// Decrypts the blocks behind the header in place.
#[tactic(auto, unfolding(crate::specs::Opening::decrypted7))]
fn decrypt_for(cipher_key: &[u8; 16], tpl: &Tpl, message: &mut [u8])
    requires { tpl.now.len + 16 * blocks_of tpl.now.cf ≤ length message.old }
    ensures payload { drop tpl.now.len message.new ≡ decrypted7 cipher_key.now tpl.now message.old ++ rest_of tpl.now message.old }
    ensures front { take tpl.now.len message.new ≡ take tpl.now.len message.old }
{
    decrypt(&Keys::new(cipher_key), &[0; 16], tpl, message);
}

// What a message says after another, or the first refusal.
#[tactic(auto, unfolding(crate::specs::Opening::opened7, crate::specs::Opening::compared7, crate::specs::Opening::opened7_after))]
fn open_message(
    keys: &MeterKeys,
    commission: &Commission,
    last: Option<u32>,
    auth: &Auth,
    message: &mut [u8],
) -> Result<Opened, Reason>
    requires { keys.now ≡ keys_of commission.now }
    ensures bytes { IsBytes message.old }
    ensures opened { IfOk result (λ o. opened7_after last commission.now auth.now message.old ≡ Ok (found_in message.new o)) }
    ensures within { IfOk result (λ o. o.from ≤ length message.new) }
    ensures front { IfOk result (λ o. take o.from message.new ≡ take o.from message.old) }
    ensures refused { IfErr result (λ r. opened7_after last commission.now auth.now message.old ≡ Err r) }
{
    let tpl = read_header_for(commission.address, 7, message)?;
    let signature = read_signature(auth)?;
    check_derivation(&tpl)?;
    check_blocks(&tpl, message)?;
    let mac_key = derive(keys, commission, &tpl, KeyUse::MeterMac, signature.counter);
    check_mac(&mac_key, &signature, message)?;
    check_counter(last, signature.counter)?;
    let cipher_key = derive(
        keys,
        commission,
        &tpl,
        KeyUse::MeterCipher,
        signature.counter,
    );
    decrypt_for(&cipher_key, &tpl, message);
    Ok(Opened {
        counter: signature.counter,
        from: tpl.len,
        access: Access::None,
    })
}

/// The same as `open7`, with the meter's keys made ready beforehand, which have to be those of the commission.
pub fn open7_with_keys(
    keys: &MeterKeys,
    commission: &Commission,
    last: Option<u32>,
    auth: &Auth,
    message: &mut Scratch,
) -> Result<Opened, Reason>
    requires keys { keys.now ≡ keys_of commission.now }
    requires mode { commission.now.mode ≡ Mode.Seven }

    // What is opened is a genuine message, and what is refused has the cause that its reason names.
    ensures opens { Opens message.old message.new result
        (Genuine7 commission.now auth.now message.old) (Refusal7 last commission.now auth.now message.old) }

    // All of it as one function of the message.
    ensures exact { Says message.new result (opened7_after last commission.now auth.now message.old) }
{
    let answer = open_message(keys, commission, last, auth, message.bytes_mut());
    emptied_if_refused(answer, message)
}

/// Checks a message of security mode 7, which begins with its transport header, and decrypts it in place: the message
/// becomes its payload, behind the header. The MAC key and the cipher key are derived from the meter's second key where
/// the header names key 1 and there is a second key, else from its first key; no message is refused for its key id.
/// `last` is the meter's last stored message counter, and `auth` what the authentication and fragmentation layers of the
/// message had. A refusal is the first that applies of `BadMessage`, `OtherAddress`, `Mode`, `NoAuth`, `Kdf`,
/// `ShortBlocks`, `BadMac` and `Stale`, and empties the message. The meter has to be commissioned in mode 7.
pub fn open7(
    commission: &Commission,
    last: Option<u32>,
    auth: &Auth,
    message: &mut Scratch,
) -> Result<Opened, Reason>
    requires { commission.now.mode ≡ Mode.Seven }

    // What is opened is a genuine message, and what is refused has the cause that its reason names.
    ensures opens { Opens message.old message.new result
        (Genuine7 commission.now auth.now message.old) (Refusal7 last commission.now auth.now message.old) }

    // All of it as one function of the message.
    ensures exact { Says message.new result (opened7_after last commission.now auth.now message.old) }
{
    let keys = MeterKeys::new(commission);
    open7_with_keys(&keys, commission, last, auth, message)
}
