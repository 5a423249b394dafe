//! What authenticates a message of security mode 7, and its MAC (EN 13757-7, OMS Volume 2).
ghost use Rattle.std.specs.Prelude.{◌≡◌, take};
ghost use Rattle.cbc_cmac.specs.Mac.{cmac};
ghost use Rattle.message_check.specs.Opening.{control_passed, signature_of, mac_input, mac_of, mac_passed};

use crate::refusal::Reason;
use aes_block::Keys;
use afl_layer::Auth;
use cbc_cmac::cmac_of_pieces;

// The parts of a message's authentication, all that have to be there.
#[derive(Clone, Copy)]
pub(crate) struct Signature {
    // MCL, the message control.
    pub mcl: u8,
    // MCR, the message counter.
    pub counter: u32,
    // ML, the length of the message.
    pub ml: Option<u16>,
    // The MAC of the message, cut to eight bytes.
    pub mac: [u8; 8],
}

// Whether the message control names AES-CMAC-128, cut to eight bytes.
fn check_control(mcl: u8) -> Result<(), Reason>
    ensures { result ≡ control_passed mcl }
{
    if mcl & 0xF == 5 {
        Ok(())
    } else {
        Err(Reason::NoAuth)
    }
}

// The parts of the authentication, where all that have to be are there.
#[tactic(auto, unfolding(crate::specs::Opening::signature_of))]
pub(crate) fn read_signature(auth: &Auth) -> Result<Signature, Reason>
    ensures { result ≡ signature_of auth.now }
{
    let mcl = auth.mcl.ok_or(Reason::NoAuth)?;
    let counter = auth.mcr.ok_or(Reason::NoAuth)?;
    let mac = auth.mac.ok_or(Reason::NoAuth)?;
    check_control(mcl)?;
    Ok(Signature {
        mcl,
        counter,
        ml: auth.ml,
        mac,
    })
}

// The CMAC of what authenticates a message.
fn cmac_of_message(key: &[u8; 16], signature: &Signature, message: &[u8]) -> [u8; 16]
    ensures { result ≡ cmac key.now (mac_input signature.now.mcl signature.now.counter signature.now.ml message.now) }
{
    let keys = Keys::new(key);
    let control = [signature.mcl];
    let counter = signature.counter.to_le_bytes();
    match signature.ml {
        None => cmac_of_pieces(&keys, &[&control, &counter, message]),
        Some(ml) => cmac_of_pieces(&keys, &[&control, &counter, &ml.to_le_bytes(), message]),
    }
}

// The MAC of a message: the first eight bytes of its CMAC.
#[tactic(auto, unfolding(crate::specs::Opening::mac_of))]
fn mac_of_message(key: &[u8; 16], signature: &Signature, message: &[u8]) -> [u8; 8]
    ensures { result ≡ mac_of key.now signature.now.mcl signature.now.counter signature.now.ml message.now }
{
    let whole = cmac_of_message(key, signature, message);
    let mut mac = [0; 8];
    mac.copy_from_slice(&whole[..8]);
    mac
}

// Whether the MAC is that of the message under the MAC key.
pub(crate) fn check_mac(key: &[u8; 16], signature: &Signature, message: &[u8]) -> Result<(), Reason>
    ensures { result ≡ mac_passed key.now signature.now message.now }
{
    if mac_of_message(key, signature, message) == signature.mac {
        Ok(())
    } else {
        Err(Reason::BadMac)
    }
}
