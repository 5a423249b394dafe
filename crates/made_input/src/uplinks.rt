//! The telegrams of a made session.
ghost use Rattle.std.specs.Prelude.{◌≡◌, ◌+◌, ◌≤◌, ◌++◌, length};
ghost use Rattle.made_input.specs.Uplinks.{content_of, message_of, mac_under, uplink, stranger};

use crate::meters::bcd;
use crate::senders::Sender;
use aes_block::Keys;
use arrayvec::ArrayVec;
use cbc_cmac::{cbc_encrypt_in_place, cmac_of_pieces};
use downlink_maker::authentication_layer;
use frame_formats::Telegram;
use key_derivation::KeyUse;

// MCL of a whole message with a counter and a MAC: AES-CMAC-128, cut to eight bytes.
const MESSAGE_CONTROL: u8 = 0x25;

// The transport header: no address, access number 1, security mode 7 with one encrypted block, keys derived by CMAC.
const HEADER: [u8; 6] = [0x7A, 0x01, 0x00, 0x10, 0x07, 0x10];

#[tactic(auto, unfolding(crate::specs::Uplinks::content_of))]
fn content(meter: &Sender, n: u32) -> [u8; 16]
    ensures { result ≡ content_of meter.now n }
{
    let key = meter.derive(KeyUse::MeterCipher, n);
    let [i, j, k, l] = bcd(n);
    let mut content = [
        0x2F, 0x2F, 0x0C, 0x13, i, j, k, l, 0x2F, 0x2F, 0x2F, 0x2F, 0x2F, 0x2F, 0x2F, 0x2F,
    ];
    cbc_encrypt_in_place(&Keys::new(&key), &[0; 16], &mut content);
    content
}

#[tactic(auto, unfolding(crate::specs::Uplinks::mac_under, message_check::specs::Opening::mac_of))]
fn mac(meter: &Sender, n: u32, message: &[u8]) -> [u8; 8]
    ensures { result ≡ mac_under meter.now n message.now }
{
    let key = meter.derive(KeyUse::MeterMac, n);
    let whole = cmac_of_pieces(
        &Keys::new(&key),
        &[&[MESSAGE_CONTROL], &n.to_le_bytes(), message],
    );
    let mut mac = [0; 8];
    mac.copy_from_slice(&whole[..8]);
    mac
}

// How many bytes the telegram of a meter has.
const UPLINK: usize = 49;

// Puts bytes behind those that are there.
fn put(bytes: &mut ArrayVec<u8, UPLINK>, more: &[u8])
    requires { length bytes.old.items + length more.now ≤ UPLINK }
    ensures { bytes.new.items ≡ bytes.old.items ++ more.now }
{
    let put = bytes.try_extend_from_slice(more);
    prove!(put.is_ok());
}

fn message(meter: &Sender, n: u32) -> ArrayVec<u8, UPLINK>
    ensures exact { result.items ≡ message_of meter.now n }
    ensures long { length result.items ≡ 22 }
{
    let mut message = ArrayVec::new();
    put(&mut message, HEADER.as_slice());
    put(&mut message, &content(meter, n));
    message
}

/// The telegram of a meter with this counter.
#[tactic(auto, unfolding(crate::specs::Uplinks::uplink))]
pub(crate) fn uplink(meter: &Sender, n: u32) -> Telegram
    ensures { result ≡ uplink meter.now n }
{
    let message = message(meter, n);
    let mac = mac(meter, n, message.as_slice());
    let mut bytes = ArrayVec::new();
    put(&mut bytes, &[0x30, 0x44]);
    put(&mut bytes, &meter.address_bytes());
    put(&mut bytes, &authentication_layer(n, mac));
    put(&mut bytes, message.as_slice());
    Telegram::from_bytes(bytes.as_slice()).unwrap()
}

/// The telegram of a meter that isn't commissioned.
#[tactic(auto, unfolding(crate::specs::Uplinks::stranger))]
pub(crate) fn stranger(number: u32) -> Telegram
    ensures { result ≡ stranger number }
{
    let access = (number % 256) as u8;
    let bytes = [
        0x0E, 0x44, 0x93, 0x15, 0x99, 0x99, 0x99, 0x99, 0x01, 0x07, 0x7A, access, 0x00, 0x00, 0x00,
    ];
    Telegram::from_bytes(&bytes).unwrap()
}
