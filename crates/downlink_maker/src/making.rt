//! Making a downlink.
ghost use Rattle.std.specs.Prelude.{◌≡◌, ◌+◌, ◌*◌, ◌≤◌, ◌++◌, length, take, drop, Ok};
ghost use Rattle.frame_formats.specs.Frames.{IsTelegram, FrameA};
ghost use Rattle.afl_layer.specs.Header.{afl_at};
ghost use Rattle.downlink_maker.specs.Downlink.{telegram_to, downlink, mac_of, authentication_of};

use crate::downlink::{DOWNLINK_MAX, Downlink};
use crate::layers::{authentication_layer, link_layer, transport_header};
use crate::message::{block_count, encrypted, mac};
use arrayvec::ArrayVec;
use frame_formats::{Telegram, encode_a};
use meter_address::{Address, Commission, Payload};

// Puts bytes behind those that are there.
fn put(bytes: &mut ArrayVec<u8, 256>, more: &[u8])
    requires { length bytes.old.items + length more.now ≤ 256 }
    ensures { bytes.new.items ≡ bytes.old.items ++ more.now }
{
    let put = bytes.try_extend_from_slice(more);
    prove!(put.is_ok());
}

// The telegram of these layers, one behind the other.
fn joined(link: &[u8], authentication: &[u8], header: &[u8], content: &[u8]) -> Telegram
    requires { IsTelegram (link.now ++ authentication.now ++ header.now ++ content.now) }
    ensures { result ≡ link.now ++ authentication.now ++ header.now ++ content.now }
{
    let mut bytes = ArrayVec::new();
    put(&mut bytes, link);
    put(&mut bytes, authentication);
    put(&mut bytes, header);
    put(&mut bytes, content);
    Telegram::from_bytes(bytes.as_slice()).unwrap()
}

// The telegram to the meter.
#[tactic(auto, unfolding(crate::specs::Downlink::telegram_to, crate::specs::Downlink::message_bytes))]
fn telegram(own: Address, commission: &Commission, down: u32, payload: &Payload) -> Telegram
    ensures exact { result ≡ telegram_to own commission.now down payload.now }
    ensures most { length result ≤ 137 }
    ensures authentication { afl_at (drop 10 result) ≡ Ok (authentication_of down (mac_of commission.now down payload.now)) }
{
    let payload = payload.bytes();
    let blocks = block_count(payload);
    let content = encrypted(commission, down, payload);
    let (content, _) = content.split_at(16 * blocks as usize);
    let header = transport_header(commission.address, down, blocks);
    let mac = mac(commission, down, &header, content);
    let authentication = authentication_layer(down, mac);
    joined(&link_layer(own, blocks), &authentication, &header, content)
}

/// The downlink that carries the command `id` with this payload to a meter, under the counter `down`: the frame of format
/// A of the telegram from the collector's `own` address.
pub fn make_downlink(
    own: Address,
    commission: &Commission,
    id: u32,
    down: u32,
    payload: &Payload,
) -> Downlink
    ensures bytes { result.bytes ≡ downlink own commission.now down payload.now }
    ensures frame { FrameA result.bytes (telegram_to own commission.now down payload.now) }

    // The layer behind the address is read back: the counter, and the MAC of the message.
    ensures authentication { afl_at (drop 10 (telegram_to own commission.now down payload.now))
        ≡ Ok (authentication_of down (mac_of commission.now down payload.now)) }
    ensures id { result.id ≡ id }
    ensures down { result.down ≡ down }
{
    let mut frame = [0; 290];
    let len = encode_a(&telegram(own, commission, down, payload), &mut frame);
    let mut bytes = [0; DOWNLINK_MAX];
    let (front, _) = frame.split_at(DOWNLINK_MAX);
    bytes.copy_from_slice(front);
    Downlink {
        bytes,
        len: len as u8,
        id,
        down,
    }
}
