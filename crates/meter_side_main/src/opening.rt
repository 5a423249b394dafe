//! Reading a delivery: what it tells the meter, or the first refusal.
ghost use Rattle.std.specs.Prelude.{◌≡◌, ◌+◌, ◌-◌, ◌*◌, ◌/◌, ◌%◌, ◌≤◌, ◌∷◌, ◌++◌, length, take, drop, slice_index, OnOk};
ghost use Rattle.std.specs.Int.{w32, to_le_bytes};
ghost use Rattle.cbc_cmac.specs.Cbc.{cbc_decrypted};
ghost use Rattle.cbc_cmac.specs.Mac.{zeros, cmac};
ghost use Rattle.downlink_maker.specs.Downlink.{cipher_key, mac_key};
ghost use Rattle.meter_side_main.specs.Reading.{blocks_in, counter_in, mac_in, mac_due, decrypted, framed, length_passed};
ghost use Rattle.meter_side_main.specs.Reading.{layout_passed, mac_passed, check_bytes_passed, told, did_with, did_after};

use crate::delivery::{Content, Executed};
use crate::layers::{CONTENT_AT, agreeing, layers_before};
use crate::reason::{Did, SideReason};
use aes_block::Keys;
use cbc_cmac::{cbc_decrypt_in_place, cmac_of_pieces};
use frame_formats::{Telegram, decode_a};
use key_derivation::{KeyUse, derive};
use meter_address::{Address, Commission};

// The telegram of a frame of format A.
fn telegram_of(delivery: &[u8]) -> Result<Telegram, SideReason>
    ensures { result ≡ framed delivery.now }
{
    let mut telegram = Telegram::shortest();
    match decode_a(delivery, &mut telegram) {
        Ok(()) => Ok(telegram),
        Err(fault) => Err(SideReason::Frame(fault)),
    }
}

// Whether L is that of one to six blocks.
fn check_length(telegram: &Telegram) -> Result<(), SideReason>
    ensures exact { result ≡ length_passed telegram.now }
    ensures whole { OnOk result (length telegram.now ≡ 41 + 16 * blocks_in telegram.now) }
    ensures some { OnOk result (1 ≤ blocks_in telegram.now) }
    ensures most { OnOk result (blocks_in telegram.now ≤ 6) }
{
    let length = telegram.bytes()[0];
    if 56 <= length && length <= 136 && (length - 40) % 16 == 0 {
        Ok(())
    } else {
        Err(SideReason::Layout(0))
    }
}

// The counter of a telegram.
fn counter(telegram: &[u8]) -> u32
    requires { 41 ≤ length telegram.now }
    ensures { result ≡ counter_in telegram.now }
{
    let mut counter = [0; 4];
    counter.copy_from_slice(&telegram[15..19]);
    u32::from_le_bytes(counter)
}

// The MAC of a telegram.
fn mac(telegram: &[u8]) -> [u8; 8]
    requires { 41 ≤ length telegram.now }
    ensures { result ≡ mac_in telegram.now }
{
    let mut mac = [0; 8];
    mac.copy_from_slice(&telegram[19..27]);
    mac
}

// Whether what stands before the content is what should stand there.
fn check_layout(own: Address, meter: Address, telegram: &[u8]) -> Result<(), SideReason>
    requires long { 41 ≤ length telegram.now }
    requires most { blocks_in telegram.now ≤ 6 }
    ensures { result ≡ layout_passed own meter telegram.now }
{
    let blocks = telegram[0].saturating_sub(40) / 16;
    let want = layers_before(own, meter, blocks, counter(telegram), mac(telegram));
    let place = agreeing(want.as_slice(), telegram);
    if place == CONTENT_AT {
        Ok(())
    } else {
        Err(SideReason::Layout(place))
    }
}

// The MAC that a telegram should have.
#[tactic(auto, unfolding(crate::specs::Reading::mac_due))]
fn mac_due(commission: &Commission, telegram: &[u8]) -> [u8; 8]
    requires { 41 ≤ length telegram.now }
    ensures { result ≡ mac_due commission.now telegram.now }
{
    let down = counter(telegram);
    let id = commission.address.identification();
    let key = derive(&commission.key, KeyUse::PartnerMac, down, id);
    let (_, message) = telegram.split_at(27);
    let whole = cmac_of_pieces(&Keys::new(&key), &[&[0x25], &down.to_le_bytes(), message]);
    let mut mac = [0; 8];
    mac.copy_from_slice(&whole[..8]);
    mac
}

// Whether the MAC is that of the message.
fn check_mac(commission: &Commission, telegram: &[u8]) -> Result<(), SideReason>
    requires { 41 ≤ length telegram.now }
    ensures { result ≡ mac_passed commission.now telegram.now }
{
    if mac_due(commission, telegram) == mac(telegram) {
        Ok(())
    } else {
        Err(SideReason::BadMac)
    }
}

// The content in plain.
#[tactic(auto, unfolding(crate::specs::Reading::decrypted))]
fn decrypted(commission: &Commission, telegram: &[u8]) -> [u8; 96]
    requires long { length telegram.now ≡ 41 + 16 * blocks_in telegram.now }
    requires most { blocks_in telegram.now ≤ 6 }
    ensures { take (16 * blocks_in telegram.now) result ≡ decrypted commission.now telegram.now }
{
    let id = commission.address.identification();
    let key = derive(
        &commission.key,
        KeyUse::PartnerCipher,
        counter(telegram),
        id,
    );
    let (_, content) = telegram.split_at(CONTENT_AT);
    let mut plain = [0; 96];
    plain[..content.len()].copy_from_slice(content);
    cbc_decrypt_in_place(&Keys::new(&key), &[0; 16], &mut plain[..content.len()]);
    plain
}

// Whether the content in plain begins with two check bytes.
fn check_bytes(plain: &[u8]) -> Result<(), SideReason>
    requires { 2 ≤ length plain.now }
    ensures { result ≡ check_bytes_passed plain.now }
{
    let two = [plain[0], plain[1]];
    if two != [0x2F, 0x2F] {
        return Err(SideReason::CheckBytes(two));
    }
    Ok(())
}

// What a delivery tells the meter, or the first refusal but that of its counter.
#[tactic(auto, unfolding(crate::specs::Reading::told))]
pub(crate) fn read(
    own: Address,
    commission: &Commission,
    delivery: &[u8],
) -> Result<Executed, SideReason>
    ensures { result ≡ told own commission.now delivery.now }
{
    let telegram = telegram_of(delivery)?;
    check_length(&telegram)?;
    let bytes = telegram.bytes();
    check_layout(own, commission.address, bytes)?;
    check_mac(commission, bytes)?;
    let plain = decrypted(commission, bytes);
    let (plain, _) = plain.split_at(bytes.len() - CONTENT_AT);
    check_bytes(plain)?;
    Ok(Executed {
        down: counter(bytes),
        content: Content::of(&plain[2..]),
    })
}

// What the meter does with a delivery, after this last counter.
pub(crate) fn judge(own: Address, commission: &Commission, last: u32, delivery: &[u8]) -> Did
    ensures { result ≡ did_after own commission.now last delivery.now }
{
    match read(own, commission, delivery) {
        Err(reason) => Did::Refused(reason),
        Ok(executed) => {
            if last < executed.down {
                Did::Executed(executed)
            } else {
                Did::Refused(SideReason::Stale {
                    got: executed.down,
                    last,
                })
            }
        }
    }
}
