//! Lines of rtl_433.
ghost use Rattle.std.specs.Prelude.{◌≡◌, Ok, Err, IfOk, MatchResult, option_map, option_and_then};
ghost use Rattle.plain_text.specs.Parts.{is_word};
ghost use Rattle.serde_json.specs.Find.{as_str, as_number};
ghost use Rattle.serde_json.specs.Read.{read};
ghost use Rattle.serde_json.specs.View.{view};
ghost use Rattle.line_feed.specs.Digits.{telegram_of};
ghost use Rattle.line_feed.specs.Heard.{Means};
ghost use Rattle.line_feed.specs.Rtl433.{member_text, has_text, whole_seconds, moment_of_value, time_in, restored, last_crc};
ghost use Rattle.line_feed.specs.Rtl433.{telegram_in_data, data_telegram, json_heard, read_heard, rtl_433_heard};

use crate::digits::{read_bytes, telegram_of};
use crate::heard::{Reception, Unheard, said};
use crate::moments::{Moment, read_moment, since_1970};
use crate::reasons::NotTaken;
use frame_formats::{Telegram, encode_a};
use lists::put;
use serde_json::Value;
use std::alloc::Global;
use std::num::saturating_f64_to_i64;

// The text of the member with this name, if it is one.
fn member_text<'v>(value: &'v Value, name: &str) -> Option<&'v str>
    ensures { option_map (λ text. text.now) result ≡ member_text name.now (view value.now) }
{
    let member = value.get(name)?;
    member.as_str()
}

// Whether the member with this name is this text.
fn has_text(value: &Value, name: &str, text: &str) -> bool
    ensures { result ≡ has_text name.now text.now (view value.now) }
{
    match member_text(value, name) {
        Some(found) => found == text,
        None => false,
    }
}

// The whole seconds of a number.
fn whole_seconds(value: &Value) -> Option<u64>
    ensures { result ≡ option_and_then whole_seconds (as_number (view value.now)) }
{
    if let Some(seconds) = value.as_u64() {
        return Some(seconds);
    }
    let seconds = saturating_f64_to_i64(value.as_f64()?);
    if seconds < 0 {
        return None;
    }
    Some(seconds as u64)
}

// The moment of a text, or of a number of seconds.
fn moment_of_value(value: &Value) -> Result<Moment, NotTaken>
    ensures { result ≡ moment_of_value (as_str (view value.now)) (as_number (view value.now)) }
{
    match value.as_str() {
        Some(text) => read_moment(text.as_bytes()),
        None => since_1970(whole_seconds(value)),
    }
}

// The moment that an object names.
fn time_in(value: &Value) -> Result<Option<Moment>, NotTaken>
    ensures { result ≡ time_in (view value.now) }
{
    let Some(member) = value.get("time") else {
        return Ok(None);
    };
    let moment = moment_of_value(member)?;
    Ok(Some(moment))
}

// The bytes of a telegram of which L is two too low, and behind which two bytes stand.
fn restored(bytes: &[u8]) -> Result<Telegram, NotTaken>
    ensures { result ≡ telegram_of (restored bytes.now) }
{
    let len = bytes.len();
    if len < 13 || len > 258 {
        return Err(NotTaken::Length);
    }
    if bytes[0] > 253 {
        return Err(NotTaken::Length);
    }
    let (_, behind) = bytes.split_at(1);
    let (rest, _) = behind.split_at(len - 3);
    let mut whole = [0; 256];
    let end = put(&mut whole, 0, &[bytes[0] + 2]);
    let end = put(&mut whole, end, rest);
    telegram_of(&whole[..end])
}

// Whether these two bytes are the CRC of the telegram's last block.
fn is_last_crc(telegram: &Telegram, check: &[u8]) -> bool
    ensures { result ≡ is_word check.now (last_crc telegram.now) }
{
    let mut frame = [0; 290];
    let len = encode_a(telegram, &mut frame);
    let whole = &frame[..len];
    let (_, last) = whole.split_at(whole.len() - 2);
    check == last
}

// The telegram of bytes as they are, or else as rtl_433 prints one of format A.
fn telegram_in_data(bytes: &[u8]) -> Result<Telegram, NotTaken>
    ensures { result ≡ telegram_in_data bytes.now }
{
    if let Ok(telegram) = telegram_of(bytes) {
        return Ok(telegram);
    }
    let telegram = restored(bytes)?;
    let (_, check) = bytes.split_at(bytes.len().saturating_sub(2));
    if is_last_crc(&telegram, check) {
        Ok(telegram)
    } else {
        Err(NotTaken::Length)
    }
}

// The telegram of digits.
fn data_telegram(digits: &[u8]) -> Result<Telegram, NotTaken>
    ensures { result ≡ data_telegram digits.now }
{
    let bytes = read_bytes(digits)?;
    telegram_in_data(bytes.bytes())
}

#[tactic(auto, unfolding(crate::specs::Rtl433::json_heard))]
fn read_json(value: &Value) -> Result<Reception, NotTaken>
    ensures { result ≡ json_heard (view value.now) }
{
    if !has_text(value, "model", "Wireless-MBus") {
        return Err(NotTaken::Model);
    }
    if !has_text(value, "mic", "CRC") {
        return Err(NotTaken::Unchecked);
    }
    let moment = time_in(value)?;
    let Some(digits) = member_text(value, "data") else {
        return Err(NotTaken::Data);
    };
    let telegram = data_telegram(digits.as_bytes())?;
    Ok(Reception { telegram, moment })
}

// What a text gives.
fn read_text(alloc: Global, text: &str) -> Result<Reception, Unheard>
    ensures { Means result (read_heard (read text.now)) }
{
    match Value::from_str(alloc, text) {
        Ok(value) => said(read_json(&value)),
        Err(error) => {
            if error.is_memory() {
                return Err(Unheard::Memory);
            }
            Err(Unheard::Refused(NotTaken::Json))
        }
    }
}

/// What a line of rtl_433 gives.
#[tactic(auto, using(crate::proofs::Json::of_text, crate::proofs::Json::of_no_text))]
pub(crate) fn read_rtl_433(alloc: Global, line: &[u8]) -> Result<Reception, Unheard>
    ensures { Means result (rtl_433_heard line.now) }
{
    match std::str::from_utf8(line) {
        Ok(text) => read_text(alloc, text),
        Err(_) => Err(Unheard::Refused(NotTaken::Json)),
    }
}
