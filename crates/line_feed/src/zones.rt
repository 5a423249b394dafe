//! The zone behind a date and a time of day.
ghost use Rattle.std.specs.Prelude.{◌≡◌, ◌+◌, ◌≤◌, not, length, IfOk, IfSome};
ghost use Rattle.std.specs.Char.{is_ascii_digit};
ghost use Rattle.std.specs.List.{position};
ghost use Rattle.jiff_core.specs.Calendar.{IsWithin};
ghost use Rattle.line_feed.specs.Zones.{behind_digits, behind_fraction, signed, span_of, shift_in, zone_in};

use crate::civil::two_at;
use crate::reasons::NotTaken;

// Where the first byte stands that is no digit.
fn first_other(text: &[u8]) -> Option<usize>
    ensures { result ≡ position (λ b. not (is_ascii_digit b)) text.now }
{
    text.iter().position(|byte| !byte.is_ascii_digit())
}

// What stands behind the digits at the front.
fn behind_digits(text: &[u8]) -> &[u8]
    ensures { result.now ≡ behind_digits text.now }
{
    match first_other(text) {
        Some(place) => {
            let (_, rest) = text.split_at(place);
            rest
        }
        None => &[],
    }
}

/// What stands behind a fraction of a second, if one stands at the front.
pub(crate) fn behind_fraction(text: &[u8]) -> &[u8]
    ensures { result.now ≡ behind_fraction text.now }
{
    match text {
        [b'.', rest @ ..] => behind_digits(rest),
        _ => text,
    }
}

// Hours and minutes that a clock shows, in seconds.
fn span_of(hours: u8, minutes: u8) -> Result<u32, NotTaken>
    ensures value { result ≡ span_of hours minutes }
    ensures few { IfOk result (λ n. n ≤ 86399) }
{
    if hours <= 23 && minutes <= 59 {
        Ok(hours as u32 * 3_600 + minutes as u32 * 60)
    } else {
        Err(NotTaken::Time)
    }
}

// So many seconds ahead of UTC behind a `+`, and behind UTC behind a `-`.
fn signed(sign: u8, seconds: u32) -> Result<i64, NotTaken>
    requires few { seconds ≤ 86399 }
    ensures value { result ≡ signed sign seconds }
    ensures few { IfOk result (λ ahead. IsWithin 86399 ahead) }
{
    if sign == b'+' {
        return Ok(seconds as i64);
    }
    if sign == b'-' {
        return Ok(-(seconds as i64));
    }
    Err(NotTaken::Time)
}

// By how many seconds a zone's clocks are ahead: behind a sign two digits of hours, and two digits of minutes at this place.
#[tactic(auto, unfolding(crate::specs::Zones::shift_in))]
fn read_shift(text: &[u8], place: usize) -> Result<i64, NotTaken>
    requires within { place + 2 ≤ length text.now }
    requires least { 3 ≤ length text.now }
    ensures value { result ≡ shift_in text.now place }
    ensures few { IfOk result (λ ahead. IsWithin 86399 ahead) }
{
    let hours = two_at(text, 1).ok_or(NotTaken::Time)?;
    let minutes = two_at(text, place).ok_or(NotTaken::Time)?;
    let seconds = span_of(hours, minutes)?;
    signed(text[0], seconds)
}

/// The zone that a text names: by how many seconds its clocks are ahead of those of UTC, or none where nothing stands there.
pub(crate) fn read_zone(text: &[u8]) -> Result<Option<i64>, NotTaken>
    ensures value { result ≡ zone_in text.now }
    ensures few { IfOk result (λ zone. IfSome zone (λ ahead. IsWithin 86399 ahead)) }
{
    let len = text.len();
    if len == 0 {
        return Ok(None);
    }
    if len == 1 {
        if text[0] == b'Z' {
            return Ok(Some(0));
        }
        return Err(NotTaken::Time);
    }
    if len == 5 {
        let ahead = read_shift(text, 3)?;
        return Ok(Some(ahead));
    }
    if len == 6 {
        if text[3] != b':' {
            return Err(NotTaken::Time);
        }
        let ahead = read_shift(text, 4)?;
        return Ok(Some(ahead));
    }
    Err(NotTaken::Time)
}
