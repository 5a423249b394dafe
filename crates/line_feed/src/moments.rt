//! The moment that a receiver's own time names.
ghost use Rattle.std.specs.Prelude.{◌≡◌, ◌==◌, ◌<◌, ◌≤◌, pos, IfSome, IsTrue, length};
ghost use Rattle.std.specs.Char.{is_ascii_digit};
ghost use Rattle.std.specs.List.{list_all, position};
ghost use Rattle.jiff_core.specs.Calendar.{IsCivilDate, IsWithin};
ghost use Rattle.line_feed.specs.Civil.{is_day, is_time};
ghost use Rattle.line_feed.specs.Moments.{utc_seconds, not_before, utc_moment, moment_of, is_dated, dated_in};
ghost use Rattle.line_feed.specs.Moments.{since_1970, is_fraction, whole_in, moment_in};

use crate::civil::{Civil, has_marks, is_day, is_time, read_civil, seconds_of};
use crate::reasons::NotTaken;
use crate::zones::{behind_fraction, read_zone};
use plain_text::{first_place, read_number};

/// The last second of the year 9999: what counts milliseconds since 1970 says more.
const SECONDS_MAX: u64 = 253_402_300_799;

/// A moment, as a line names it.
#[derive(Clone, Copy)]
pub struct Moment {
    /// The seconds since the beginning of 1970 of UTC.
    pub seconds: u64,
    /// Whether the line says of which zone they are; else its date and time are taken as those of UTC.
    pub names_zone: bool,
}

// A number that isn't below zero.
fn not_before(seconds: i64) -> Result<u64, NotTaken>
    ensures { result ≡ not_before seconds }
{
    if seconds < 0 {
        return Err(NotTaken::Time);
    }
    Ok(seconds as u64)
}

// The seconds since 1970 of UTC, where a clock of the zone shows this.
fn utc_seconds(civil: Civil, zone: Option<i64>) -> i64
    requires day { IsCivilDate (pos civil.year) civil.month civil.day }
    requires time { (civil.hour < 24) × (civil.minute < 60) × (civil.second < 60) }
    requires few { IfSome zone (λ ahead. IsWithin 86399 ahead) }
    ensures { result ≡ utc_seconds civil zone }
{
    let shown = seconds_of(civil);
    match zone {
        Some(ahead) => shown - ahead,
        None => shown,
    }
}

// The moment at which a clock of the zone shows this.
fn moment_of(civil: Civil, zone: Option<i64>) -> Result<Moment, NotTaken>
    requires year { civil.year ≤ 9999 }
    requires few { IfSome zone (λ ahead. IsWithin 86399 ahead) }
    ensures { result ≡ moment_of civil zone }
{
    if !is_day(civil) {
        return Err(NotTaken::Time);
    }
    if !is_time(civil) {
        return Err(NotTaken::Time);
    }
    let seconds = not_before(utc_seconds(civil, zone))?;
    Ok(Moment {
        seconds,
        names_zone: zone.is_some(),
    })
}

// Whether a text begins as a date and a time of day do.
fn is_dated(text: &[u8]) -> bool
    ensures is { result ≡ is_dated text.now }
    ensures least { IsTrue result → 19 ≤ length text.now }
{
    if text.len() < 19 {
        return false;
    }
    let (front, _) = text.split_at(19);
    has_marks(front)
}

// The moment of a date and a time of day, behind which a fraction of a second, which is left out, and a zone may stand.
#[tactic(auto, unfolding(crate::specs::Moments::dated_in))]
fn read_dated(text: &[u8]) -> Result<Moment, NotTaken>
    requires { 19 ≤ length text.now }
    ensures { result ≡ dated_in text.now }
{
    let (front, rest) = text.split_at(19);
    let civil = read_civil(front)?;
    let zone = read_zone(behind_fraction(rest))?;
    moment_of(civil, zone)
}

/// The moment of seconds since 1970.
pub(crate) fn since_1970(seconds: Option<u64>) -> Result<Moment, NotTaken>
    ensures { result ≡ since_1970 seconds }
{
    let Some(seconds) = seconds else {
        return Err(NotTaken::Time);
    };
    if seconds > SECONDS_MAX {
        return Err(NotTaken::Time);
    }
    Ok(Moment {
        seconds,
        names_zone: true,
    })
}

fn are_digits(text: &[u8]) -> bool
    ensures { result ≡ list_all is_ascii_digit text.now }
{
    text.iter().all(|byte| byte.is_ascii_digit())
}

// Whether a text is a point and digits.
fn is_fraction(text: &[u8]) -> bool
    ensures { result ≡ is_fraction text.now }
{
    match text {
        [b'.', digits @ ..] => are_digits(digits),
        _ => false,
    }
}

// The whole number of a text, behind which a point and digits may stand.
fn whole_in(text: &[u8]) -> Option<u64>
    ensures { result ≡ whole_in text.now (position (λ b. b == 46) text.now) }
{
    let Some(point) = first_place(text, b'.') else {
        return read_number(text, SECONDS_MAX);
    };
    let (whole, fraction) = text.split_at(point);
    if !is_fraction(fraction) {
        return None;
    }
    read_number(whole, SECONDS_MAX)
}

/// The moment of seconds since 1970, or of a date and a time of day.
pub(crate) fn read_moment(text: &[u8]) -> Result<Moment, NotTaken>
    ensures { result ≡ moment_in text.now }
{
    if is_dated(text) {
        return read_dated(text);
    }
    since_1970(whole_in(text))
}
