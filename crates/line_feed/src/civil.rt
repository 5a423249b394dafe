//! A date and a time of day, as they are written.
ghost use Rattle.std.specs.Prelude.{◌≡◌, ◌+◌, ◌<◌, ◌≤◌, ◌*ℤ◌, pos, length, IfSome, IfOk, IsTrue};
ghost use Rattle.jiff_core.specs.Calendar.{IsCivilDate};
ghost use Rattle.jiff_core.specs.DateTime.{IsCivilNanos};
ghost use Rattle.line_feed.specs.Civil.{two_at, has_marks, civil_in, is_day, is_time, seconds_of};

use crate::reasons::NotTaken;
use jiff_core::civil::{Date, DateTime, Time, days_in_month};

/// A date and a time of day, as they are written.
#[derive(Clone, Copy)]
pub(crate) struct Civil {
    pub year: u16,
    pub month: u8,
    pub day: u8,
    pub hour: u8,
    pub minute: u8,
    pub second: u8,
}

/// The number of two digits at this place.
pub(crate) fn two_at(text: &[u8], place: usize) -> Option<u8>
    requires { place + 2 ≤ length text.now }
    ensures value { result ≡ two_at text.now place }
    ensures few { IfSome result (λ n. n ≤ 99) }
{
    let (tens, ones) = (text[place], text[place + 1]);
    if tens.is_ascii_digit() && ones.is_ascii_digit() {
        Some((tens - b'0') * 10 + (ones - b'0'))
    } else {
        None
    }
}

/// Whether what parts the numbers of a date and a time stands at its places.
pub(crate) fn has_marks(text: &[u8]) -> bool
    requires { 19 ≤ length text.now }
    ensures { result ≡ has_marks text.now }
{
    text[4] == b'-'
        && text[7] == b'-'
        && (text[10] == b' ' || text[10] == b'T')
        && text[13] == b':'
        && text[16] == b':'
}

/// The numbers of a date and a time.
#[tactic(auto, unfolding(crate::specs::Civil::civil_in))]
pub(crate) fn read_civil(text: &[u8]) -> Result<Civil, NotTaken>
    requires { 19 ≤ length text.now }
    ensures value { result ≡ civil_in text.now }
    ensures year { IfOk result (λ c. c.year ≤ 9999) }
{
    let century = two_at(text, 0).ok_or(NotTaken::Time)?;
    let year = two_at(text, 2).ok_or(NotTaken::Time)?;
    let month = two_at(text, 5).ok_or(NotTaken::Time)?;
    let day = two_at(text, 8).ok_or(NotTaken::Time)?;
    let hour = two_at(text, 11).ok_or(NotTaken::Time)?;
    let minute = two_at(text, 14).ok_or(NotTaken::Time)?;
    let second = two_at(text, 17).ok_or(NotTaken::Time)?;
    Ok(Civil {
        year: century as u16 * 100 + year as u16,
        month,
        day,
        hour,
        minute,
        second,
    })
}

/// Whether the calendar has the day.
pub(crate) fn is_day(civil: Civil) -> bool
    requires { civil.year ≤ 9999 }
    ensures is { result ≡ is_day civil }
    ensures day { IsTrue result → IsCivilDate (pos civil.year) civil.month civil.day }
{
    if civil.month < 1 {
        return false;
    }
    if civil.month > 12 {
        return false;
    }
    if civil.day < 1 {
        return false;
    }
    civil.day <= days_in_month(civil.year as i16, civil.month)
}

/// Whether a clock shows the time.
pub(crate) fn is_time(civil: Civil) -> bool
    ensures is { result ≡ is_time civil }
    ensures time { IsTrue result → (civil.hour < 24) × (civil.minute < 60) × (civil.second < 60) }
{
    if civil.hour > 23 {
        return false;
    }
    if civil.minute > 59 {
        return false;
    }
    civil.second <= 59
}

/// The seconds since 1970 of a clock that shows a day that the calendar has, and a time that clocks show.
#[tactic(auto, unfolding(jiff_core::specs::DateTime::civil_seconds))]
pub(crate) fn seconds_of(civil: Civil) -> i64
    requires day { IsCivilDate (pos civil.year) civil.month civil.day }
    requires time { (civil.hour < 24) × (civil.minute < 60) × (civil.second < 60) }
    ensures value { result ≡ seconds_of civil }
    ensures bound { IsCivilNanos (result *ℤ pos 1_000_000_000) }
{
    let date = Date {
        year: civil.year as i16,
        month: civil.month,
        day: civil.day,
    };
    let time = Time {
        hour: civil.hour,
        minute: civil.minute,
        second: civil.second,
        subsec_nanosecond: 0,
    };
    DateTime { date, time }.to_second()
}
