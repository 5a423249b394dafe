//! Dates and times (EN 13757-3, annex A, types F, G, I and J).

ghost use Rattle.std.specs.Prelude.{◌≡◌, ◌+◌, ◌^◌, ◌<◌, ◌≤◌};
ghost use Rattle.full_records.specs.Moments.{day_in, field, long_moment_in, moment_in, time_in, week_of, year_field};

use record_values::{bits, year_of};

/// A date. A part that is `None` stands for every one, as every year.
#[derive(Clone, Copy)]
pub struct Day {
    /// From 1900 on.
    pub year: Option<u16>,
    /// 1 to 12.
    pub month: Option<u8>,
    /// 1 to 31, in each month.
    pub day: Option<u8>,
}

/// A time of day. A part that is `None` stands for every one, as every hour.
#[derive(Clone, Copy)]
pub struct TimeOfDay {
    /// 0 to 23.
    pub hour: Option<u8>,
    /// 0 to 59.
    pub minute: Option<u8>,
    /// 0 to 59.
    pub second: Option<u8>,
}

/// A date and a time to the minute. A part of the time that is `None` stands for every one.
#[derive(Clone, Copy)]
pub struct Moment {
    /// The date.
    pub day: Day,
    /// 0 to 23.
    pub hour: Option<u8>,
    /// 0 to 59.
    pub minute: Option<u8>,
    /// Whether the meter marks the time as invalid.
    pub invalid: bool,
    /// Whether it is summer time.
    pub summer: bool,
}

/// A date and a time to the second, with what else type I has.
#[derive(Clone, Copy)]
pub struct LongMoment {
    /// The date.
    pub day: Day,
    /// The time.
    pub time: TimeOfDay,
    /// Whether the meter marks the time as invalid.
    pub invalid: bool,
    /// Whether it is summer time.
    pub summer: bool,
    /// Whether it is a leap year.
    pub leap_year: bool,
    /// The day of the week, 1 for Monday; 0 where it isn't given.
    pub weekday: u8,
    /// The week, 1 to 53; 0 where it isn't given, or is none of a year's.
    pub week: u8,
    /// The sign of the deviation of daylight saving, as sent.
    pub deviation_sign: bool,
    /// The hours of the deviation of daylight saving.
    pub deviation: u8,
}

/// A part of a date or a time; `None` where it is out of its range.
fn field(every: u8, least: u8, most: u8, number: u8) -> Option<Option<u8>>
    ensures { result ≡ field every least most number }
{
    if number == every {
        return Some(None);
    }
    if least <= number && number <= most {
        Some(Some(number))
    } else {
        None
    }
}

fn year_field(hundreds: u8, year: u8) -> Option<Option<u16>>
    ensures { result ≡ year_field hundreds year }
{
    if year == EVERY_YEAR {
        return Some(None);
    }
    if year <= 99 {
        Some(Some(year_of(hundreds, year)))
    } else {
        None
    }
}

/// The year of seven bits for every year.
const EVERY_YEAR: u8 = 127;

/// The date of the sixteen bits from one on.
#[tactic(auto, unfolding(crate::specs::Moments::day_in))]
fn day_at(word: u64, from: u32, hundreds: u8) -> Option<Day>
    requires { from ≤ 48 }
    ensures { result ≡ day_in word from hundreds }
{
    let year = bits(word, from + 5, 3) + 8 * bits(word, from + 12, 4);
    let year = year_field(hundreds, year)?;
    let month = field(15, 1, 12, bits(word, from + 8, 4))?;
    let day = field(0, 1, 31, bits(word, from, 5))?;
    Some(Day { year, month, day })
}

/// The time of the twenty-one bits of a word.
#[tactic(auto, unfolding(crate::specs::Moments::time_in))]
pub fn time_in(word: u64) -> Option<TimeOfDay>
    ensures { result ≡ time_in word }
{
    let hour = field(31, 0, 23, bits(word, 16, 5))?;
    let minute = field(63, 0, 59, bits(word, 8, 6))?;
    let second = field(63, 0, 59, bits(word, 0, 6))?;
    Some(TimeOfDay {
        hour,
        minute,
        second,
    })
}

/// The date of a word of sixteen bits, type G.
pub fn day_in(word: u64) -> Option<Day>
    ensures { result ≡ day_in word 0 0 }
{
    day_at(word, 0, 0)
}

/// The date and the time of a word of 32 bits, type F.
#[tactic(auto, unfolding(crate::specs::Moments::moment_in))]
pub fn moment_in(word: u64) -> Option<Moment>
    ensures { result ≡ moment_in word }
{
    let day = day_at(word, 16, bits(word, 13, 2))?;
    let hour = field(31, 0, 23, bits(word, 8, 5))?;
    let minute = field(63, 0, 59, bits(word, 0, 6))?;
    Some(Moment {
        day,
        hour,
        minute,
        invalid: bits(word, 7, 1) == 1,
        summer: bits(word, 15, 1) == 1,
    })
}

/// A week of six bits; 0 where it is none of a year's.
fn week_of(week: u8) -> u8
    ensures { result ≡ week_of week }
{
    if week <= 53 { week } else { 0 }
}

/// The date and the time of a word of 48 bits, type I.
#[tactic(auto, unfolding(crate::specs::Moments::long_moment_in))]
pub fn long_moment_in(word: u64) -> Option<LongMoment>
    ensures { result ≡ long_moment_in word }
{
    let day = day_at(word, 24, 0)?;
    let time = time_in(word)?;
    Some(LongMoment {
        day,
        time,
        invalid: bits(word, 15, 1) == 1,
        summer: bits(word, 6, 1) == 1,
        leap_year: bits(word, 7, 1) == 1,
        weekday: bits(word, 21, 3),
        week: week_of(bits(word, 40, 6)),
        deviation_sign: bits(word, 14, 1) == 1,
        deviation: bits(word, 46, 2),
    })
}
