//! Days and moments (EN 13757-3, annex A, types F and G).

ghost use Rattle.std.specs.Prelude.{◌≡◌, ◌+◌, ◌^◌, ◌<◌, ◌≤◌};
ghost use Rattle.record_values.specs.Values.{bits, year_of, is_day, day_value, moment_value};

use crate::values::Value;

/// So many bits of a word, from one on.
pub fn bits(word: u64, from: u32, count: u32) -> u8
    requires within { from + count ≤ 64 }
    requires few { count ≤ 8 }
    requires last { from < 64 }
    ensures value { result ≡ bits word from count }
    ensures below { result < 2 ^ count }
{
    ((word >> from) % (1 << count)) as u8
}

/// The year from 1900 on of hundreds and of a number of two digits (EN 13757-3, annex A, type F).
pub fn year_of(hundreds: u8, year: u8) -> u16
    ensures { result ≡ year_of hundreds year }
{
    if hundreds == 0 && year <= 80 {
        2000 + u16::from(year)
    } else {
        1900 + 100 * u16::from(hundreds) + u16::from(year)
    }
}

fn is_day(year: u8, month: u8, day: u8) -> bool
    ensures { result ≡ is_day year month day }
{
    year <= 99 && (1..=12).contains(&month) && (1..=31).contains(&day)
}

/// The day of a word of 16 bits.
pub fn day_value(word: u64) -> Value
    ensures { result ≡ day_value word }
{
    let day = bits(word, 0, 5);
    let month = bits(word, 8, 4);
    let year = bits(word, 5, 3) + 8 * bits(word, 12, 4);
    if !is_day(year, month, day) {
        return Value::Raw;
    }
    Value::Day {
        year: year_of(0, year),
        month,
        day,
    }
}

/// The day and the time of day of a word of 32 bits.
pub fn moment_value(word: u64) -> Value
    ensures { result ≡ moment_value word }
{
    let minute = bits(word, 0, 6);
    let hour = bits(word, 8, 5);
    let day = bits(word, 16, 5);
    let month = bits(word, 24, 4);
    let year = bits(word, 21, 3) + 8 * bits(word, 28, 4);
    if !is_day(year, month, day) || hour > 23 || minute > 59 {
        return Value::Raw;
    }
    Value::Moment {
        year: year_of(bits(word, 13, 2), year),
        month,
        day,
        hour,
        minute,
        invalid: bits(word, 7, 1) == 1,
        summer: bits(word, 15, 1) == 1,
    }
}
