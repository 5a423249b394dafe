//! The value of a record.

ghost use Rattle.std.specs.Prelude.{◌≡◌, ◌≤◌, ◌*◌, ◌%◌, ◌^◌, ◌==◌, length, Some};
ghost use Rattle.std.specs.List.{list_all};
ghost use Rattle.dif_vif.specs.Numbers.{low_first};
ghost use Rattle.dif_vif.specs.Spelling.{data_width};
ghost use Rattle.full_records.specs.Values.{all_ones, bits_value, day_value, is_long, is_lowest, is_unset, long_moment_value, long_value, moment_value, numbered, real_value, time_value, unread, value_as, withheld};

use crate::moments::{
    Day, LongMoment, Moment, TimeOfDay, day_in, long_moment_in, moment_in, time_in,
};
use crate::readings::DataType;
use record_values::{Value, number_value, unsigned_of};

/// What a record says. A number counts in the record's unit.
#[derive(Clone, Copy)]
pub enum FullValue {
    /// There are no data.
    Nothing,
    /// A decimal number: `whole` times ten to the power of `exponent`, exactly.
    Number {
        /// The digits, with their sign.
        whole: i128,
        /// The power of ten.
        exponent: i16,
    },
    /// A real number (IEEE 754, binary32) times ten to the power of `exponent`.
    Real {
        /// Its bits.
        bits: u32,
        /// The power of ten.
        exponent: i16,
    },
    /// Bits, the first one the lowest.
    Bits(u128),
    /// A date.
    Day(Day),
    /// A time of day.
    Time(TimeOfDay),
    /// A date and a time to the minute.
    Moment(Moment),
    /// A date and a time to the second.
    LongMoment(LongMoment),
    /// A text; its bytes are the data as sent.
    Text,
    /// Data that nobody is to see.
    Withheld,
    /// Data that are not read: of a type that is kept, digits above 9, a day or a time that there isn't, or a number
    /// of more than 128 bits.
    Raw,
}

/// Data that are not read, if there are any.
pub fn unread(sent: &[u8]) -> FullValue
    ensures { result ≡ unread sent.now }
{
    if sent.is_empty() {
        FullValue::Nothing
    } else {
        FullValue::Raw
    }
}

fn withheld(sent: &[u8]) -> FullValue
    ensures { result ≡ withheld sent.now }
{
    if sent.is_empty() {
        FullValue::Nothing
    } else {
        FullValue::Withheld
    }
}

fn numbered(value: Value, exponent: i8) -> FullValue
    ensures { result ≡ numbered exponent value }
{
    match value {
        Value::None => FullValue::Nothing,
        Value::Whole(whole) => FullValue::Number {
            whole,
            exponent: i16::from(exponent),
        },
        Value::Text => FullValue::Text,
        Value::Raw | Value::Day { .. } | Value::Moment { .. } => FullValue::Raw,
    }
}

fn bits_value(sent: &[u8]) -> FullValue
    ensures { result ≡ bits_value sent.now }
{
    if sent.len() > MOST_BYTES {
        return unread(sent);
    }
    FullValue::Bits(unsigned_of(sent))
}

/// How many bytes a number has at most (EN 13757-3, 6.3).
const MOST_BYTES: usize = 15;

fn real_value(sent: &[u8], exponent: i8) -> FullValue
    ensures { result ≡ real_value exponent sent.now }
{
    if sent.len() != 4 {
        return unread(sent);
    }
    FullValue::Real {
        bits: unsigned_of(sent) as u32,
        exponent: i16::from(exponent),
    }
}

fn day_value(sent: &[u8]) -> FullValue
    ensures { result ≡ day_value sent.now }
{
    if sent.len() != 2 {
        return unread(sent);
    }
    match day_in(unsigned_of(sent) as u64) {
        Some(day) => FullValue::Day(day),
        None => FullValue::Raw,
    }
}

fn time_value(sent: &[u8]) -> FullValue
    ensures { result ≡ time_value sent.now }
{
    if sent.len() != 3 {
        return unread(sent);
    }
    match time_in(unsigned_of(sent) as u64) {
        Some(time) => FullValue::Time(time),
        None => FullValue::Raw,
    }
}

fn moment_value(sent: &[u8]) -> FullValue
    ensures { result ≡ moment_value sent.now }
{
    if sent.len() != 4 {
        return unread(sent);
    }
    match moment_in(unsigned_of(sent) as u64) {
        Some(moment) => FullValue::Moment(moment),
        None => FullValue::Raw,
    }
}

fn long_moment_value(sent: &[u8]) -> FullValue
    ensures { result ≡ long_moment_value sent.now }
{
    if sent.len() != 6 {
        return unread(sent);
    }
    match long_moment_in(unsigned_of(sent) as u64) {
        Some(moment) => FullValue::LongMoment(moment),
        None => FullValue::Raw,
    }
}

/// Whether an LVAR announces a long number, which isn't read (EN 13757-3, 6.3).
pub fn is_long(lvar: Option<u8>) -> bool
    ensures { result ≡ is_long lvar }
{
    match lvar {
        None => false,
        Some(lvar) => !(lvar < 0xf0),
    }
}

/// The value of data of a long number: they are kept as bytes, unless nobody is to see them.
pub fn long_value(data_type: DataType, sent: &[u8]) -> FullValue
    ensures { result ≡ long_value data_type sent.now }
{
    match data_type {
        DataType::Withheld => withheld(sent),
        _ => unread(sent),
    }
}

/// The value of data of a type, before any factor or constant.
pub fn value_as(
    data_type: DataType,
    exponent: i8,
    dif: u8,
    lvar: Option<u8>,
    sent: &[u8],
) -> FullValue
    requires { data_width dif lvar ≡ Some (length sent.now) }
    ensures { result ≡ value_as data_type exponent (dif % 16) lvar sent.now }
{
    match data_type {
        DataType::Digits | DataType::Integer | DataType::Text => {
            numbered(number_value(dif, lvar, sent), exponent)
        }
        DataType::BitArray => bits_value(sent),
        DataType::Real => real_value(sent, exponent),
        DataType::Date => day_value(sent),
        DataType::TimeOfDay => time_value(sent),
        DataType::DateTime => moment_value(sent),
        DataType::DateTimeSeconds => long_moment_value(sent),
        DataType::Withheld => withheld(sent),
        DataType::Untyped
        | DataType::DaylightSaving
        | DataType::ListeningWindow
        | DataType::ZonedDateTime => unread(sent),
    }
}

/// Whether all bits are set, of one byte at least.
fn all_ones(sent: &[u8]) -> bool
    ensures { result ≡ all_ones sent.now }
{
    if sent.is_empty() {
        return false;
    }
    are_ones(sent)
}

fn are_ones(sent: &[u8]) -> bool
    ensures { result ≡ list_all (λ byte. byte == 0xff) sent.now }
{
    sent.iter().all(|byte| *byte == 0xff)
}

/// Whether this is the lowest number of its width.
fn is_lowest(sent: &[u8]) -> bool
    ensures { result ≡ is_lowest sent.now }
{
    sent.len() <= MOST_BYTES && is_half(sent)
}

fn is_half(sent: &[u8]) -> bool
    requires { length sent.now ≤ 15 }
    ensures { result ≡ (2 * low_first 256 sent.now == 256 ^ length sent.now) }
{
    let number = unsigned_of(sent);
    let limit = 256u128.pow(sent.len() as u32);
    2 * number == limit
}

/// Whether data of a type stand for no value: the lowest integer, or all bits of digits or of a date set.
pub fn is_unset(data_type: DataType, sent: &[u8]) -> bool
    ensures { result ≡ is_unset data_type sent.now }
{
    match data_type {
        DataType::Integer => is_lowest(sent),
        DataType::Digits
        | DataType::Date
        | DataType::TimeOfDay
        | DataType::DateTime
        | DataType::DateTimeSeconds => all_ones(sent),
        _ => false,
    }
}
