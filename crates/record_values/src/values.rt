//! The value of a record.

ghost use Rattle.std.specs.Prelude.{◌≡◌, ◌%◌, length, Some, Option};
ghost use Rattle.dif_vif.specs.Spelling.{field_width, lvar_width, data_width};
ghost use Rattle.dif_vif.specs.Spans.{IsSpanOf};
ghost use Rattle.record_values.specs.Values.{positive, negative, unread, field_value, lvar_value, number_value, reading_of, value};

use crate::dates::{day_value, moment_value};
use crate::digits::{bcd_value, decimal_of, signed_of, unsigned_of};
use crate::units::{Quantity, unit_of};
use dif_vif::RecordSpan;

/// What a record says. Its data count in the record's unit.
#[derive(Clone, Copy)]
pub enum Value {
    /// There are no data.
    None,
    /// A whole number.
    Whole(i128),
    /// Data that are not read: a real number, digits above 9, a day or a time that there isn't.
    Raw,
    /// A text; its bytes are the data as sent.
    Text,
    /// A day.
    Day {
        /// From 1900 on.
        year: u16,
        /// 1 to 12.
        month: u8,
        /// 1 to 31, in each month.
        day: u8,
    },
    /// A day and a time of day.
    Moment {
        /// From 1900 on.
        year: u16,
        /// 1 to 12.
        month: u8,
        /// 1 to 31, in each month.
        day: u8,
        /// 0 to 23.
        hour: u8,
        /// 0 to 59.
        minute: u8,
        /// Whether the meter marks the time as invalid.
        invalid: bool,
        /// Whether it is summer time.
        summer: bool,
    },
}

/// How the data of a quantity are read.
#[derive(Clone, Copy)]
pub enum Reading {
    Unread,
    Day,
    Moment,
    Number,
}

/// The value of a number: raw where there is none.
pub fn positive(number: Option<u64>) -> Value
    ensures { result ≡ positive number }
{
    match number {
        Some(number) => Value::Whole(i128::from(number)),
        None => Value::Raw,
    }
}

/// The value of a number below its sign: raw where there is none.
pub fn negative(number: Option<u64>) -> Value
    ensures { result ≡ negative number }
{
    match number {
        Some(number) => Value::Whole(-i128::from(number)),
        None => Value::Raw,
    }
}

fn unread(sent: &[u8]) -> Value
    ensures { result ≡ unread sent.now }
{
    if sent.is_empty() {
        Value::None
    } else {
        Value::Raw
    }
}

fn field_value(field: u8, sent: &[u8]) -> Value
    requires { field_width field ≡ Some (length sent.now) }
    ensures { result ≡ field_value field sent.now }
{
    match field {
        0 => Value::None,
        5 => Value::Raw,
        1..=4 | 6 | 7 => Value::Whole(signed_of(sent)),
        _ => bcd_value(sent),
    }
}

fn lvar_value(lvar: u8, sent: &[u8]) -> Value
    requires { lvar_width lvar ≡ Some (length sent.now) }
    ensures { result ≡ lvar_value lvar sent.now }
{
    match lvar {
        0x00..=0xbf => Value::Text,
        0xc0..=0xcf => positive(decimal_of(sent, 2 * sent.len())),
        0xd0..=0xdf => negative(decimal_of(sent, 2 * sent.len())),
        _ => Value::Whole(signed_of(sent)),
    }
}

/// The value of a number with its data field, or with its LVAR where there is one.
pub fn number_value(dif: u8, lvar: Option<u8>, sent: &[u8]) -> Value
    requires { data_width dif lvar ≡ Some (length sent.now) }
    ensures { result ≡ number_value (dif % 16) lvar sent.now }
{
    match lvar {
        None => field_value(dif % 16, sent),
        Some(lvar) => lvar_value(lvar, sent),
    }
}

fn reading_of(quantity: Quantity) -> Reading
    ensures { result ≡ reading_of quantity }
{
    match quantity {
        Quantity::Unknown | Quantity::Manufacturer => Reading::Unread,
        Quantity::Date => Reading::Day,
        Quantity::DateTime => Reading::Moment,
        _ => Reading::Number,
    }
}

/// The value of a record of these bytes.
pub fn value_of(bytes: &[u8], span: &RecordSpan) -> Value
    requires { IsSpanOf bytes.now span.now }
    ensures { result ≡ value bytes.now span.now }
{
    let (_, rest) = bytes.split_at(span.data_at);
    let (sent, _) = rest.split_at(span.data_len);
    match reading_of(unit_of(bytes, span).quantity) {
        Reading::Unread => unread(sent),
        Reading::Day if span.dif % 16 == 2 => day_value(unsigned_of(sent) as u64),
        Reading::Day => unread(sent),
        Reading::Moment if span.dif % 16 == 4 => moment_value(unsigned_of(sent) as u64),
        Reading::Moment => unread(sent),
        Reading::Number => number_value(span.dif, span.lvar, sent),
    }
}
