//! How the data of a record are read: by its quantity, by its qualifiers, and by its data field.

ghost use Rattle.std.specs.Prelude.{◌≡◌, ◌%◌};
ghost use Rattle.full_records.specs.Readings.{bare, data_type, is_empty, kept_type, kind_of, moment_type, number_type, profile_kind, reading, reading_after, turned, turned_by};

use crate::qualifiers::{Effect, Qualifier};
use crate::quantities::{FullQuantity, FullUnitName, Measure};
use record_values::{Quantity, UnitName};

/// How the data of a quantity are read.
#[derive(Clone, Copy)]
pub enum Kind {
    /// As a number.
    Number,
    /// As bits, each for itself.
    Bits,
    /// As a date, a time or both.
    Moment,
    /// As the beginning and end of daylight saving.
    DaylightSaving,
    /// As the times at which the meter listens.
    ListeningWindow,
    /// Not at all, since nobody is to see them.
    Withheld,
    /// Not at all.
    Opaque,
}

/// How the data of a record are read, and in which unit they count.
#[derive(Clone, Copy)]
pub struct Reading {
    /// As what.
    pub kind: Kind,
    /// In which unit.
    pub unit: FullUnitName,
    /// The power of ten by which the value is multiplied, before any factor.
    pub exponent: i8,
}

/// The types of data (EN 13757-3, annex A).
#[derive(Clone, Copy)]
pub enum DataType {
    /// Data of no type that is read here, or no data.
    Untyped,
    /// Decimal digits, type A.
    Digits,
    /// A number in two's complement, type B.
    Integer,
    /// Bits, type D.
    BitArray,
    /// A date and a time to the minute, type F.
    DateTime,
    /// A date, type G.
    Date,
    /// A real number, type H.
    Real,
    /// A date and a time to the second, type I.
    DateTimeSeconds,
    /// A time of day, type J.
    TimeOfDay,
    /// The beginning and end of daylight saving, type K: its bytes are kept.
    DaylightSaving,
    /// The times at which the meter listens, type L: its bytes are kept.
    ListeningWindow,
    /// A date and a time with their time zone, type M: its bytes are kept.
    ZonedDateTime,
    /// A text.
    Text,
    /// Data that nobody is to see.
    Withheld,
}

fn profile_kind(quantity: Quantity) -> Kind
    ensures { result ≡ profile_kind quantity }
{
    match quantity {
        Quantity::Unknown | Quantity::Manufacturer => Kind::Opaque,
        Quantity::Date | Quantity::DateTime => Kind::Moment,
        Quantity::ErrorFlags => Kind::Bits,
        _ => Kind::Number,
    }
}

/// How the data of a quantity are read.
pub fn kind_of(quantity: FullQuantity) -> Kind
    ensures { result ≡ kind_of quantity }
{
    match quantity {
        FullQuantity::Profile(quantity) => profile_kind(quantity),
        FullQuantity::ErrorMask | FullQuantity::DigitalOutput | FullQuantity::DigitalInput => {
            Kind::Bits
        }
        FullQuantity::TariffStart | FullQuantity::BatteryChange => Kind::Moment,
        FullQuantity::DaylightSaving => Kind::DaylightSaving,
        FullQuantity::ListeningWindow => Kind::ListeningWindow,
        FullQuantity::UserAccessCode
        | FullQuantity::OperatorAccessCode
        | FullQuantity::SystemOperatorAccessCode
        | FullQuantity::DeveloperAccessCode
        | FullQuantity::Password
        | FullQuantity::SecurityKey => Kind::Withheld,
        FullQuantity::RadioContainer | FullQuantity::ManufacturerContainer => Kind::Opaque,
        _ => Kind::Number,
    }
}

fn bare(kind: Kind, unit: UnitName) -> Reading
    ensures { result ≡ bare kind unit }
{
    Reading {
        kind,
        unit: FullUnitName::Profile(unit),
        exponent: 0,
    }
}

fn turned_by(effect: Effect, reading: Reading) -> Reading
    ensures { result ≡ turned_by effect reading }
{
    match effect {
        Effect::Stays | Effect::Scaled(_) | Effect::Added(_) => reading,
        Effect::Dated => bare(Kind::Moment, UnitName::NoUnit),
        Effect::Counted => bare(Kind::Number, UnitName::NoUnit),
        Effect::Lasts(unit) => bare(Kind::Number, unit),
        Effect::Opaque => bare(Kind::Opaque, UnitName::NoUnit),
        Effect::OtherUnit => Reading {
            kind: reading.kind,
            unit: FullUnitName::NonMetric,
            exponent: reading.exponent,
        },
    }
}

fn turned(reading: Reading, effect: Effect) -> Reading
    ensures { result ≡ turned reading effect }
{
    match reading.kind {
        Kind::Withheld => reading,
        _ => turned_by(effect, reading),
    }
}

/// How the data of a measure are read behind its qualifiers.
pub fn reading_of(measure: Measure, qualifiers: &[Qualifier]) -> Reading
    ensures { result ≡ reading_after (reading measure) qualifiers.now }
{
    let mut reading = Reading {
        kind: kind_of(measure.quantity),
        unit: measure.unit,
        exponent: measure.exponent,
    };
    for qualifier in qualifiers {
        reading = turned(reading, qualifier.effect);
    }
    reading
}

/// The type of a number, by its data field or its LVAR (EN 13757-3, 6.3).
fn number_type(field: u8, lvar: Option<u8>) -> DataType
    ensures { result ≡ number_type field lvar }
{
    match lvar {
        None => match field {
            0 => DataType::Untyped,
            5 => DataType::Real,
            1..=7 => DataType::Integer,
            _ => DataType::Digits,
        },
        Some(0x00..=0xbf) => DataType::Text,
        Some(0xc0..=0xdf) => DataType::Digits,
        Some(0xe0..=0xef) => DataType::Integer,
        Some(_) => DataType::Untyped,
    }
}

/// The type of a date or a time, by its data field.
fn moment_type(field: u8, lvar: Option<u8>) -> DataType
    ensures { result ≡ moment_type field lvar }
{
    match lvar {
        None => match field {
            2 => DataType::Date,
            3 => DataType::TimeOfDay,
            4 => DataType::DateTime,
            6 => DataType::DateTimeSeconds,
            _ => DataType::Untyped,
        },
        Some(_) => kept_type(DataType::ZonedDateTime, field, lvar),
    }
}

/// Whether there are no data, by the data field or by the LVAR.
fn is_empty(field: u8, lvar: Option<u8>) -> bool
    ensures { result ≡ is_empty field lvar }
{
    match lvar {
        None => field == 0,
        Some(lvar) => lvar == 0 || lvar == 0xc0 || lvar == 0xd0 || lvar == 0xe0,
    }
}

/// The type of data that are kept as bytes, if there are any.
fn kept_type(data_type: DataType, field: u8, lvar: Option<u8>) -> DataType
    ensures { result ≡ kept_type data_type field lvar }
{
    if is_empty(field, lvar) {
        DataType::Untyped
    } else {
        data_type
    }
}

/// The type of data that are read as such, with this data field and LVAR.
pub fn data_type_of(kind: Kind, field: u8, lvar: Option<u8>) -> DataType
    ensures { result ≡ data_type kind field lvar }
{
    match kind {
        Kind::Number => number_type(field, lvar),
        Kind::Bits => match number_type(field, lvar) {
            DataType::Integer => DataType::BitArray,
            other => other,
        },
        Kind::Moment => moment_type(field, lvar),
        Kind::DaylightSaving => kept_type(DataType::DaylightSaving, field, lvar),
        Kind::ListeningWindow => kept_type(DataType::ListeningWindow, field, lvar),
        Kind::Withheld => kept_type(DataType::Withheld, field, lvar),
        Kind::Opaque => DataType::Untyped,
    }
}
