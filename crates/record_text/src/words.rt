//! The words of quantities, units and functions.

ghost use Rattle.std.specs.Prelude.{◌≡◌};
ghost use Rattle.record_text.specs.Words.{function_text, quantity_text, name_text};

use record_values::{Quantity, UnitName};

/// The word of a function: instantaneous, maximum, minimum, or `error` (EN 13757-3, DIF).
pub fn function_word(function: u8) -> &'static str
    ensures { result.now ≡ function_text function }
{
    match function {
        0 => "instantaneous",
        1 => "maximum",
        2 => "minimum",
        _ => "error",
    }
}

/// The word of a quantity.
pub fn quantity_word(quantity: Quantity) -> &'static str
    ensures { result.now ≡ quantity_text quantity }
{
    match quantity {
        Quantity::Energy => "energy",
        Quantity::Volume => "volume",
        Quantity::Mass => "mass",
        Quantity::OnTime => "ontime",
        Quantity::OperatingTime => "operatingtime",
        Quantity::Power => "power",
        Quantity::Flow => "flow",
        Quantity::MassFlow => "massflow",
        Quantity::FlowTemperature => "flowtemperature",
        Quantity::ReturnTemperature => "returntemperature",
        Quantity::TemperatureDifference => "temperaturedifference",
        Quantity::ExternalTemperature => "externaltemperature",
        Quantity::Pressure => "pressure",
        Quantity::Date => "date",
        Quantity::DateTime => "datetime",
        Quantity::Hca => "hca",
        Quantity::AveragingDuration => "averagingduration",
        Quantity::ActualityDuration => "actualityduration",
        Quantity::Fabrication => "fabrication",
        Quantity::Identification => "identification",
        Quantity::Address => "address",
        Quantity::Plain => "plain",
        Quantity::Any => "any",
        Quantity::Manufacturer => "manufacturer",
        Quantity::AccessNumber => "accessnumber",
        Quantity::ErrorFlags => "errorflags",
        Quantity::Voltage => "voltage",
        Quantity::Current => "current",
        Quantity::Unknown => "unknown",
    }
}

/// The sign of a unit, or a dash for none.
pub fn name_word(name: UnitName) -> &'static str
    ensures { result.now ≡ name_text name }
{
    match name {
        UnitName::WattHour => "Wh",
        UnitName::Joule => "J",
        UnitName::CubicMetre => "m3",
        UnitName::Kilogram => "kg",
        UnitName::Second => "s",
        UnitName::Minute => "min",
        UnitName::Hour => "h",
        UnitName::Day => "d",
        UnitName::Watt => "W",
        UnitName::JoulePerHour => "J/h",
        UnitName::CubicMetrePerHour => "m3/h",
        UnitName::CubicMetrePerMinute => "m3/min",
        UnitName::CubicMetrePerSecond => "m3/s",
        UnitName::KilogramPerHour => "kg/h",
        UnitName::Celsius => "C",
        UnitName::Kelvin => "K",
        UnitName::Bar => "bar",
        UnitName::Volt => "V",
        UnitName::Ampere => "A",
        UnitName::MegawattHour => "MWh",
        UnitName::Gigajoule => "GJ",
        UnitName::NoUnit => "-",
    }
}
