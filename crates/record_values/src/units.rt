//! The quantity and the unit of a record.

ghost use Rattle.std.specs.Prelude.{◌≡◌};
ghost use Rattle.dif_vif.specs.Spans.{IsSpanOf};
ghost use Rattle.record_values.specs.Units.{unit};

use crate::unit_tables::{AFTER_FB, AFTER_FD, PRIMARY, unit_in};
use dif_vif::RecordSpan;

/// What a record measures or states.
#[derive(Clone, Copy)]
pub enum Quantity {
    /// Energy, or heat.
    Energy,
    /// A volume.
    Volume,
    /// A mass.
    Mass,
    /// How long the meter has been switched on.
    OnTime,
    /// How long the meter has measured.
    OperatingTime,
    /// Power.
    Power,
    /// A volume in a time.
    Flow,
    /// A mass in a time.
    MassFlow,
    /// The temperature of what comes to the meter.
    FlowTemperature,
    /// The temperature of what goes back.
    ReturnTemperature,
    /// The difference of these two.
    TemperatureDifference,
    /// The temperature outside.
    ExternalTemperature,
    /// A pressure.
    Pressure,
    /// A day.
    Date,
    /// A day and a time of day.
    DateTime,
    /// Units of a heat cost allocator.
    Hca,
    /// Over how long an average was taken.
    AveragingDuration,
    /// How old the value is.
    ActualityDuration,
    /// The number that the meter was made with.
    Fabrication,
    /// An identification.
    Identification,
    /// An address on the bus.
    Address,
    /// A quantity whose unit stands as plain text in the record.
    Plain,
    /// Any quantity, as in a request.
    Any,
    /// A quantity that the manufacturer defines; manufacturer data too.
    Manufacturer,
    /// The number of a transmission.
    AccessNumber,
    /// Error flags.
    ErrorFlags,
    /// A voltage.
    Voltage,
    /// A current.
    Current,
    /// A quantity that is not read here.
    Unknown,
}

/// The unit in which a record's value counts.
#[derive(Clone, Copy)]
pub enum UnitName {
    /// Wh
    WattHour,
    /// J
    Joule,
    /// m3
    CubicMetre,
    /// kg
    Kilogram,
    /// s
    Second,
    /// min
    Minute,
    /// h
    Hour,
    /// d
    Day,
    /// W
    Watt,
    /// J/h
    JoulePerHour,
    /// m3/h
    CubicMetrePerHour,
    /// m3/min
    CubicMetrePerMinute,
    /// m3/s
    CubicMetrePerSecond,
    /// kg/h
    KilogramPerHour,
    /// C
    Celsius,
    /// K
    Kelvin,
    /// bar
    Bar,
    /// V
    Volt,
    /// A
    Ampere,
    /// MWh
    MegawattHour,
    /// GJ
    Gigajoule,
    /// A quantity without a unit.
    NoUnit,
}

/// What a record measures, in which unit, and where its modifiers stand.
#[derive(Clone, Copy)]
pub struct Unit {
    /// What is measured or stated.
    pub quantity: Quantity,
    /// In which unit.
    pub name: UnitName,
    /// The power of ten by which the value is multiplied.
    pub exponent: i8,
    /// The place of the first VIFE that isn't part of the unit's code.
    pub modifiers_at: usize,
    /// How many such VIFEs there are.
    pub modifiers: usize,
}

/// The VIFs whose code stands in the first VIFE (EN 13757-3, 6.4).
const VIF_FB: u8 = 0xfb;

const VIF_FD: u8 = 0xfd;

/// The quantity and the unit of a record of these bytes.
pub fn unit_of(bytes: &[u8], span: &RecordSpan) -> Unit
    requires { IsSpanOf bytes.now span.now }
    ensures { result ≡ unit bytes.now span.now }
{
    if span.maker {
        return Unit {
            quantity: Quantity::Manufacturer,
            name: UnitName::NoUnit,
            exponent: 0,
            modifiers_at: span.vifes_at,
            modifiers: span.vifes,
        };
    }
    if span.vif != VIF_FB && span.vif != VIF_FD {
        return unit_in(&PRIMARY, span.vif % 128, span.vifes_at, span.vifes);
    }
    let code = bytes[span.vifes_at] % 128;
    let rows = if span.vif == VIF_FB {
        AFTER_FB.as_slice()
    } else {
        AFTER_FD.as_slice()
    };
    unit_in(rows, code, span.vifes_at + 1, span.vifes - 1)
}
