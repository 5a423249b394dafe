//! Which unit a code of a VIF or of its first VIFE stands for (EN 13757-3, 6.4).

ghost use Rattle.std.specs.Prelude.{◌≡◌, IsTrue};
ghost use Rattle.std.specs.List.{list_all};
ghost use Rattle.record_values.specs.Units.{is_scaled, unit_in};

use crate::units::{Quantity, Unit, UnitName};

/// The codes from `first` to `last` count in the same unit, the first with the exponent `least`, each
/// other one with one more.
#[derive(Clone, Copy)]
pub struct UnitRow {
    pub first: u8,
    pub last: u8,
    pub quantity: Quantity,
    pub name: UnitName,
    pub least: i8,
}

macro_rules! unit_rows {
    ($($first:literal ..= $last:literal => $quantity:ident $name:ident $least:literal,)*) => {
        [$(UnitRow {
            first: $first,
            last: $last,
            quantity: Quantity::$quantity,
            name: UnitName::$name,
            least: $least,
        }),*]
    };
}

/// The codes of a VIF.
pub const PRIMARY: [UnitRow; 40] = unit_rows![
    0x00..=0x07 => Energy WattHour -3,
    0x08..=0x0f => Energy Joule 0,
    0x10..=0x17 => Volume CubicMetre -6,
    0x18..=0x1f => Mass Kilogram -3,
    0x20..=0x20 => OnTime Second 0,
    0x21..=0x21 => OnTime Minute 0,
    0x22..=0x22 => OnTime Hour 0,
    0x23..=0x23 => OnTime Day 0,
    0x24..=0x24 => OperatingTime Second 0,
    0x25..=0x25 => OperatingTime Minute 0,
    0x26..=0x26 => OperatingTime Hour 0,
    0x27..=0x27 => OperatingTime Day 0,
    0x28..=0x2f => Power Watt -3,
    0x30..=0x37 => Power JoulePerHour 0,
    0x38..=0x3f => Flow CubicMetrePerHour -6,
    0x40..=0x47 => Flow CubicMetrePerMinute -7,
    0x48..=0x4f => Flow CubicMetrePerSecond -9,
    0x50..=0x57 => MassFlow KilogramPerHour -3,
    0x58..=0x5b => FlowTemperature Celsius -3,
    0x5c..=0x5f => ReturnTemperature Celsius -3,
    0x60..=0x63 => TemperatureDifference Kelvin -3,
    0x64..=0x67 => ExternalTemperature Celsius -3,
    0x68..=0x6b => Pressure Bar -3,
    0x6c..=0x6c => Date NoUnit 0,
    0x6d..=0x6d => DateTime NoUnit 0,
    0x6e..=0x6e => Hca NoUnit 0,
    0x70..=0x70 => AveragingDuration Second 0,
    0x71..=0x71 => AveragingDuration Minute 0,
    0x72..=0x72 => AveragingDuration Hour 0,
    0x73..=0x73 => AveragingDuration Day 0,
    0x74..=0x74 => ActualityDuration Second 0,
    0x75..=0x75 => ActualityDuration Minute 0,
    0x76..=0x76 => ActualityDuration Hour 0,
    0x77..=0x77 => ActualityDuration Day 0,
    0x78..=0x78 => Fabrication NoUnit 0,
    0x79..=0x79 => Identification NoUnit 0,
    0x7a..=0x7a => Address NoUnit 0,
    0x7c..=0x7c => Plain NoUnit 0,
    0x7e..=0x7e => Any NoUnit 0,
    0x7f..=0x7f => Manufacturer NoUnit 0,
];

/// The codes of the first VIFE after the VIF FD.
pub const AFTER_FD: [UnitRow; 4] = unit_rows![
    0x08..=0x08 => AccessNumber NoUnit 0,
    0x17..=0x17 => ErrorFlags NoUnit 0,
    0x40..=0x4f => Voltage Volt -9,
    0x50..=0x5f => Current Ampere -12,
];

/// The codes of the first VIFE after the VIF FB.
pub const AFTER_FB: [UnitRow; 2] = unit_rows![
    0x00..=0x01 => Energy MegawattHour -1,
    0x08..=0x09 => Energy Gigajoule -1,
];

/// The unit of a code by a table.
pub fn unit_in(rows: &[UnitRow], code: u8, modifiers_at: usize, modifiers: usize) -> Unit
    requires { IsTrue (list_all is_scaled rows.now) }
    ensures { result ≡ unit_in rows.now code modifiers_at modifiers }
{
    for row in rows {
        if row.first <= code && code <= row.last {
            return Unit {
                quantity: row.quantity,
                name: row.name,
                exponent: row.least + (code - row.first) as i8,
                modifiers_at,
                modifiers,
            };
        }
    }
    Unit {
        quantity: Quantity::Unknown,
        name: UnitName::NoUnit,
        exponent: 0,
        modifiers_at,
        modifiers,
    }
}
