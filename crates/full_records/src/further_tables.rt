//! Which quantities and units the codes stand for that the profile leaves out (EN 13757-3, 6.4).

ghost use Rattle.std.specs.Prelude.{◌≡◌, IsTrue};
ghost use Rattle.std.specs.List.{list_all};
ghost use Rattle.full_records.specs.Measures.{is_scaled, measure_in, unknown};

use crate::quantities::{FullQuantity, FullUnitName, Measure};
use record_values::{Quantity, UnitName};

/// The codes from `first` to `last` count in the same unit, the first with the exponent `least`, each
/// other one with one more.
#[derive(Clone, Copy)]
pub struct FurtherRow {
    pub first: u8,
    pub last: u8,
    pub quantity: FullQuantity,
    pub unit: FullUnitName,
    pub least: i8,
}

macro_rules! quantity {
    (profile $name:ident) => {
        FullQuantity::Profile(Quantity::$name)
    };
    ($name:ident) => {
        FullQuantity::$name
    };
}

macro_rules! unit {
    (profile $name:ident) => {
        FullUnitName::Profile(UnitName::$name)
    };
    ($name:ident) => {
        FullUnitName::$name
    };
}

macro_rules! further_rows {
    ($($first:literal ..= $last:literal => [$($quantity:ident)+] [$($unit:ident)+] $least:literal,)*) => {
        [$(FurtherRow {
            first: $first,
            last: $last,
            quantity: quantity!($($quantity)+),
            unit: unit!($($unit)+),
            least: $least,
        }),*]
    };
}

/// The codes of the first VIFE after the VIF FD that the profile leaves out (EN 13757-3, 6.4).
pub const FURTHER_FD: [FurtherRow; 79] = further_rows![
    0x00..=0x03 => [Credit] [Currency] -3,
    0x04..=0x07 => [Debit] [Currency] -3,
    0x09..=0x09 => [DeviceType] [profile NoUnit] 0,
    0x0a..=0x0a => [ManufacturerCode] [profile NoUnit] 0,
    0x0b..=0x0b => [ParameterSet] [profile NoUnit] 0,
    0x0c..=0x0c => [ModelVersion] [profile NoUnit] 0,
    0x0d..=0x0d => [HardwareVersion] [profile NoUnit] 0,
    0x0e..=0x0e => [FirmwareVersion] [profile NoUnit] 0,
    0x0f..=0x0f => [SoftwareVersion] [profile NoUnit] 0,
    0x10..=0x10 => [CustomerLocation] [profile NoUnit] 0,
    0x11..=0x11 => [Customer] [profile NoUnit] 0,
    0x12..=0x12 => [UserAccessCode] [profile NoUnit] 0,
    0x13..=0x13 => [OperatorAccessCode] [profile NoUnit] 0,
    0x14..=0x14 => [SystemOperatorAccessCode] [profile NoUnit] 0,
    0x15..=0x15 => [DeveloperAccessCode] [profile NoUnit] 0,
    0x16..=0x16 => [Password] [profile NoUnit] 0,
    0x18..=0x18 => [ErrorMask] [profile NoUnit] 0,
    0x19..=0x19 => [SecurityKey] [profile NoUnit] 0,
    0x1a..=0x1a => [DigitalOutput] [profile NoUnit] 0,
    0x1b..=0x1b => [DigitalInput] [profile NoUnit] 0,
    0x1c..=0x1c => [BaudRate] [Baud] 0,
    0x1d..=0x1d => [ResponseDelay] [BitTime] 0,
    0x1e..=0x1e => [Retries] [profile NoUnit] 0,
    0x1f..=0x1f => [RemoteControl] [profile NoUnit] 0,
    0x20..=0x20 => [FirstStorage] [profile NoUnit] 0,
    0x21..=0x21 => [LastStorage] [profile NoUnit] 0,
    0x22..=0x22 => [StorageBlockSize] [profile NoUnit] 0,
    0x23..=0x23 => [TariffDescriptor] [profile NoUnit] 0,
    0x24..=0x24 => [StorageInterval] [profile Second] 0,
    0x25..=0x25 => [StorageInterval] [profile Minute] 0,
    0x26..=0x26 => [StorageInterval] [profile Hour] 0,
    0x27..=0x27 => [StorageInterval] [profile Day] 0,
    0x28..=0x28 => [StorageInterval] [Month] 0,
    0x29..=0x29 => [StorageInterval] [Year] 0,
    0x2a..=0x2a => [OperatorData] [profile NoUnit] 0,
    0x2b..=0x2b => [TimePointSecond] [profile NoUnit] 0,
    0x2c..=0x2c => [ReadoutAge] [profile Second] 0,
    0x2d..=0x2d => [ReadoutAge] [profile Minute] 0,
    0x2e..=0x2e => [ReadoutAge] [profile Hour] 0,
    0x2f..=0x2f => [ReadoutAge] [profile Day] 0,
    0x30..=0x30 => [TariffStart] [profile NoUnit] 0,
    0x31..=0x31 => [TariffDuration] [profile Minute] 0,
    0x32..=0x32 => [TariffDuration] [profile Hour] 0,
    0x33..=0x33 => [TariffDuration] [profile Day] 0,
    0x34..=0x34 => [TariffPeriod] [profile Second] 0,
    0x35..=0x35 => [TariffPeriod] [profile Minute] 0,
    0x36..=0x36 => [TariffPeriod] [profile Hour] 0,
    0x37..=0x37 => [TariffPeriod] [profile Day] 0,
    0x38..=0x38 => [TariffPeriod] [Month] 0,
    0x39..=0x39 => [TariffPeriod] [Year] 0,
    0x3a..=0x3a => [Dimensionless] [profile NoUnit] 0,
    0x3b..=0x3b => [RadioContainer] [profile NoUnit] 0,
    0x3c..=0x3c => [TransmissionPeriod] [profile Second] 0,
    0x3d..=0x3d => [TransmissionPeriod] [profile Minute] 0,
    0x3e..=0x3e => [TransmissionPeriod] [profile Hour] 0,
    0x3f..=0x3f => [TransmissionPeriod] [profile Day] 0,
    0x60..=0x60 => [ResetCounter] [profile NoUnit] 0,
    0x61..=0x61 => [CumulationCounter] [profile NoUnit] 0,
    0x62..=0x62 => [ControlSignal] [profile NoUnit] 0,
    0x63..=0x63 => [DayOfWeek] [profile NoUnit] 0,
    0x64..=0x64 => [WeekNumber] [profile NoUnit] 0,
    0x65..=0x65 => [DayChangeTime] [profile NoUnit] 0,
    0x66..=0x66 => [ParameterActivation] [profile NoUnit] 0,
    0x67..=0x67 => [SupplierInformation] [profile NoUnit] 0,
    0x68..=0x68 => [CumulationAge] [profile Hour] 0,
    0x69..=0x69 => [CumulationAge] [profile Day] 0,
    0x6a..=0x6a => [CumulationAge] [Month] 0,
    0x6b..=0x6b => [CumulationAge] [Year] 0,
    0x6c..=0x6c => [BatteryOperatingTime] [profile Hour] 0,
    0x6d..=0x6d => [BatteryOperatingTime] [profile Day] 0,
    0x6e..=0x6e => [BatteryOperatingTime] [Month] 0,
    0x6f..=0x6f => [BatteryOperatingTime] [Year] 0,
    0x70..=0x70 => [BatteryChange] [profile NoUnit] 0,
    0x71..=0x71 => [RadioLevel] [DecibelMilliwatt] 0,
    0x72..=0x72 => [DaylightSaving] [profile NoUnit] 0,
    0x73..=0x73 => [ListeningWindow] [profile NoUnit] 0,
    0x74..=0x74 => [RemainingBatteryLife] [profile Day] 0,
    0x75..=0x75 => [StopCount] [profile NoUnit] 0,
    0x76..=0x76 => [ManufacturerContainer] [profile NoUnit] 0,
];

/// The codes of the first VIFE after the VIF FB that the profile leaves out (EN 13757-3, 6.4).
pub const FURTHER_FB: [FurtherRow; 17] = further_rows![
    0x02..=0x03 => [ReactiveEnergy] [KilovarHour] 0,
    0x04..=0x05 => [ApparentEnergy] [KilovoltAmpereHour] 0,
    0x0c..=0x0f => [profile Energy] [Megacalorie] -1,
    0x10..=0x11 => [profile Volume] [profile CubicMetre] 2,
    0x14..=0x17 => [ReactivePower] [Kilovar] -3,
    0x18..=0x19 => [profile Mass] [Tonne] 2,
    0x1a..=0x1b => [RelativeHumidity] [Percent] -1,
    0x20..=0x20 => [profile Volume] [CubicFoot] 0,
    0x21..=0x21 => [profile Volume] [CubicFoot] -1,
    0x28..=0x29 => [profile Power] [Megawatt] -1,
    0x2a..=0x2a => [VoltagePhase] [Degree] -1,
    0x2b..=0x2b => [CurrentPhase] [Degree] -1,
    0x2c..=0x2f => [Frequency] [Hertz] -3,
    0x30..=0x31 => [profile Power] [GigajoulePerHour] -1,
    0x34..=0x37 => [ApparentPower] [KilovoltAmpere] -3,
    0x74..=0x77 => [TemperatureLimit] [profile Celsius] -3,
    0x78..=0x7f => [CumulatedMaximumPower] [profile Watt] -3,
];

/// A quantity that isn't in the standard.
pub fn unknown() -> Measure
    ensures { result ≡ unknown }
{
    Measure {
        quantity: FullQuantity::Profile(Quantity::Unknown),
        unit: FullUnitName::Profile(UnitName::NoUnit),
        exponent: 0,
    }
}

/// What a code stands for by a table.
pub fn measure_in(rows: &[FurtherRow], code: u8) -> Measure
    requires { IsTrue (list_all is_scaled rows.now) }
    ensures { result ≡ measure_in rows.now code }
{
    for row in rows {
        if row.first <= code && code <= row.last {
            return Measure {
                quantity: row.quantity,
                unit: row.unit,
                exponent: row.least + (code - row.first) as i8,
            };
        }
    }
    unknown()
}
