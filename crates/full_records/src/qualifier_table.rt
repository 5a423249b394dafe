//! The combinable VIFEs.

use crate::qualifiers::{Effect, Qualifier, QualifierName};
use record_values::UnitName;

macro_rules! effect {
    (Lasts($unit:ident)) => {
        Effect::Lasts(UnitName::$unit)
    };
    (Scaled($power:literal)) => {
        Effect::Scaled($power)
    };
    (Added($power:literal)) => {
        Effect::Added($power)
    };
    ($effect:ident) => {
        Effect::$effect
    };
}

macro_rules! qualifiers {
    ($($code:literal => $name:ident [$($effect:tt)+],)*) => {
        [$(Qualifier {
            code: $code,
            name: QualifierName::$name,
            effect: effect!($($effect)+),
        }),*]
    };
}

/// The combinable VIFEs, and what a meter reports of a record (EN 13757-3, 6.4).
pub const COMBINABLE: [Qualifier; 115] = qualifiers![
    0x01 => TooManyDifes [Stays],
    0x02 => StorageNotImplemented [Stays],
    0x03 => UnitNotImplemented [Stays],
    0x04 => TariffNotImplemented [Stays],
    0x05 => FunctionNotImplemented [Stays],
    0x06 => DataClassNotImplemented [Stays],
    0x07 => DataSizeNotImplemented [Stays],
    0x0b => TooManyVifes [Stays],
    0x0c => IllegalVifGroup [Stays],
    0x0d => IllegalVifExponent [Stays],
    0x0e => VifDifMismatch [Stays],
    0x0f => ActionNotImplemented [Stays],
    0x12 => Average [Stays],
    0x13 => InverseCompactProfile [Opaque],
    0x14 => RelativeDeviation [Stays],
    0x15 => NoData [Stays],
    0x16 => DataOverflow [Stays],
    0x17 => DataUnderflow [Stays],
    0x18 => DataError [Stays],
    0x1c => PrematureEnd [Stays],
    0x1d => StandardConform [Stays],
    0x1e => NumberedCompactProfile [Opaque],
    0x1f => CompactProfile [Opaque],
    0x20 => PerSecond [Stays],
    0x21 => PerMinute [Stays],
    0x22 => PerHour [Stays],
    0x23 => PerDay [Stays],
    0x24 => PerWeek [Stays],
    0x25 => PerMonth [Stays],
    0x26 => PerYear [Stays],
    0x27 => PerRevolution [Stays],
    0x28 => PerInputPulse0 [Stays],
    0x29 => PerInputPulse1 [Stays],
    0x2a => PerOutputPulse0 [Stays],
    0x2b => PerOutputPulse1 [Stays],
    0x2c => PerLitre [Stays],
    0x2d => PerCubicMetre [Stays],
    0x2e => PerKilogram [Stays],
    0x2f => PerKelvin [Stays],
    0x30 => PerKilowattHour [Stays],
    0x31 => PerGigajoule [Stays],
    0x32 => PerKilowatt [Stays],
    0x33 => PerKelvinLitre [Stays],
    0x34 => PerVolt [Stays],
    0x35 => PerAmpere [Stays],
    0x36 => TimesSecond [Stays],
    0x37 => TimesSecondPerVolt [Stays],
    0x38 => TimesSecondPerAmpere [Stays],
    0x39 => StartOf [Dated],
    0x3a => Uncorrected [Stays],
    0x3b => Forward [Stays],
    0x3c => Backward [Stays],
    0x3d => NonMetric [OtherUnit],
    0x3e => AtBaseConditions [Stays],
    0x3f => ObisDeclaration [Opaque],
    0x40 => LowerLimit [Stays],
    0x41 => LowerExceeds [Counted],
    0x42 => FirstLowerExceedBegin [Dated],
    0x43 => FirstLowerExceedEnd [Dated],
    0x46 => LastLowerExceedBegin [Dated],
    0x47 => LastLowerExceedEnd [Dated],
    0x48 => UpperLimit [Stays],
    0x49 => UpperExceeds [Counted],
    0x4a => FirstUpperExceedBegin [Dated],
    0x4b => FirstUpperExceedEnd [Dated],
    0x4e => LastUpperExceedBegin [Dated],
    0x4f => LastUpperExceedEnd [Dated],
    0x50 => FirstLowerExceedDuration [Lasts(Second)],
    0x51 => FirstLowerExceedDuration [Lasts(Minute)],
    0x52 => FirstLowerExceedDuration [Lasts(Hour)],
    0x53 => FirstLowerExceedDuration [Lasts(Day)],
    0x54 => LastLowerExceedDuration [Lasts(Second)],
    0x55 => LastLowerExceedDuration [Lasts(Minute)],
    0x56 => LastLowerExceedDuration [Lasts(Hour)],
    0x57 => LastLowerExceedDuration [Lasts(Day)],
    0x58 => FirstUpperExceedDuration [Lasts(Second)],
    0x59 => FirstUpperExceedDuration [Lasts(Minute)],
    0x5a => FirstUpperExceedDuration [Lasts(Hour)],
    0x5b => FirstUpperExceedDuration [Lasts(Day)],
    0x5c => LastUpperExceedDuration [Lasts(Second)],
    0x5d => LastUpperExceedDuration [Lasts(Minute)],
    0x5e => LastUpperExceedDuration [Lasts(Hour)],
    0x5f => LastUpperExceedDuration [Lasts(Day)],
    0x60 => FirstDuration [Lasts(Second)],
    0x61 => FirstDuration [Lasts(Minute)],
    0x62 => FirstDuration [Lasts(Hour)],
    0x63 => FirstDuration [Lasts(Day)],
    0x64 => LastDuration [Lasts(Second)],
    0x65 => LastDuration [Lasts(Minute)],
    0x66 => LastDuration [Lasts(Hour)],
    0x67 => LastDuration [Lasts(Day)],
    0x68 => DuringLowerExceed [Stays],
    0x69 => Leakage [Stays],
    0x6a => FirstBegin [Dated],
    0x6b => FirstEnd [Dated],
    0x6c => DuringUpperExceed [Stays],
    0x6d => Overflow [Stays],
    0x6e => LastBegin [Dated],
    0x6f => LastEnd [Dated],
    0x70 => Factor [Scaled(-6)],
    0x71 => Factor [Scaled(-5)],
    0x72 => Factor [Scaled(-4)],
    0x73 => Factor [Scaled(-3)],
    0x74 => Factor [Scaled(-2)],
    0x75 => Factor [Scaled(-1)],
    0x76 => Factor [Scaled(0)],
    0x77 => Factor [Scaled(1)],
    0x78 => Constant [Added(-3)],
    0x79 => Constant [Added(-2)],
    0x7a => Constant [Added(-1)],
    0x7b => Constant [Added(0)],
    0x7c => Extension [Stays],
    0x7d => Factor [Scaled(3)],
    0x7e => Future [Stays],
    0x7f => MakersOwn [Opaque],
];
