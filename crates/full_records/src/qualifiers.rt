//! What the further VIFEs say of a record (EN 13757-3, 6.4).

ghost use Rattle.std.specs.Prelude.{◌≡◌, ◌≤◌, length};
ghost use Rattle.full_records.specs.declared.qualifiers.VifePlace.TheVariants.{Combinable};
ghost use Rattle.full_records.specs.Qualifiers.{first_place, kept, place_behind, qualifier_at, qualifier_in, qualifiers_from};

use crate::qualifier_table::COMBINABLE;
use record_values::UnitName;
use std::marker::Model;

/// What a further VIFE says.
#[derive(Clone, Copy)]
pub enum QualifierName {
    /// The request had too many DIFEs.
    TooManyDifes,
    /// The meter has no such storage number.
    StorageNotImplemented,
    /// The meter has no such subunit.
    UnitNotImplemented,
    /// The meter has no such tariff.
    TariffNotImplemented,
    /// The meter has no such function.
    FunctionNotImplemented,
    /// The meter has no such class of data.
    DataClassNotImplemented,
    /// The meter has no such size of data.
    DataSizeNotImplemented,
    /// The request had too many VIFEs.
    TooManyVifes,
    /// The group of the VIF isn't allowed.
    IllegalVifGroup,
    /// The exponent of the VIF isn't allowed.
    IllegalVifExponent,
    /// VIF and DIF don't go together.
    VifDifMismatch,
    /// The meter has no such action.
    ActionNotImplemented,
    /// The average of the quantity.
    Average,
    /// The data are a profile whose values go back in time.
    InverseCompactProfile,
    /// How far the value lies from another one, as a part of it.
    RelativeDeviation,
    /// No data are available.
    NoData,
    /// The value is too large for its data field.
    DataOverflow,
    /// The value is too small for its data field.
    DataUnderflow,
    /// The data are in error.
    DataError,
    /// The record ends too early.
    PrematureEnd,
    /// The data are those that the standard names.
    StandardConform,
    /// The data are a profile with register numbers.
    NumberedCompactProfile,
    /// The data are a profile.
    CompactProfile,
    /// Per second.
    PerSecond,
    /// Per minute.
    PerMinute,
    /// Per hour.
    PerHour,
    /// Per day.
    PerDay,
    /// Per week.
    PerWeek,
    /// Per month.
    PerMonth,
    /// Per year.
    PerYear,
    /// Per revolution, or per measurement.
    PerRevolution,
    /// More for each pulse at input 0.
    PerInputPulse0,
    /// More for each pulse at input 1.
    PerInputPulse1,
    /// More for each pulse at output 0.
    PerOutputPulse0,
    /// More for each pulse at output 1.
    PerOutputPulse1,
    /// Per litre.
    PerLitre,
    /// Per m3.
    PerCubicMetre,
    /// Per kg.
    PerKilogram,
    /// Per K.
    PerKelvin,
    /// Per kWh.
    PerKilowattHour,
    /// Per GJ.
    PerGigajoule,
    /// Per kW.
    PerKilowatt,
    /// Per K and litre.
    PerKelvinLitre,
    /// Per V.
    PerVolt,
    /// Per A.
    PerAmpere,
    /// Times s.
    TimesSecond,
    /// Times s/V.
    TimesSecondPerVolt,
    /// Times s/A.
    TimesSecondPerAmpere,
    /// When it began.
    StartOf,
    /// In a unit, or at conditions, that aren't converted.
    Uncorrected,
    /// What flowed forward alone.
    Forward,
    /// What flowed backward alone, without its sign.
    Backward,
    /// In a unit that isn't metric.
    NonMetric,
    /// Converted to base conditions.
    AtBaseConditions,
    /// The data are an OBIS code.
    ObisDeclaration,
    /// The lower limit.
    LowerLimit,
    /// How often the value was below the lower limit.
    LowerExceeds,
    /// When it first went below the lower limit.
    FirstLowerExceedBegin,
    /// When it first came back from below the lower limit.
    FirstLowerExceedEnd,
    /// When it last went below the lower limit.
    LastLowerExceedBegin,
    /// When it last came back from below the lower limit.
    LastLowerExceedEnd,
    /// The upper limit.
    UpperLimit,
    /// How often the value was above the upper limit.
    UpperExceeds,
    /// When it first went above the upper limit.
    FirstUpperExceedBegin,
    /// When it first came back from above the upper limit.
    FirstUpperExceedEnd,
    /// When it last went above the upper limit.
    LastUpperExceedBegin,
    /// When it last came back from above the upper limit.
    LastUpperExceedEnd,
    /// How long it was below the lower limit for the first time.
    FirstLowerExceedDuration,
    /// How long it was below the lower limit for the last time.
    LastLowerExceedDuration,
    /// How long it was above the upper limit for the first time.
    FirstUpperExceedDuration,
    /// How long it was above the upper limit for the last time.
    LastUpperExceedDuration,
    /// How long the first one was.
    FirstDuration,
    /// How long the last one was.
    LastDuration,
    /// The value while it was below the lower limit.
    DuringLowerExceed,
    /// What leaked.
    Leakage,
    /// When the first one began.
    FirstBegin,
    /// When the first one ended.
    FirstEnd,
    /// The value while it was above the upper limit.
    DuringUpperExceed,
    /// What overflowed.
    Overflow,
    /// When the last one began.
    LastBegin,
    /// When the last one ended.
    LastEnd,
    /// A factor, which is a power of ten.
    Factor,
    /// A power of ten that is added.
    Constant,
    /// The next VIFE is of the combinable extension.
    Extension,
    /// A value to come.
    Future,
    /// The next VIFEs and the data are the manufacturer's own.
    MakersOwn,
    /// A code of the combinable extension, which is kept.
    Extended,
    /// A code that has no meaning here, or one of the manufacturer's own.
    Kept,
}

/// What a further VIFE does to how the data are read.
#[derive(Clone, Copy)]
pub enum Effect {
    /// Nothing: it only says more of the quantity.
    Stays,
    /// The data are a date, a time or both, by their width.
    Dated,
    /// The data are a number without a unit.
    Counted,
    /// The data are a time in this unit.
    Lasts(UnitName),
    /// The data aren't read.
    Opaque,
    /// The data count in a unit that isn't metric.
    OtherUnit,
    /// The number is multiplied by this power of ten.
    Scaled(i8),
    /// This power of ten of the unit is added.
    Added(i8),
}

/// A further VIFE: its seven bits, what it says, and what it does.
#[derive(Clone, Copy)]
pub struct Qualifier {
    /// The seven lower bits, as sent.
    pub code: u8,
    /// What it says.
    pub name: QualifierName,
    /// What it does.
    pub effect: Effect,
}

/// Of which table a further VIFE is.
#[derive(Clone, Copy)]
pub enum VifePlace {
    /// Of the combinable VIFEs.
    Combinable,
    /// Of their extension, behind 7C.
    Extension,
    /// Of the manufacturer's own, behind 7F, or of the third extension table, which is reserved.
    Own,
}

/// How many further VIFEs a record has at most (EN 13757-3, 6.4).
pub const MOST_QUALIFIERS: usize = 10;

/// The further VIFEs of a record, in their order. What stands in the array behind them counts nowhere.
#[derive(Drop)]
pub struct Qualifiers {
    places: [Qualifier; MOST_QUALIFIERS],
    count: usize,
}

impl Model for Qualifiers {
    ghost use Rattle.std.specs.Prelude.{◌≤◌, List, take};
    ghost use Rattle.full_records.specs.declared.qualifiers.Qualifier.{Qualifier};
    ghost use Rattle.full_records.specs.declared.qualifiers.TheConstants.{MOST_QUALIFIERS};

    ghost Value = { List Qualifier };

    ghost view = { λ q. take q.count q.places };

    ghost invariant = { λ q. q.count ≤ MOST_QUALIFIERS };
}

impl Qualifiers {
    /// They, in their order.
    pub fn as_slice(&self) -> &[Qualifier]
        ensures value { result.now ≡ self.now }
        ensures few { length self.now ≤ 10 }
    {
        &self.places[..self.count]
    }
}

/// A code that has no meaning here.
fn kept(code: u8) -> Qualifier
    ensures { result ≡ kept code }
{
    Qualifier {
        code,
        name: QualifierName::Kept,
        effect: Effect::Stays,
    }
}

fn qualifier_in(rows: &[Qualifier], code: u8) -> Qualifier
    ensures { result ≡ qualifier_in rows.now code }
{
    for row in rows {
        if row.code == code {
            return *row;
        }
    }
    kept(code)
}

fn qualifier_at(place: VifePlace, code: u8) -> Qualifier
    ensures { result ≡ qualifier_at place code }
{
    match place {
        VifePlace::Combinable => qualifier_in(&COMBINABLE, code),
        VifePlace::Extension => Qualifier {
            code,
            name: QualifierName::Extended,
            effect: Effect::Stays,
        },
        VifePlace::Own => kept(code),
    }
}

fn behind_combinable(code: u8) -> VifePlace
    ensures { result ≡ place_behind Combinable code }
{
    if code == EXTENSION {
        return VifePlace::Extension;
    }
    if code == MAKERS_OWN {
        return VifePlace::Own;
    }
    VifePlace::Combinable
}

fn place_behind(place: VifePlace, code: u8) -> VifePlace
    ensures { result ≡ place_behind place code }
{
    match place {
        VifePlace::Combinable => behind_combinable(code),
        VifePlace::Extension => VifePlace::Combinable,
        VifePlace::Own => VifePlace::Own,
    }
}

/// Of which table the first further VIFE behind a VIF is.
pub fn first_place(vif: u8) -> VifePlace
    ensures { result ≡ first_place vif }
{
    if vif % 128 == THIRD_TABLE || vif % 128 == MAKERS_OWN {
        VifePlace::Own
    } else {
        VifePlace::Combinable
    }
}

/// What further VIFEs say, one behind another (EN 13757-3, 6.4).
pub fn qualifiers_of(first: VifePlace, vifes: &[u8]) -> Qualifiers
    requires { length vifes.now ≤ 10 }
    ensures { result ≡ qualifiers_from first vifes.now }
{
    let mut found = [kept(0); MOST_QUALIFIERS];
    let mut place = first;
    for (index, vife) in vifes.iter().enumerate() {
        let code = *vife % 128;
        found[index] = qualifier_at(place, code);
        place = place_behind(place, code);
    }
    Qualifiers {
        places: found,
        count: vifes.len(),
    }
}

/// The code behind which one of the combinable extension stands.
const EXTENSION: u8 = 0x7c;

/// The code, of a VIF too, behind which all is the manufacturer's own.
const MAKERS_OWN: u8 = 0x7f;

/// The code of a VIF behind which one of the third extension table stands.
const THIRD_TABLE: u8 = 0x6f;
