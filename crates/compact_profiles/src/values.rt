//! The values of a compact profile, one after another.

ghost use Rattle.std.specs.Prelude.{◌≡◌, ◌+◌, ◌*◌, ◌^◌, ◌<◌, ◌≤◌, ◌+ℤ◌, ◌-ℤ◌, length, Some};
ghost use Rattle.full_spans.specs.Long.{IsFullSpan};
ghost use Rattle.full_records.specs.Powers.{short};
ghost use Rattle.compact_profiles.specs.Profiles.{value_width};
ghost use Rattle.compact_profiles.specs.Values.{is_added, moved, number_behind, value_behind, values_from, values_of};

use crate::kinds::ProfileKind;
use crate::profiles::{IncrementMode, Profile, profile_of, sent_of};
use crate::sent_values::sent_value;
use dif_vif::RecordSpan;
use std::marker::Model;

/// A value of a compact profile. It counts in the unit of the record's VIF.
#[derive(Clone, Copy)]
pub struct ProfileValue {
    /// The storage number, where it has one of its own.
    pub storage: Option<u64>,
    /// The value; none where none was sent, and where it is known by an increment alone and the one before it isn't.
    pub value: Option<i128>,
}

/// How many values a profile has at most: an LVAR announces 191 bytes, and two of them stand before the values.
pub const MOST_VALUES: usize = 189;

const NO_VALUE: ProfileValue = ProfileValue {
    storage: None,
    value: None,
};

/// The values of a compact profile, in their order. What stands in the array behind them counts nowhere.
#[derive(Drop)]
pub struct ProfileValues {
    places: [ProfileValue; MOST_VALUES],
    count: usize,
}

impl Model for ProfileValues {
    ghost use Rattle.std.specs.Prelude.{◌≤◌, List, take};
    ghost use Rattle.compact_profiles.specs.declared.values.ProfileValue.{ProfileValue};
    ghost use Rattle.compact_profiles.specs.declared.values.TheConstants.{MOST_VALUES};

    ghost Value = { List ProfileValue };

    ghost view = { λ v. take v.count v.places };

    ghost invariant = { λ v. v.count ≤ MOST_VALUES };
}

impl ProfileValues {
    /// They, in their order.
    pub fn as_slice(&self) -> &[ProfileValue]
        ensures value { result.now ≡ self.now }
        ensures few { length self.now ≤ 189 }
    {
        &self.places[..self.count]
    }
}

fn sum(a: i128, b: i128) -> Option<i128>
    ensures { result ≡ short (a +ℤ b) }
{
    a.checked_add(b)
}

fn difference(a: i128, b: i128) -> Option<i128>
    ensures { result ≡ short (a -ℤ b) }
{
    a.checked_sub(b)
}

/// Whether an increment is added, and not taken away.
fn is_added(kind: ProfileKind, mode: IncrementMode) -> bool
    ensures { result ≡ is_added kind mode }
{
    match kind {
        ProfileKind::Inverse => match mode {
            IncrementMode::Negative => true,
            _ => false,
        },
        _ => match mode {
            IncrementMode::Negative => false,
            _ => true,
        },
    }
}

fn moved(added: bool, last: Option<i128>, step: Option<i128>) -> Option<i128>
    ensures { result ≡ moved added last step }
{
    let Some(last) = last else {
        return None;
    };
    let Some(step) = step else {
        return None;
    };
    if added {
        sum(last, step)
    } else {
        difference(last, step)
    }
}

/// A value by the one before it and by what was sent.
fn value_behind(
    kind: ProfileKind,
    mode: IncrementMode,
    last: Option<i128>,
    sent: Option<i128>,
) -> Option<i128>
    ensures { result ≡ value_behind kind mode last sent }
{
    match mode {
        IncrementMode::Absolute => sent,
        _ => moved(is_added(kind, mode), last, sent),
    }
}

/// The storage number of a value, where it has one of its own.
fn number_behind(kind: ProfileKind, storage: u64) -> Option<u64>
    ensures { result ≡ number_behind kind storage }
{
    match kind {
        ProfileKind::Numbered => Some(storage),
        _ => None,
    }
}

fn values_from(profile: Profile, storage: u64, base: Option<i128>, values: &[u8]) -> ProfileValues
    requires field { profile.field < 16 }
    requires width { value_width profile.field ≡ Some profile.width }
    requires small { profile.width ≤ 8 }
    requires whole { length values.now ≡ profile.count * profile.width }
    requires few { profile.count ≤ 189 }
    requires storage { storage + 189 < 2 ^ 64 }
    ensures { result ≡ values_from profile storage base profile.count values.now }
{
    let mut found = [NO_VALUE; MOST_VALUES];
    let mut place = 0usize;
    let mut left = profile.count;
    let mut number = storage;
    let mut last = base;
    let mut rest = values;
    'values: while left > 0 {
        let (sent, behind) = rest.split_at(profile.width);
        number += 1;
        last = value_behind(
            profile.kind,
            profile.mode,
            last,
            sent_value(profile.mode, profile.field, sent),
        );
        found[place] = ProfileValue {
            storage: number_behind(profile.kind, number),
            value: last,
        };
        rest = behind;
        place += 1;
        left -= 1;
    }
    ProfileValues {
        places: found,
        count: profile.count,
    }
}

/// The values of the compact profile that a record of these bytes is; none where it is no profile (EN 13757-3, annex on
/// profiles). The base is the value that comes before the first one, if it is known: that of the same quantity with the
/// record's own storage number. Only increments need it.
pub fn profile_values(bytes: &[u8], span: &RecordSpan, base: Option<i128>) -> ProfileValues
    requires { IsFullSpan bytes.now span.now }
    ensures { result ≡ values_of bytes.now span.now base }
{
    let Some(profile) = profile_of(bytes, span) else {
        return ProfileValues {
            places: [NO_VALUE; MOST_VALUES],
            count: 0,
        };
    };
    let (_, values) = sent_of(bytes, span).split_at(2);
    values_from(profile, span.storage, base, values)
}
