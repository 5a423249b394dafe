//! What the bytes of one value of a profile say (EN 13757-3, 6.3 and annex A).

ghost use Rattle.std.specs.Prelude.{◌≡◌, ◌*◌, ◌^◌, ◌<◌, ◌≤◌, ◌==◌, length, Some};
ghost use Rattle.std.specs.List.{list_all};
ghost use Rattle.dif_vif.specs.Numbers.{low_first};
ghost use Rattle.record_values.specs.Values.{number_value};
ghost use Rattle.compact_profiles.specs.Profiles.{value_width};
ghost use Rattle.compact_profiles.specs.SentValues.{are_ones, is_lowest, natural_in, natural_value, sent_value, signed_value, whole_in};

use crate::profiles::IncrementMode;
use record_values::{Value, number_value, unsigned_of};

fn whole_in(value: Value) -> Option<i128>
    ensures { result ≡ whole_in value }
{
    match value {
        Value::Whole(whole) => Some(whole),
        _ => None,
    }
}

/// The number of a value, where it is none below 0.
fn natural_in(value: Value) -> Option<i128>
    ensures { result ≡ natural_in value }
{
    match value {
        Value::Whole(whole) => { if 0 <= whole { Some(whole) } else { None } }
        _ => None,
    }
}

/// Whether this is the lowest number of its width, which stands for no value.
fn is_lowest(sent: &[u8]) -> bool
    requires { length sent.now ≤ 8 }
    ensures { result ≡ is_lowest sent.now }
{
    let number = unsigned_of(sent);
    let limit = 256u128.pow(sent.len() as u32);
    2 * number == limit
}

/// Whether all bits are set.
fn are_ones(sent: &[u8]) -> bool
    ensures { result ≡ are_ones sent.now }
{
    sent.iter().all(|byte| *byte == 0xff)
}

fn number_of(field: u8, sent: &[u8]) -> Value
    requires field { field < 16 }
    requires width { value_width field ≡ Some (length sent.now) }
    ensures { result ≡ number_value field None sent.now }
{
    number_value(field, None, sent)
}

/// A number with its sign: none where it is the lowest one of its width, or where digits are above 9.
fn signed_value(field: u8, sent: &[u8]) -> Option<i128>
    requires field { field < 16 }
    requires width { value_width field ≡ Some (length sent.now) }
    requires few { length sent.now ≤ 8 }
    ensures { result ≡ signed_value field sent.now }
{
    if field <= 7 && is_lowest(sent) {
        return None;
    }
    whole_in(number_of(field, sent))
}

/// A number without a sign: none where all its bits are set, or where digits are above 9.
fn natural_value(field: u8, sent: &[u8]) -> Option<i128>
    requires field { field < 16 }
    requires width { value_width field ≡ Some (length sent.now) }
    requires few { length sent.now ≤ 8 }
    ensures { result ≡ natural_value field sent.now }
{
    if field > 7 {
        return natural_in(number_of(field, sent));
    }
    if are_ones(sent) {
        return None;
    }
    Some(unsigned_of(sent) as i128)
}

/// What was sent for a value: whole, or as an increment.
pub fn sent_value(mode: IncrementMode, field: u8, sent: &[u8]) -> Option<i128>
    requires field { field < 16 }
    requires width { value_width field ≡ Some (length sent.now) }
    requires few { length sent.now ≤ 8 }
    ensures { result ≡ sent_value mode field sent.now }
{
    match mode {
        IncrementMode::Absolute => signed_value(field, sent),
        IncrementMode::Positive => natural_value(field, sent),
        IncrementMode::Negative => natural_value(field, sent),
        IncrementMode::Signed => signed_value(field, sent),
    }
}
