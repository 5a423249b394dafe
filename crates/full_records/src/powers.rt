//! Factors and constants, exactly.

ghost use Rattle.std.specs.Prelude.{◌≡◌, ◌≤◌, ◌+◌, ◌^◌, pos, ◌+ℤ◌, ◌*ℤ◌, length, unsigned_abs};
ghost use Rattle.full_records.specs.declared.values.FullValue.TheVariants as values;
ghost use Rattle.full_records.specs.Powers.{changed, increased, number_or_raw, plus_higher, plus_lower, power_in, scaled, short, value_after};

use crate::qualifiers::{Effect, Qualifier};
use crate::values::FullValue;

/// A number to which ten to a power is added.
#[tactic(auto, unfolding(crate::specs::Powers::plus_higher))]
fn plus_higher(whole: i128, gap: u32) -> Option<i128>
    ensures { result ≡ plus_higher whole gap }
{
    let power = power_of_ten(gap)?;
    sum(whole, power)
}

/// One more than a number times ten to a power.
#[tactic(auto, unfolding(crate::specs::Powers::plus_lower))]
fn plus_lower(whole: i128, gap: u32) -> Option<i128>
    ensures { result ≡ plus_lower whole gap }
{
    let power = power_of_ten(gap)?;
    let raised = product(whole, power)?;
    sum(raised, 1)
}

fn power_of_ten(power: u32) -> Option<i128>
    ensures { result ≡ short (pos (10 ^ power)) }
{
    10i128.checked_pow(power)
}

fn sum(a: i128, b: i128) -> Option<i128>
    ensures { result ≡ short (a +ℤ b) }
{
    a.checked_add(b)
}

fn product(a: i128, b: i128) -> Option<i128>
    ensures { result ≡ short (a *ℤ b) }
{
    a.checked_mul(b)
}

fn number_or_raw(whole: Option<i128>, exponent: i16) -> FullValue
    ensures { result ≡ number_or_raw exponent whole }
{
    match whole {
        Some(whole) => FullValue::Number { whole, exponent },
        None => FullValue::Raw,
    }
}

/// A number to which ten to a power is added, in the unit in which it counts.
fn sum_of_number(whole: i128, exponent: i16, power: i8) -> FullValue
    ensures { result ≡ increased (values.Number whole exponent) power }
{
    let power = i16::from(power);
    let gap = u32::from(power.abs_diff(exponent));
    if exponent <= power {
        number_or_raw(plus_higher(whole, gap), exponent)
    } else {
        number_or_raw(plus_lower(whole, gap), power)
    }
}

fn increased(value: FullValue, power: i8) -> FullValue
    ensures { result ≡ increased value power }
{
    match value {
        FullValue::Number { whole, exponent } => sum_of_number(whole, exponent, power),
        FullValue::Real { .. } => FullValue::Raw,
        other => other,
    }
}

fn scaled(value: FullValue, power: i8) -> FullValue
    requires { unsigned_abs (power_in value) ≤ 20000 }
    ensures { result ≡ scaled value power }
{
    match value {
        FullValue::Number { whole, exponent } => FullValue::Number {
            whole,
            exponent: exponent + i16::from(power),
        },
        FullValue::Real { bits, exponent } => FullValue::Real {
            bits,
            exponent: exponent + i16::from(power),
        },
        other => other,
    }
}

fn changed(value: FullValue, effect: Effect) -> FullValue
    requires { unsigned_abs (power_in value) ≤ 20000 }
    ensures exact { result ≡ changed value effect }
    ensures near { unsigned_abs (power_in result) ≤ unsigned_abs (power_in value) + 128 }
{
    match effect {
        Effect::Scaled(power) => scaled(value, power),
        Effect::Added(power) => increased(value, power),
        _ => value,
    }
}

/// A value behind its factors and constants, one after another, exactly: raw where a sum has more than 128 bits, and
/// where something is added to a real number (EN 13757-3, 6.4).
pub fn value_after(value: FullValue, qualifiers: &[Qualifier]) -> FullValue
    requires few { length qualifiers.now ≤ 10 }
    requires small { unsigned_abs (power_in value) ≤ 128 }
    ensures { result ≡ value_after value qualifiers.now }
{
    let mut value = value;
    for qualifier in qualifiers {
        value = changed(value, qualifier.effect);
    }
    value
}
