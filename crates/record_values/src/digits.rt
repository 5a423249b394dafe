//! Numbers from bytes: two's complement and decimal digits (EN 13757-3, annex A, types A and B).

ghost use Rattle.std.specs.Prelude.{◌≡◌, ◌*◌, ◌^◌, ◌<◌, ◌≤◌, length, take, slice_index};
ghost use Rattle.dif_vif.specs.Numbers.{low_first};
ghost use Rattle.record_values.specs.Values.{signed_of, digits_of, decimal_of, bcd_value};

use crate::values::{Value, negative, positive};

/// The number of the bytes, the low byte first.
pub fn unsigned_of(sent: &[u8]) -> u128
    requires { length sent.now ≤ 15 }
    ensures value { result ≡ low_first 256 sent.now }
    ensures below { result < 256 ^ length sent.now }
{
    let mut number = 0u128;
    let mut left = sent.len();
    'bytes: while left > 0 {
        left -= 1;
        number = number * 256 + u128::from(sent[left]);
    }
    number
}

/// The same in two's complement.
pub fn signed_of(sent: &[u8]) -> i128
    requires { length sent.now ≤ 15 }
    ensures { result ≡ signed_of sent.now }
{
    let number = unsigned_of(sent);
    let limit = 256u128.pow(sent.len() as u32);
    if 2 * number < limit {
        number as i128
    } else {
        number as i128 - limit as i128
    }
}

/// The decimal digit at a place, the lowest at 0.
fn digit_at(sent: &[u8], place: usize) -> u8
    requires { place < 2 * length sent.now }
    ensures { result ≡ slice_index (digits_of sent.now) place }
{
    let byte = sent[place / 2];
    if place % 2 == 0 { byte % 16 } else { byte / 16 }
}

/// The number of the first digits; `None` where one of them is above 9.
pub fn decimal_of(sent: &[u8], count: usize) -> Option<u64>
    requires within { count ≤ 2 * length sent.now }
    requires few { count ≤ 18 }
    ensures { result ≡ decimal_of (take count (digits_of sent.now)) }
{
    let mut number = 0u64;
    let mut left = count;
    'digits: while left > 0 {
        left -= 1;
        let digit = digit_at(sent, left);
        if digit > 9 {
            return None;
        }
        number = number * 10 + u64::from(digit);
    }
    Some(number)
}

/// The value of decimal digits of which the top one may be F, for a negative number.
pub fn bcd_value(sent: &[u8]) -> Value
    requires some { 0 < length sent.now }
    requires few { length sent.now ≤ 9 }
    ensures { result ≡ bcd_value sent.now }
{
    let count = 2 * sent.len();
    if digit_at(sent, count - 1) == NEGATIVE {
        negative(decimal_of(sent, count - 1))
    } else {
        positive(decimal_of(sent, count))
    }
}

/// The top digit of a negative number.
const NEGATIVE: u8 = 15;
