//! Plain decimal numbers.
ghost use Rattle.std.specs.Prelude.{◌≡◌, ◌≢◌, ◌≤◌, ◌+◌, ◌-◌, ◌*◌, ◌==◌, ◌&&◌, ◌||◌, not, ℕ, nat_lt, nat_le};
ghost use Rattle.std.specs.Prelude.{length, slice_index, Some, None, IsTrue, MatchOption, if◌then◌else◌};
ghost use Rattle.std.specs.Fmt.{decimal};
ghost use Rattle.std.specs.Char.{is_ascii_digit};
ghost use Rattle.std.specs.List.{list_all};
ghost use Rattle.std.specs.Str.Parse.{digits_value};
ghost use Rattle.plain_text.specs.Numbers.{is_plain, number_of};

// One digit, or several of which the first is no zero.
fn has_no_leading_zero(text: &[u8]) -> bool
    ensures { result ≡ (length text.now == 1 || nat_lt 1 (length text.now) && not (slice_index text.now 0 == 48)) }
{
    match text {
        [] => false,
        [_] => true,
        [first, ..] => *first != b'0',
    }
}

fn is_all_digits(text: &[u8]) -> bool
    ensures { result ≡ list_all is_ascii_digit text.now }
{
    text.iter().all(|byte| byte.is_ascii_digit())
}

// Whether the text is a number in its one plain spelling.
fn has_plain_form(text: &[u8]) -> bool
    ensures { result ≡ is_plain text.now }
{
    is_all_digits(text) && has_no_leading_zero(text)
}

// The value with one more digit, where it is at most `most`.
fn with_digit(value: u64, byte: u8, most: u64) -> Option<u64>
    ensures { result ≡ (if nat_le (value * 10 + (byte - 48)) most then Some (value * 10 + (byte - 48)) else None) }
{
    let digit = u64::from(byte.saturating_sub(b'0'));
    if digit <= most && value <= (most - digit) / 10 {
        Some(value * 10 + digit)
    } else {
        None
    }
}

// The value of digits, where it is at most `most`.
fn value_up_to(digits: &[u8], most: u64) -> Option<u64>
    requires { IsTrue (list_all is_ascii_digit digits.now) }
    ensures { result ≡ (if nat_le (digits_value 10 digits.now) most then Some (digits_value 10 digits.now) else None) }
{
    let mut value = 0u64;
    for byte in digits {
        value = with_digit(value, *byte, most)?;
    }
    Some(value)
}

/// The number that a text writes in decimal digits, without a sign and with no leading zero but that of `0` itself, if it is
/// at most `most`.
pub fn read_number(text: &[u8], most: u64) -> Option<u64>
    ensures exact { result ≡ number_of most text.now }

    // The text is a number exactly where it is what is written for that number.
    ensures written { MatchOption result ((n : ℕ) → n ≤ most → text.now ≢ decimal n) (λ n. (n ≤ most) × (text.now ≡ decimal n)) }
{
    if has_plain_form(text) {
        value_up_to(text, most)
    } else {
        None
    }
}
