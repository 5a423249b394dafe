//! Hexadecimal digits.
ghost use Rattle.std.specs.Prelude.{◌≡◌, ◌*◌, ℕ, length, Some, None, MatchResult, unwrap_or};
ghost use Rattle.std.specs.Result.{result_ok};
ghost use Rattle.hex.specs.Hex.{hex_digit_value, pair_value, decode_of};

// The value of each byte that is a digit, of either case, and 256 for any other byte.
const DIGIT_VALUES: [u16; 256] = [
    256, 256, 256, 256, 256, 256, 256, 256, 256, 256, 256, 256, 256, 256, 256, 256, 256, 256, 256,
    256, 256, 256, 256, 256, 256, 256, 256, 256, 256, 256, 256, 256, 256, 256, 256, 256, 256, 256,
    256, 256, 256, 256, 256, 256, 256, 256, 256, 256, 0, 1, 2, 3, 4, 5, 6, 7, 8, 9, 256, 256, 256,
    256, 256, 256, 256, 10, 11, 12, 13, 14, 15, 256, 256, 256, 256, 256, 256, 256, 256, 256, 256,
    256, 256, 256, 256, 256, 256, 256, 256, 256, 256, 256, 256, 256, 256, 256, 256, 10, 11, 12, 13,
    14, 15, 256, 256, 256, 256, 256, 256, 256, 256, 256, 256, 256, 256, 256, 256, 256, 256, 256,
    256, 256, 256, 256, 256, 256, 256, 256, 256, 256, 256, 256, 256, 256, 256, 256, 256, 256, 256,
    256, 256, 256, 256, 256, 256, 256, 256, 256, 256, 256, 256, 256, 256, 256, 256, 256, 256, 256,
    256, 256, 256, 256, 256, 256, 256, 256, 256, 256, 256, 256, 256, 256, 256, 256, 256, 256, 256,
    256, 256, 256, 256, 256, 256, 256, 256, 256, 256, 256, 256, 256, 256, 256, 256, 256, 256, 256,
    256, 256, 256, 256, 256, 256, 256, 256, 256, 256, 256, 256, 256, 256, 256, 256, 256, 256, 256,
    256, 256, 256, 256, 256, 256, 256, 256, 256, 256, 256, 256, 256, 256, 256, 256, 256, 256, 256,
    256, 256, 256, 256, 256, 256, 256, 256, 256, 256, 256, 256, 256, 256, 256, 256, 256, 256, 256,
    256, 256, 256,
];

#[tactic(auto, using(crate::proofs::DigitLemmas::digit_value_at))]
fn digit_value(byte: u8) -> u16
    ensures { result ≡ unwrap_or (hex_digit_value byte) 256 }
{
    DIGIT_VALUES[byte as usize]
}

// The byte of two digits. Where one is none, its 256 makes the sum too large for a byte.
fn byte_of(high: u8, low: u8) -> Option<u8>
    ensures { (place : ℕ) → result ≡ result_ok (pair_value high low place) }
{
    let value = digit_value(high) * 16 + digit_value(low);
    if value < 256 { Some(value as u8) } else { None }
}

/// Writes the bytes of pairs of digits, unless one of these is no digit.
pub(crate) fn decode(digits: &[u8], bytes: &mut [u8]) -> Option<()>
    requires { length digits.now ≡ 2 * length bytes.old }
    ensures { MatchResult (decode_of digits.now)
        (λ decoded. (result ≡ Some tt) × (bytes.new ≡ decoded))
        (λ e. result ≡ None) }
{
    for place in 0..bytes.len() {
        bytes[place] = byte_of(digits[2 * place], digits[2 * place + 1])?;
    }
    Some(())
}
