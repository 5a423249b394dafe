//! Real numbers as exact decimals (EN 13757-3, annex A, type H; IEEE 754, binary32).

ghost use Rattle.std.specs.Prelude.{◌≡◌, ◌/◌, ◌^◌, ◌<◌, ◌≤◌, IsTrue};
ghost use Rattle.full_text.specs.Reals.{exponent_bits, fraction_bits, halvings, is_negative, is_told, places, power, real_decimal, signed, significand, size};

/// A decimal number: `whole` times ten to the power of `exponent`.
#[derive(Clone, Copy)]
pub struct Decimal {
    /// The digits, with their sign.
    pub whole: i128,
    /// The power of ten.
    pub exponent: i32,
}

/// The eight bits of the exponent: all are set where the number isn't finite.
pub(crate) fn exponent_bits(word: u32) -> u32
    ensures value { result ≡ exponent_bits word }
    ensures below { result < 256 }
{
    word / 0x80_0000 % 256
}

/// The twenty-three bits of the fraction.
pub(crate) fn fraction_bits(word: u32) -> u32
    ensures value { result ≡ fraction_bits word }
    ensures below { result < 2 ^ 23 }
{
    word % 0x80_0000
}

/// Whether a number has a minus.
pub(crate) fn is_negative(word: u32) -> bool
    ensures { result ≡ is_negative word }
{
    word >= 0x8000_0000
}

fn significand(word: u32) -> u32
    ensures value { result ≡ significand word }
    ensures below { result < 2 ^ 24 }
{
    if exponent_bits(word) == 0 {
        fraction_bits(word)
    } else {
        0x80_0000 + fraction_bits(word)
    }
}

fn power(word: u32) -> u32
    ensures value { result ≡ power word }
    ensures below { result < 256 }
{
    exponent_bits(word).max(1)
}

/// How often the significand is halved, as far as it is divided by twos at all.
fn halvings(word: u32) -> u32
    ensures value { result ≡ halvings word }
    ensures few { result ≤ 32 }
{
    let divided = 150u32.saturating_sub(power(word));
    significand(word).trailing_zeros().min(divided)
}

/// How many digits stand behind the point.
fn places(word: u32) -> u32
    ensures value { result ≡ places word }
    ensures few { result ≤ 150 }
{
    if significand(word) == 0 {
        return 0;
    }
    150u32
        .saturating_sub(power(word))
        .saturating_sub(halvings(word))
}

/// Whether a real number is finite, and its digits have at most 127 bits.
fn is_told(word: u32) -> bool
    ensures { result ≡ is_told word }
{
    power(word) <= MOST_POWER && places(word) <= MOST_PLACES
}

const MOST_POWER: u32 = 251;

const MOST_PLACES: u32 = 44;

/// The significand times a power of two that isn't below one.
fn doubled(word: u32) -> u128
    requires within { power word ≤ 251 }
    requires whole { 150 ≤ power word }
    ensures value { result ≡ size word }
    ensures below { result < 2 ^ 127 }
{
    u128::from(significand(word)) * 2u128.pow(power(word) - 150)
}

/// The significand, halved as often as it can be.
#[tactic(auto, using(crate::proofs::Sizes::halved_small))]
fn halved(word: u32) -> u32
    ensures value { result ≡ significand word / 2 ^ halvings word }
    ensures below { result < 2 ^ 24 }
{
    (u64::from(significand(word)) / 2u64.pow(halvings(word))) as u32
}

/// The significand divided by a power of two, as digits of which the last ones stand behind the point.
fn divided(word: u32) -> u128
    requires within { places word ≤ 44 }
    requires parted { power word < 150 }
    ensures value { result ≡ size word }
    ensures below { result < 2 ^ 127 }
{
    u128::from(halved(word)) * 5u128.pow(places(word))
}

fn size(word: u32) -> u128
    requires { IsTrue (is_told word) }
    ensures value { result ≡ size word }
    ensures below { result < 2 ^ 127 }
{
    if power(word) < 150 {
        divided(word)
    } else {
        doubled(word)
    }
}

fn signed(word: u32, size: u128) -> i128
    requires { size < 2 ^ 127 }
    ensures { result ≡ signed word size }
{
    if is_negative(word) {
        -(size as i128)
    } else {
        size as i128
    }
}

/// A real number as a decimal, exactly; `None` for infinity, for what is no number, and where the digits have more than
/// 127 bits, which those from 2^-21 on to below 2^125 never have.
pub fn real_decimal(word: u32) -> Option<Decimal>
    ensures { result ≡ real_decimal word }
{
    if !is_told(word) {
        return None;
    }
    Some(Decimal {
        whole: signed(word, size(word)),
        exponent: -(places(word) as i32),
    })
}
