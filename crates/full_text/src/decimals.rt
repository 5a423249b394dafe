//! Numbers times powers of ten, as exact decimal text.
ghost use Rattle.paper.specs.Puts.{Puts};
ghost use Rattle.full_text.specs.Decimals.{zeros, pointed, lengthened, scaled, sign_of, decimal_text};

use crate::reals::Decimal;
use itoa::Buffer;
use paper::{Paper, put_text};

// Puts zeros, so many.
fn put_zeros<P: Paper>(paper: &mut P, count: usize)
    ensures { Puts P.takes paper.old (zeros count) paper.new }
{
    let mut left = count;
    'zeros: while left > 0 {
        put_text(paper, "0");
        left -= 1;
    }
}

#[tactic(auto, using(paper::proofs::Calls::once))]
fn put_bytes<P: Paper>(paper: &mut P, bytes: &[u8])
    ensures { Puts P.takes paper.old bytes.now paper.new }
{
    paper.put(bytes);
}

// Puts digits with a point in front of the last ones, so many.
#[tactic(auto, unfolding(crate::specs::Decimals::pointed), using(paper::proofs::Calls::three_make))]
fn put_pointed<P: Paper>(paper: &mut P, digits: &[u8], behind: usize)
    ensures { Puts P.takes paper.old (pointed digits.now behind) paper.new }
{
    if behind < digits.len() {
        let (whole, rest) = digits.split_at(digits.len() - behind);
        put_bytes(paper, whole);
        put_text(paper, ".");
        put_bytes(paper, rest);
    } else {
        put_text(paper, "0.");
        put_zeros(paper, behind - digits.len());
        put_bytes(paper, digits);
    }
}

// Puts a number with zeros behind it, unless it is nought.
#[tactic(auto, unfolding(crate::specs::Decimals::lengthened), using(paper::proofs::Calls::two_make))]
fn put_lengthened<P: Paper>(paper: &mut P, number: u128, count: usize)
    ensures { Puts P.takes paper.old (lengthened number count) paper.new }
{
    let mut buffer = Buffer::new();
    let digits = buffer.format(number);
    if number == 0 {
        put_text(paper, digits);
    } else {
        put_text(paper, digits);
        put_zeros(paper, count);
    }
}

// Puts a number times ten to the power of an exponent.
fn put_scaled<P: Paper>(paper: &mut P, number: u128, exponent: i32)
    ensures { Puts P.takes paper.old (scaled number exponent) paper.new }
{
    let places = exponent.unsigned_abs() as usize;
    if exponent < 0 {
        let mut buffer = Buffer::new();
        put_pointed(paper, buffer.format(number).as_bytes(), places);
    } else {
        put_lengthened(paper, number, places);
    }
}

#[tactic(auto, using(paper::proofs::Calls::none))]
fn put_sign<P: Paper>(paper: &mut P, number: i128)
    ensures { Puts P.takes paper.old (sign_of number) paper.new }
{
    if number < 0 {
        put_text(paper, "-");
    }
}

/// Puts a number below zero or not times ten to the power of an exponent.
#[tactic(auto, unfolding(crate::specs::Decimals::decimal_text), using(paper::proofs::Calls::two_make))]
pub(crate) fn put_times_ten<P: Paper>(paper: &mut P, whole: i128, exponent: i32)
    ensures { Puts P.takes paper.old (decimal_text whole exponent) paper.new }
{
    put_sign(paper, whole);
    put_scaled(paper, whole.unsigned_abs(), exponent);
}

/// Puts a decimal number as exact text: a point stands where the exponent is below zero, with as many digits behind it,
/// and else zeros stand behind the number.
pub fn put_decimal<P: Paper>(paper: &mut P, decimal: Decimal)
    ensures { Puts P.takes paper.old (decimal_text decimal.whole decimal.exponent) paper.new }
{
    put_times_ten(paper, decimal.whole, decimal.exponent);
}
