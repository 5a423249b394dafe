//! The text of a value.

ghost use Rattle.std.specs.Prelude.{◌≡◌, ◌++◌, codes};
ghost use Rattle.full_text.specs.declared.backwards.ByteForm.TheVariants as ByteForm;
ghost use Rattle.paper.specs.Puts.{Puts};
ghost use Rattle.full_text.specs.Values.{backwards, day_text, decimal_or, full_value_text, long_moment_text, marks_text, minute_text, moment_text, part_text, real_times, real_word, time_text, year_text};

use crate::backwards::{ByteForm, put_backwards};
use crate::decimals::{put_decimal, put_times_ten};
use crate::reals::{Decimal, exponent_bits, fraction_bits, is_negative, real_decimal};
use full_records::{Day, FullValue, LongMoment, Moment, TimeOfDay};
use paper::{Paper, put_text};
use record_text::{put_four, put_marked, put_two};

fn put_part<P: Paper>(paper: &mut P, part: Option<u8>)
    ensures { Puts P.takes paper.old (part_text part) paper.new }
{
    match part {
        None => put_text(paper, "*"),
        Some(number) => put_two(paper, u16::from(number)),
    }
}

fn put_year<P: Paper>(paper: &mut P, year: Option<u16>)
    ensures { Puts P.takes paper.old (year_text year) paper.new }
{
    match year {
        None => put_text(paper, "*"),
        Some(year) => put_four(paper, year),
    }
}

#[tactic(auto, unfolding(crate::specs::Values::day_text), using(paper::proofs::Calls::five_make))]
fn put_day<P: Paper>(paper: &mut P, day: Day)
    ensures { Puts P.takes paper.old (day_text day) paper.new }
{
    put_year(paper, day.year);
    put_text(paper, "-");
    put_part(paper, day.month);
    put_text(paper, "-");
    put_part(paper, day.day);
}

#[tactic(auto, unfolding(crate::specs::Values::minute_text), using(paper::proofs::Calls::three_make))]
fn put_minute<P: Paper>(paper: &mut P, hour: Option<u8>, minute: Option<u8>)
    ensures { Puts P.takes paper.old (minute_text hour minute) paper.new }
{
    put_part(paper, hour);
    put_text(paper, ":");
    put_part(paper, minute);
}

#[tactic(auto, unfolding(crate::specs::Values::time_text), using(paper::proofs::Calls::three_make))]
fn put_time<P: Paper>(paper: &mut P, time: TimeOfDay)
    ensures { Puts P.takes paper.old (time_text time) paper.new }
{
    put_minute(paper, time.hour, time.minute);
    put_text(paper, ":");
    put_part(paper, time.second);
}

#[tactic(auto, unfolding(crate::specs::Values::marks_text), using(paper::proofs::Calls::two_make))]
fn put_marks<P: Paper>(paper: &mut P, invalid: bool, summer: bool)
    ensures { Puts P.takes paper.old (marks_text invalid summer) paper.new }
{
    put_marked(paper, "!", invalid);
    put_marked(paper, "+", summer);
}

#[tactic(auto, unfolding(crate::specs::Values::moment_text), using(paper::proofs::Calls::four_make))]
fn put_moment<P: Paper>(paper: &mut P, moment: Moment)
    ensures { Puts P.takes paper.old (moment_text moment) paper.new }
{
    put_day(paper, moment.day);
    put_text(paper, "T");
    put_minute(paper, moment.hour, moment.minute);
    put_marks(paper, moment.invalid, moment.summer);
}

#[tactic(auto, unfolding(crate::specs::Values::long_moment_text), using(paper::proofs::Calls::four_make))]
fn put_long_moment<P: Paper>(paper: &mut P, moment: LongMoment)
    ensures { Puts P.takes paper.old (long_moment_text moment) paper.new }
{
    put_day(paper, moment.day);
    put_text(paper, "T");
    put_time(paper, moment.time);
    put_marks(paper, moment.invalid, moment.summer);
}

/// A real number times ten to a power, exactly, where its digits have at most 127 bits.
pub(crate) fn real_times(bits: u32, power: i16) -> Option<Decimal>
    ensures { result ≡ real_times bits power }
{
    let real = real_decimal(bits)?;
    Some(Decimal {
        whole: real.whole,
        exponent: i32::from(power) + real.exponent,
    })
}

fn real_word(bits: u32) -> &'static str
    ensures { result.now ≡ real_word bits }
{
    if exponent_bits(bits) != 255 {
        return "raw";
    }
    if fraction_bits(bits) != 0 {
        return "NaN";
    }
    if is_negative(bits) { "-inf" } else { "inf" }
}

fn put_real<P: Paper>(paper: &mut P, bits: u32, power: i16)
    ensures { Puts P.takes paper.old (decimal_or (real_times bits power) (real_word bits)) paper.new }
{
    match real_times(bits, power) {
        Some(decimal) => put_decimal(paper, decimal),
        None => put_text(paper, real_word(bits)),
    }
}

#[tactic(auto, using(paper::proofs::Calls::two_make))]
fn put_bits<P: Paper>(paper: &mut P, sent: &[u8])
    ensures { Puts P.takes paper.old (codes "0x" ++ backwards ByteForm.Digits sent.now) paper.new }
{
    put_text(paper, "0x");
    put_backwards(paper, ByteForm::Digits, sent);
}

/// Puts the value of a record whose data were sent so: a number as exact decimal text, bits in hexadecimal, a date or a
/// time with a star for each part that stands for every one and with `!` where it is invalid and `+` in summer time, a
/// text by its characters.
pub fn put_full_value<P: Paper>(paper: &mut P, value: FullValue, sent: &[u8])
    ensures { Puts P.takes paper.old (full_value_text value sent.now) paper.new }
{
    match value {
        FullValue::Nothing => put_text(paper, "-"),
        FullValue::Number { whole, exponent } => put_times_ten(paper, whole, i32::from(exponent)),
        FullValue::Real { bits, exponent } => put_real(paper, bits, exponent),
        FullValue::Bits(_) => put_bits(paper, sent),
        FullValue::Day(day) => put_day(paper, day),
        FullValue::Time(time) => put_time(paper, time),
        FullValue::Moment(moment) => put_moment(paper, moment),
        FullValue::LongMoment(moment) => put_long_moment(paper, moment),
        FullValue::Text => put_backwards(paper, ByteForm::Character, sent),
        FullValue::Withheld => put_text(paper, "withheld"),
        FullValue::Raw => put_text(paper, "raw"),
    }
}
