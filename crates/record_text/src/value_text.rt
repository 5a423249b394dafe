//! The text of a value.

ghost use Rattle.std.specs.Prelude.{◌≡◌, ◌++◌};
ghost use Rattle.paper.specs.Puts.{Puts};
ghost use Rattle.record_text.specs.Values.{hex_text, two_digits, four_digits, day_text, time_text, marked, value_text};

use paper::{Paper, put_hex, put_number, put_signed, put_text};
use record_values::Value;

/// Bytes in hexadecimal, or a dash for none.
pub fn put_bytes<P: Paper>(paper: &mut P, bytes: &[u8])
    ensures { Puts P.takes paper.old (hex_text bytes.now) paper.new }
{
    match bytes {
        [] => put_text(paper, "-"),
        [_, ..] => put_hex(paper, bytes),
    }
}

/// The last two digits of a number.
#[tactic(auto, unfolding(crate::specs::Values::two_digits), using(paper::proofs::Calls::two_make))]
pub fn put_two<P: Paper>(paper: &mut P, number: u16)
    ensures { Puts P.takes paper.old (two_digits number) paper.new }
{
    put_number(paper, u64::from(number / 10 % 10));
    put_number(paper, u64::from(number % 10));
}

/// The last four digits of a number.
#[tactic(auto, unfolding(crate::specs::Values::four_digits), using(paper::proofs::Calls::two_make))]
pub fn put_four<P: Paper>(paper: &mut P, number: u16)
    ensures { Puts P.takes paper.old (four_digits number) paper.new }
{
    put_two(paper, number / 100);
    put_two(paper, number);
}

#[tactic(auto, unfolding(crate::specs::Values::day_text), using(paper::proofs::Calls::five_make))]
fn put_day<P: Paper>(paper: &mut P, year: u16, month: u8, day: u8)
    ensures { Puts P.takes paper.old (day_text year month day) paper.new }
{
    put_four(paper, year);
    put_text(paper, "-");
    put_two(paper, u16::from(month));
    put_text(paper, "-");
    put_two(paper, u16::from(day));
}

#[tactic(auto, unfolding(crate::specs::Values::time_text), using(paper::proofs::Calls::four_make))]
fn put_time<P: Paper>(paper: &mut P, hour: u8, minute: u8)
    ensures { Puts P.takes paper.old (time_text hour minute) paper.new }
{
    put_text(paper, "T");
    put_two(paper, u16::from(hour));
    put_text(paper, ":");
    put_two(paper, u16::from(minute));
}

/// A sign, where something holds.
#[tactic(auto, using(paper::proofs::Calls::none))]
pub fn put_marked<P: Paper>(paper: &mut P, sign: &str, holds: bool)
    ensures { Puts P.takes paper.old (marked sign.now holds) paper.new }
{
    if holds {
        put_text(paper, sign);
    }
}

/// The value of a record.
#[tactic(auto, using(paper::proofs::Calls::four_make))]
pub fn put_value<P: Paper>(paper: &mut P, value: Value)
    ensures { Puts P.takes paper.old (value_text value) paper.new }
{
    match value {
        Value::None => put_text(paper, "-"),
        Value::Whole(number) => put_signed(paper, number),
        Value::Raw => put_text(paper, "raw"),
        Value::Text => put_text(paper, "text"),
        Value::Day { year, month, day } => put_day(paper, year, month, day),
        Value::Moment {
            year,
            month,
            day,
            hour,
            minute,
            invalid,
            summer,
        } => {
            put_day(paper, year, month, day);
            put_time(paper, hour, minute);
            put_marked(paper, "!", invalid);
            put_marked(paper, "+", summer);
        }
    }
}
