//! What a record says beside its value: the number that it counts, and its qualifiers in words.

ghost use Rattle.std.specs.Prelude.{◌≡◌, false};
ghost use Rattle.full_records.specs.declared.values.FullValue.TheVariants.{Number};
ghost use Rattle.paper.specs.Puts.{Puts};
ghost use Rattle.full_text.specs.Said.{coded_text, counted, is_open, one_qualifier_text, qualifiers_text, space_if, unset_text, unset_words};

use crate::reals::Decimal;
use crate::values::real_times;
use crate::words::qualifier_word;
use full_records::{FullValue, Qualifier, QualifierName};
use paper::{Paper, put_hex, put_text};

/// From this on a whole number has more than fifteen digits.
const FIFTEEN_DIGITS: u128 = 1_000_000_000_000_000;

fn few_digits(whole: i128, exponent: i16) -> Option<Decimal>
    ensures { result ≡ counted (Number whole exponent) false }
{
    if whole.unsigned_abs() < FIFTEEN_DIGITS {
        Some(Decimal {
            whole,
            exponent: i32::from(exponent),
        })
    } else {
        None
    }
}

/// The number of a value: a decimal of at most fifteen digits, which a number of JSON holds exactly, or a real number.
/// Data that stand for no value have none, and neither have bits, dates, times and texts.
pub fn counted_of(value: FullValue, unset: bool) -> Option<Decimal>
    ensures { result ≡ counted value unset }
{
    if unset {
        return None;
    }
    match value {
        FullValue::Number { whole, exponent } => few_digits(whole, exponent),
        FullValue::Real { bits, exponent } => real_times(bits, exponent),
        _ => None,
    }
}

/// Whether a word leaves open which code it stands for.
fn is_open(name: QualifierName) -> bool
    ensures { result ≡ is_open name }
{
    match name {
        QualifierName::Factor
        | QualifierName::Constant
        | QualifierName::Extended
        | QualifierName::Kept => true,
        _ => false,
    }
}

#[tactic(auto, unfolding(crate::specs::Said::coded_text), using(paper::proofs::Calls::three_make))]
fn put_coded<P: Paper>(paper: &mut P, qualifier: &Qualifier)
    ensures { Puts P.takes paper.old (coded_text qualifier.now) paper.new }
{
    put_text(paper, qualifier_word(qualifier.name));
    put_text(paper, "-");
    put_hex(paper, &[qualifier.code]);
}

fn put_qualifier<P: Paper>(paper: &mut P, qualifier: &Qualifier)
    ensures { Puts P.takes paper.old (one_qualifier_text qualifier.now) paper.new }
{
    if is_open(qualifier.name) {
        put_coded(paper, qualifier);
    } else {
        put_text(paper, qualifier_word(qualifier.name));
    }
}

#[tactic(auto, using(paper::proofs::Calls::none))]
fn put_space_if<P: Paper>(paper: &mut P, later: bool)
    ensures { Puts P.takes paper.old (space_if later) paper.new }
{
    if later {
        put_text(paper, " ");
    }
}

#[tactic(auto, unfolding(crate::specs::Said::unset_words), using(paper::proofs::Calls::two_make))]
fn put_unset_words<P: Paper>(paper: &mut P, later: bool)
    ensures { Puts P.takes paper.old (unset_words later) paper.new }
{
    put_space_if(paper, later);
    put_text(paper, "unset");
}

#[tactic(auto, using(paper::proofs::Calls::none))]
fn put_unset<P: Paper>(paper: &mut P, later: bool, unset: bool)
    ensures { Puts P.takes paper.old (unset_text later unset) paper.new }
{
    if unset {
        put_unset_words(paper, later);
    }
}

/// Puts the words of further VIFEs, a space between two, and behind them `unset` where the data stand for no value. The
/// code stands behind a word that leaves it open.
pub fn put_qualifiers<P: Paper>(paper: &mut P, qualifiers: &[Qualifier], unset: bool)
    ensures { Puts P.takes paper.old (qualifiers_text qualifiers.now unset) paper.new }
{
    let mut later = false;
    for qualifier in qualifiers {
        put_space_if(paper, later);
        put_qualifier(paper, qualifier);
        later = true;
    }
    put_unset(paper, later, unset);
}
