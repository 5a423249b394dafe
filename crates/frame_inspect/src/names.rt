//! The name of a data record, for people.
ghost use Rattle.std.specs.Prelude.{◌≡◌};
ghost use Rattle.paper.specs.Puts.{Puts};
ghost use Rattle.plain_text.specs.Parts.{is_word};
ghost use Rattle.frame_inspect.specs.Names.{spaced, qualifier_words, qualified_text, function_words, numbered, register_words, name_text, unit_words};

use dif_vif::RecordSpan;
use full_records::{FullQuantity, FullUnitName, Qualifier};
use full_text::{full_quantity_word, full_unit_word, put_qualifiers};
use paper::{Paper, put_labelled, put_labelled_bytes, put_text};
use record_text::function_word;

#[tactic(auto, unfolding(crate::specs::Names::spaced), using(paper::proofs::Calls::two_make))]
fn put_spaced<P: Paper>(paper: &mut P, word: &str)
    ensures { Puts P.takes paper.old (spaced word.now) paper.new }
{
    put_text(paper, " ");
    put_text(paper, word);
}

#[tactic(auto, unfolding(crate::specs::Names::qualifier_words), using(paper::proofs::Calls::two_make))]
fn put_qualifier_words<P: Paper>(paper: &mut P, qualifiers: &[Qualifier], unset: bool)
    ensures { Puts P.takes paper.old (qualifier_words qualifiers.now unset) paper.new }
{
    put_text(paper, " ");
    put_qualifiers(paper, qualifiers, unset);
}

#[tactic(auto, using(paper::proofs::Calls::none))]
fn put_qualified<P: Paper>(paper: &mut P, qualifiers: &[Qualifier], unset: bool)
    ensures { Puts P.takes paper.old (qualified_text qualifiers.now unset) paper.new }
{
    if unset || qualifiers.len() > 0 {
        put_qualifier_words(paper, qualifiers, unset);
    }
}

#[tactic(auto, using(paper::proofs::Calls::none))]
fn put_function<P: Paper>(paper: &mut P, span: &RecordSpan)
    ensures { Puts P.takes paper.old (function_words span.now) paper.new }
{
    if span.maker {
        put_labelled_bytes(paper, " maker ", &[span.dif]);
    } else if span.function != 0 {
        put_spaced(paper, function_word(span.function));
    }
}

// Puts a word and its number, unless that is nought.
#[tactic(auto, using(paper::proofs::Calls::none))]
fn put_numbered<P: Paper>(paper: &mut P, word: &str, number: u64)
    ensures { Puts P.takes paper.old (numbered word.now number) paper.new }
{
    if number != 0 {
        put_labelled(paper, word, number);
    }
}

#[tactic(auto, unfolding(crate::specs::Names::register_words), using(paper::proofs::Calls::three_make))]
fn put_register<P: Paper>(paper: &mut P, span: &RecordSpan)
    ensures { Puts P.takes paper.old (register_words span.now) paper.new }
{
    put_numbered(paper, " storage ", span.storage);
    put_numbered(paper, " tariff ", span.tariff as u64);
    put_numbered(paper, " subunit ", span.subunit as u64);
}

/// Puts the name of a data record: its quantity, its qualifiers, and what tells its register from the plain one.
#[tactic(auto, unfolding(crate::specs::Names::name_text), using(paper::proofs::Calls::four_make))]
pub fn put_name<P: Paper>(
    paper: &mut P,
    quantity: FullQuantity,
    qualifiers: &[Qualifier],
    unset: bool,
    span: &RecordSpan,
)
    ensures { Puts P.takes paper.old (name_text quantity qualifiers.now unset span.now) paper.new }
{
    put_text(paper, full_quantity_word(quantity));
    put_qualified(paper, qualifiers, unset);
    put_function(paper, span);
    put_register(paper, span);
}

// Whether a word is this one.
fn is_word(text: &str, word: &str) -> bool
    ensures { result ≡ is_word text.now word.now }
{
    text.as_bytes() == word.as_bytes()
}

/// Puts a unit behind a space, unless there is none.
#[tactic(auto, using(paper::proofs::Calls::none))]
pub(crate) fn put_unit<P: Paper>(paper: &mut P, unit: FullUnitName)
    ensures { Puts P.takes paper.old (unit_words unit) paper.new }
{
    let word = full_unit_word(unit);
    if !is_word(word, "-") {
        put_spaced(paper, word);
    }
}
