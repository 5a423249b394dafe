//! A record's text in either form, piece by piece.
ghost use Rattle.std.specs.Prelude.{◌≡◌};
ghost use Rattle.paper.specs.Puts.{Puts};
ghost use Rattle.full_spans.specs.Long.{IsFullSpan};
ghost use Rattle.record_values.specs.declared.units.Quantity.TheVariants.{Unknown};
ghost use Rattle.record_objects.specs.Records.{function_words, is_renamed, shown};
ghost use Rattle.record_objects.specs.Words.{register_words, measure_words, number_words, value_words, kind_words, named_words};
ghost use Rattle.record_objects.specs.Words.{profile_words, told_words, plain_words, byte_words, read_words, record_words};

use crate::forms::{Form, Member};
use dif_vif::RecordSpan;
use full_records::{
    DataType, FullQuantity, FullUnitName, FullValue, PlainValue, Qualifier, full_record_of,
    full_unit_of,
};
use full_text::{
    Decimal, counted_of, full_quantity_word, full_unit_word, put_decimal, put_full_value,
    put_qualifiers, type_word,
};
use paper::{Paper, put_hex, put_labelled, put_labelled_bytes, put_text};
use record_text::{bytes_at, function_word, quantity_word};
use record_values::Quantity;

fn put_function<P: Paper>(paper: &mut P, span: &RecordSpan)
    ensures { Puts P.takes paper.old (function_words span.now) paper.new }
{
    if span.maker {
        put_labelled_bytes(paper, "maker ", &[span.dif]);
    } else {
        put_text(paper, function_word(span.function));
    }
}

#[tactic(auto, unfolding(crate::specs::Words::register_words), using(paper::proofs::Calls::six_make))]
fn put_register<P: Paper>(paper: &mut P, form: Form, number: u64, span: &RecordSpan)
    ensures { Puts P.takes paper.old (register_words form number span.now) paper.new }
{
    put_labelled(paper, form.before(Member::Record), number);
    put_text(paper, form.before(Member::Function));
    put_function(paper, span);
    put_labelled(paper, form.before(Member::Storage), span.storage);
    put_labelled(paper, form.before(Member::Tariff), u64::from(span.tariff));
    put_labelled(paper, form.before(Member::Subunit), u64::from(span.subunit));
}

#[tactic(auto, unfolding(crate::specs::Words::measure_words), using(paper::proofs::Calls::four_make))]
fn put_measure<P: Paper>(paper: &mut P, form: Form, quantity: FullQuantity, unit: FullUnitName)
    ensures { Puts P.takes paper.old (measure_words form quantity unit) paper.new }
{
    put_text(paper, form.before(Member::Quantity));
    put_text(paper, full_quantity_word(quantity));
    put_text(paper, form.before(Member::Unit));
    put_text(paper, full_unit_word(unit));
}

fn put_number<P: Paper>(paper: &mut P, form: Form, number: Option<Decimal>)
    ensures { Puts P.takes paper.old (number_words form number) paper.new }
{
    match number {
        None => put_text(paper, form.no_number()),
        Some(number) => put_decimal(paper, number),
    }
}

#[tactic(auto, unfolding(crate::specs::Words::value_words), using(paper::proofs::Calls::four_make))]
fn put_value<P: Paper>(paper: &mut P, form: Form, value: FullValue, unset: bool, sent: &[u8])
    ensures { Puts P.takes paper.old (value_words form value unset sent.now) paper.new }
{
    put_text(paper, form.before(Member::Value));
    put_full_value(paper, value, sent);
    put_text(paper, form.before(Member::Number));
    put_number(paper, form, counted_of(value, unset));
}

#[tactic(auto, unfolding(crate::specs::Words::kind_words), using(paper::proofs::Calls::four_make))]
fn put_kind<P: Paper>(
    paper: &mut P,
    form: Form,
    qualifiers: &[Qualifier],
    unset: bool,
    data_type: DataType,
)
    ensures { Puts P.takes paper.old (kind_words form qualifiers.now unset data_type) paper.new }
{
    put_text(paper, form.before(Member::Qualifiers));
    put_qualifiers(paper, qualifiers, unset);
    put_text(paper, form.before(Member::Type));
    put_text(paper, type_word(data_type));
}

fn is_known(quantity: FullQuantity) -> bool
    ensures { result ≡ is_renamed Unknown quantity }
{
    match quantity {
        FullQuantity::Profile(Quantity::Unknown) => false,
        _ => true,
    }
}

// Whether the whole standard names a quantity that the profile doesn't.
fn is_renamed(profile: Quantity, quantity: FullQuantity) -> bool
    ensures { result ≡ is_renamed profile quantity }
{
    match profile {
        Quantity::Unknown => is_known(quantity),
        _ => false,
    }
}

#[tactic(auto, unfolding(crate::specs::Words::named_words), using(paper::proofs::Calls::two_make))]
fn put_named<P: Paper>(paper: &mut P, form: Form, profile: Quantity)
    ensures { Puts P.takes paper.old (named_words form profile) paper.new }
{
    put_text(paper, form.before(Member::ProfileQuantity));
    put_text(paper, quantity_word(profile));
}

fn put_profile<P: Paper>(paper: &mut P, form: Form, profile: Quantity, quantity: FullQuantity)
    ensures { Puts P.takes paper.old (profile_words form profile quantity) paper.new }
{
    if is_renamed(profile, quantity) {
        put_named(paper, form, profile);
    } else {
        put_text(paper, form.no_member());
    }
}

#[tactic(auto, unfolding(crate::specs::Words::told_words), using(paper::proofs::Calls::four_make))]
fn put_told<P: Paper>(paper: &mut P, form: Form, plain: PlainValue, sent: &[u8])
    ensures { Puts P.takes paper.old (told_words form plain sent.now) paper.new }
{
    put_text(paper, form.before(Member::AsPlain));
    put_full_value(paper, plain.value, sent);
    put_text(paper, " ");
    put_text(paper, full_unit_word(plain.unit));
}

// Puts what the VIF alone makes of data that are the manufacturer's own.
fn put_plain<P: Paper>(paper: &mut P, form: Form, plain: Option<PlainValue>, sent: &[u8])
    ensures { Puts P.takes paper.old (plain_words form plain sent.now) paper.new }
{
    match plain {
        None => put_text(paper, form.no_member()),
        Some(plain) => put_told(paper, form, plain, sent),
    }
}

// The data as they are shown.
fn shown(data_type: DataType, sent: &[u8]) -> &[u8]
    ensures { result.now ≡ shown data_type sent.now }
{
    match data_type {
        DataType::Withheld => &[],
        _ => sent,
    }
}

#[tactic(auto, unfolding(crate::specs::Words::byte_words), using(paper::proofs::Calls::five_make))]
fn put_byte_words<P: Paper>(paper: &mut P, form: Form, modifiers: &[u8], sent: &[u8])
    ensures { Puts P.takes paper.old (byte_words form modifiers.now sent.now) paper.new }
{
    put_text(paper, form.before(Member::Modifiers));
    put_hex(paper, modifiers);
    put_text(paper, form.before(Member::Raw));
    put_hex(paper, sent);
    put_text(paper, form.closing());
}

// Puts what a data record says, by the whole standard.
fn put_read<P: Paper>(paper: &mut P, form: Form, bytes: &[u8], span: &RecordSpan)
    requires { IsFullSpan bytes.now span.now }
    ensures { Puts P.takes paper.old (read_words form bytes.now span.now) paper.new }
{
    let profile = full_unit_of(bytes, span);
    let record = full_record_of(bytes, span);
    let qualifiers = record.qualifiers.as_slice();
    let modifiers = bytes_at(bytes, profile.modifiers_at, profile.modifiers);
    let sent = bytes_at(bytes, span.data_at, span.data_len);
    put_measure(paper, form, record.quantity, record.unit);
    put_value(paper, form, record.value, record.unset, sent);
    put_kind(paper, form, qualifiers, record.unset, record.data_type);
    put_profile(paper, form, profile.quantity, record.quantity);
    put_plain(paper, form, record.plain, sent);
    put_byte_words(paper, form, modifiers, shown(record.data_type, sent));
}

// Puts a record, with its number in its step.
#[tactic(auto, unfolding(crate::specs::Words::record_words), using(paper::proofs::Calls::two_make))]
pub(crate) fn put_record<P: Paper>(
    paper: &mut P,
    form: Form,
    number: u64,
    bytes: &[u8],
    span: &RecordSpan,
)
    requires { IsFullSpan bytes.now span.now }
    ensures { Puts P.takes paper.old (record_words form number bytes.now span.now) paper.new }
{
    put_register(paper, form, number, span);
    put_read(paper, form, bytes, span);
}
