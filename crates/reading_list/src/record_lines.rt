//! The line of a data record of a stored step.
ghost use Rattle.std.specs.Prelude.{◌≡◌};
ghost use Rattle.paper.specs.Puts.{Puts};
ghost use Rattle.paper.specs.Pieces.{text_if};
ghost use Rattle.meter_label.specs.Texts.{label_text};
ghost use Rattle.full_spans.specs.Long.{IsFullSpan};
ghost use Rattle.reading_list.specs.Said.{step_read};
ghost use Rattle.record_values.specs.declared.units.Quantity.TheVariants.{Unknown};
ghost use Rattle.reading_list.specs.RecordLines.{meter_members, step_members, function_words, register_members, measure_members};
ghost use Rattle.reading_list.specs.RecordLines.{number_text, value_members, kind_members, is_renamed, profile_words, profile_member};
ghost use Rattle.reading_list.specs.RecordLines.{plain_words, plain_member};
ghost use Rattle.reading_list.specs.RecordLines.{shown, byte_members, read_members, record_line, records_text, fault_of};

use crate::forms::{Form, Member};
use crate::said::StepRead;
use dif_vif::{RecordFault, RecordSpan};
use full_records::{
    DataType, FullQuantity, FullUnitName, FullValue, PlainValue, Qualifier, full_record_of,
    full_unit_of,
};
use full_spans::next_full_record;
use full_text::{
    Decimal, counted_of, full_quantity_word, full_unit_word, put_decimal, put_full_value,
    put_qualifiers, type_word,
};
use meter_address::Address;
use meter_label::{Label, put_label};
use paper::{Paper, put_hex, put_labelled, put_labelled_bytes, put_text};
use record_text::{bytes_at, function_word, quantity_word};
use record_values::Quantity;

#[tactic(auto, using(paper::proofs::Calls::none))]
fn put_label_if<P: Paper>(paper: &mut P, label: Option<Label>)
    ensures { Puts P.takes paper.old (text_if label_text label) paper.new }
{
    match label {
        None => {}
        Some(label) => put_label(paper, &label),
    }
}

#[tactic(auto, unfolding(crate::specs::RecordLines::meter_members), using(paper::proofs::Calls::four_make))]
fn put_meter<P: Paper>(paper: &mut P, form: Form, address: Address)
    ensures { Puts P.takes paper.old (meter_members form address) paper.new }
{
    put_text(paper, form.before(Member::Address));
    put_hex(paper, &address.to_bytes());
    put_text(paper, form.before(Member::Label));
    put_label_if(paper, Label::of_address(address));
}

#[tactic(auto, unfolding(crate::specs::RecordLines::step_members), using(paper::proofs::Calls::four_make))]
fn put_step<P: Paper>(paper: &mut P, form: Form, step: &StepRead)
    ensures { Puts P.takes paper.old (step_members form (step_read step.now)) paper.new }
{
    put_labelled(
        paper,
        form.before(Member::Receiver),
        u64::from(step.receiver),
    );
    put_labelled(paper, form.before(Member::Line), u64::from(step.line));
    put_labelled(paper, form.before(Member::Moment), step.moment);
    put_labelled(paper, form.before(Member::Counter), u64::from(step.counter));
}

fn put_function<P: Paper>(paper: &mut P, span: &RecordSpan)
    ensures { Puts P.takes paper.old (function_words span.now) paper.new }
{
    if span.maker {
        put_labelled_bytes(paper, "maker ", &[span.dif]);
    } else {
        put_text(paper, function_word(span.function));
    }
}

#[tactic(auto, unfolding(crate::specs::RecordLines::register_members), using(paper::proofs::Calls::six_make))]
fn put_register<P: Paper>(paper: &mut P, form: Form, number: u64, span: &RecordSpan)
    ensures { Puts P.takes paper.old (register_members form number span.now) paper.new }
{
    put_labelled(paper, form.before(Member::Record), number);
    put_text(paper, form.before(Member::Function));
    put_function(paper, span);
    put_labelled(paper, form.before(Member::Storage), span.storage);
    put_labelled(paper, form.before(Member::Tariff), u64::from(span.tariff));
    put_labelled(paper, form.before(Member::Subunit), u64::from(span.subunit));
}

#[tactic(auto, unfolding(crate::specs::RecordLines::measure_members), using(paper::proofs::Calls::four_make))]
fn put_measure<P: Paper>(paper: &mut P, form: Form, quantity: FullQuantity, unit: FullUnitName)
    ensures { Puts P.takes paper.old (measure_members form quantity unit) paper.new }
{
    put_text(paper, form.before(Member::Quantity));
    put_text(paper, full_quantity_word(quantity));
    put_text(paper, form.before(Member::Unit));
    put_text(paper, full_unit_word(unit));
}

fn put_number<P: Paper>(paper: &mut P, form: Form, number: Option<Decimal>)
    ensures { Puts P.takes paper.old (number_text form number) paper.new }
{
    match number {
        None => put_text(paper, form.no_number()),
        Some(number) => put_decimal(paper, number),
    }
}

#[tactic(auto, unfolding(crate::specs::RecordLines::value_members), using(paper::proofs::Calls::four_make))]
fn put_value<P: Paper>(paper: &mut P, form: Form, value: FullValue, unset: bool, sent: &[u8])
    ensures { Puts P.takes paper.old (value_members form value unset sent.now) paper.new }
{
    put_text(paper, form.before(Member::Value));
    put_full_value(paper, value, sent);
    put_text(paper, form.before(Member::Number));
    put_number(paper, form, counted_of(value, unset));
}

#[tactic(auto, unfolding(crate::specs::RecordLines::kind_members), using(paper::proofs::Calls::four_make))]
fn put_kind<P: Paper>(
    paper: &mut P,
    form: Form,
    qualifiers: &[Qualifier],
    unset: bool,
    data_type: DataType,
)
    ensures { Puts P.takes paper.old (kind_members form qualifiers.now unset data_type) paper.new }
{
    put_text(paper, form.before(Member::Qualifiers));
    put_qualifiers(paper, qualifiers, unset);
    put_text(paper, form.before(Member::Type));
    put_text(paper, type_word(data_type));
}

fn is_known(quantity: FullQuantity) -> bool
    ensures { result ≡ is_renamed Unknown quantity }
{
    match quantity {
        FullQuantity::Profile(Quantity::Unknown) => false,
        _ => true,
    }
}

// Whether the whole standard names a quantity that the profile doesn't.
fn is_renamed(profile: Quantity, quantity: FullQuantity) -> bool
    ensures { result ≡ is_renamed profile quantity }
{
    match profile {
        Quantity::Unknown => is_known(quantity),
        _ => false,
    }
}

#[tactic(auto, unfolding(crate::specs::RecordLines::profile_words), using(paper::proofs::Calls::two_make))]
fn put_profile_words<P: Paper>(paper: &mut P, form: Form, profile: Quantity)
    ensures { Puts P.takes paper.old (profile_words form profile) paper.new }
{
    put_text(paper, form.before(Member::ProfileQuantity));
    put_text(paper, quantity_word(profile));
}

fn put_profile<P: Paper>(paper: &mut P, form: Form, profile: Quantity, quantity: FullQuantity)
    ensures { Puts P.takes paper.old (profile_member form profile quantity) paper.new }
{
    if is_renamed(profile, quantity) {
        put_profile_words(paper, form, profile);
    } else {
        put_text(paper, form.no_member());
    }
}

#[tactic(auto, unfolding(crate::specs::RecordLines::plain_words), using(paper::proofs::Calls::four_make))]
fn put_plain_words<P: Paper>(paper: &mut P, form: Form, plain: PlainValue, sent: &[u8])
    ensures { Puts P.takes paper.old (plain_words form plain sent.now) paper.new }
{
    put_text(paper, form.before(Member::AsPlain));
    put_full_value(paper, plain.value, sent);
    put_text(paper, " ");
    put_text(paper, full_unit_word(plain.unit));
}

// Puts what the VIF alone makes of data that are the manufacturer's own.
fn put_plain<P: Paper>(paper: &mut P, form: Form, plain: Option<PlainValue>, sent: &[u8])
    ensures { Puts P.takes paper.old (plain_member form plain sent.now) paper.new }
{
    match plain {
        None => put_text(paper, form.no_member()),
        Some(plain) => put_plain_words(paper, form, plain, sent),
    }
}

// The data as they are shown.
fn shown(data_type: DataType, sent: &[u8]) -> &[u8]
    ensures { result.now ≡ shown data_type sent.now }
{
    match data_type {
        DataType::Withheld => &[],
        _ => sent,
    }
}

#[tactic(auto, unfolding(crate::specs::RecordLines::byte_members), using(paper::proofs::Calls::five_make))]
fn put_byte_members<P: Paper>(paper: &mut P, form: Form, modifiers: &[u8], sent: &[u8])
    ensures { Puts P.takes paper.old (byte_members form modifiers.now sent.now) paper.new }
{
    put_text(paper, form.before(Member::Modifiers));
    put_hex(paper, modifiers);
    put_text(paper, form.before(Member::Raw));
    put_hex(paper, sent);
    put_text(paper, form.closing());
}

// Puts what a data record says, by the whole standard.
fn put_read<P: Paper>(paper: &mut P, form: Form, bytes: &[u8], span: &RecordSpan)
    requires { IsFullSpan bytes.now span.now }
    ensures { Puts P.takes paper.old (read_members form bytes.now span.now) paper.new }
{
    let profile = full_unit_of(bytes, span);
    let record = full_record_of(bytes, span);
    let qualifiers = record.qualifiers.as_slice();
    let modifiers = bytes_at(bytes, profile.modifiers_at, profile.modifiers);
    let sent = bytes_at(bytes, span.data_at, span.data_len);
    put_measure(paper, form, record.quantity, record.unit);
    put_value(paper, form, record.value, record.unset, sent);
    put_kind(paper, form, qualifiers, record.unset, record.data_type);
    put_profile(paper, form, profile.quantity, record.quantity);
    put_plain(paper, form, record.plain, sent);
    put_byte_members(paper, form, modifiers, shown(record.data_type, sent));
}

// Puts the line of a record of a meter's step, with the record's number in it.
#[tactic(auto, unfolding(crate::specs::RecordLines::record_line), using(paper::proofs::Calls::four_make))]
fn put_record<P: Paper>(
    paper: &mut P,
    form: Form,
    address: Address,
    step: &StepRead,
    number: u64,
    span: &RecordSpan,
)
    requires { IsFullSpan step.now.payload.items span.now }
    ensures { Puts P.takes paper.old (record_line form address (step_read step.now) (number, span.now)) paper.new }
{
    put_meter(paper, form, address);
    put_step(paper, form, step);
    put_register(paper, form, number, span);
    put_read(paper, form, step.payload.as_slice(), span);
}

/// Puts a line for each record of a meter's step, and answers the fault that ends them, if one does.
pub(crate) fn put_records<P: Paper>(
    paper: &mut P,
    form: Form,
    address: Address,
    step: &StepRead,
) -> Option<RecordFault>
    ensures text { Puts P.takes paper.old (records_text form address (step_read step.now)) paper.new }
    ensures fault { result ≡ fault_of step.now.payload.items }
{
    let mut from = 0usize;
    let mut listed = 0usize;
    let mut left = step.payload.len();
    'records: while left > 0 {
        match next_full_record(step.payload.as_slice(), from) {
            Err(fault) => return Some(fault),
            Ok(None) => return None,
            Ok(Some(span)) => {
                put_record(paper, form, address, step, listed as u64 + 1, &span);
                from = span.end;
                listed += 1;
                left -= 1;
            }
        }
    }
    None
}
