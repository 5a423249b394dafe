//! Which records are compact profiles: by their further VIFEs, by their quantity, and by the LVAR of their data.

ghost use Rattle.std.specs.Prelude.{◌≡◌};
ghost use Rattle.std.specs.List.{list_all};
ghost use Rattle.full_spans.specs.Long.{IsFullSpan};
ghost use Rattle.full_records.specs.Readings.{kind_of, profile_kind};
ghost use Rattle.compact_profiles.specs.Kinds.{has_text_lvar, is_number, kind_among, kind_named, record_kind, stays};

use dif_vif::RecordSpan;
use full_records::{Effect, FullQuantity, Qualifier, QualifierName, full_record_of};
use record_values::Quantity;

/// Which of the three profiles a record has.
#[derive(Clone, Copy)]
pub enum ProfileKind {
    /// The values go back in time (VIFE 13).
    Inverse,
    /// Each value has a storage number of its own, after the record's (VIFE 1E).
    Numbered,
    /// The values have no storage numbers of their own (VIFE 1F).
    Unnumbered,
}

/// The profile that a further VIFE announces.
fn kind_named(name: QualifierName) -> Option<ProfileKind>
    ensures { result ≡ kind_named name }
{
    match name {
        QualifierName::InverseCompactProfile => Some(ProfileKind::Inverse),
        QualifierName::NumberedCompactProfile => Some(ProfileKind::Numbered),
        QualifierName::CompactProfile => Some(ProfileKind::Unnumbered),
        _ => None,
    }
}

fn stays(effect: Effect) -> bool
    ensures { result ≡ stays effect }
{
    match effect {
        Effect::Stays => true,
        _ => false,
    }
}

fn all_stay(qualifiers: &[Qualifier]) -> bool
    ensures { result ≡ list_all (λ q. stays q.effect) qualifiers.now }
{
    qualifiers.iter().all(|q| stays(q.effect))
}

/// The profile that one of the further VIFEs announces, where no other one changes how the data are read.
fn kind_among(qualifiers: &[Qualifier]) -> Option<ProfileKind>
    ensures { result ≡ kind_among qualifiers.now }
{
    match qualifiers {
        [] => None,
        [first, rest @ ..] => match kind_named(first.name) {
            Some(kind) => { if all_stay(rest) { Some(kind) } else { None } }
            None => {
                if stays(first.effect) {
                    kind_among(rest)
                } else {
                    None
                }
            }
        },
    }
}

/// Whether the data of a quantity are numbers.
fn is_number(quantity: FullQuantity) -> bool
    ensures { result ≡ is_number (kind_of quantity) }
{
    match quantity {
        FullQuantity::Profile(quantity) => is_profile_number(quantity),
        FullQuantity::ErrorMask
        | FullQuantity::DigitalOutput
        | FullQuantity::DigitalInput
        | FullQuantity::TariffStart
        | FullQuantity::BatteryChange
        | FullQuantity::DaylightSaving
        | FullQuantity::ListeningWindow
        | FullQuantity::UserAccessCode
        | FullQuantity::OperatorAccessCode
        | FullQuantity::SystemOperatorAccessCode
        | FullQuantity::DeveloperAccessCode
        | FullQuantity::Password
        | FullQuantity::SecurityKey
        | FullQuantity::RadioContainer
        | FullQuantity::ManufacturerContainer => false,
        _ => true,
    }
}

fn is_profile_number(quantity: Quantity) -> bool
    ensures { result ≡ is_number (profile_kind quantity) }
{
    match quantity {
        Quantity::Unknown
        | Quantity::Manufacturer
        | Quantity::Date
        | Quantity::DateTime
        | Quantity::ErrorFlags => false,
        _ => true,
    }
}

/// Whether the data are as many bytes as the LVAR says, up to 191 (EN 13757-3, 6.3).
pub fn has_text_lvar(lvar: Option<u8>) -> bool
    ensures { result ≡ has_text_lvar lvar }
{
    match lvar {
        None => false,
        Some(lvar) => lvar < 0xc0,
    }
}

/// The profile that a record of these bytes is, if it is one.
pub fn kind_of_record(bytes: &[u8], span: &RecordSpan) -> Option<ProfileKind>
    requires { IsFullSpan bytes.now span.now }
    ensures { result ≡ record_kind bytes.now span.now }
{
    if !has_text_lvar(span.lvar) {
        return None;
    }
    let record = full_record_of(bytes, span);
    if !is_number(record.quantity) {
        return None;
    }
    kind_among(record.qualifiers.as_slice())
}
