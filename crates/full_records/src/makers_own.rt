//! What the VIF alone makes of data that a further VIFE calls the manufacturer's own.

ghost use Rattle.std.specs.Prelude.{◌≡◌};
ghost use Rattle.full_records.specs.MakersOwn.{are_makers_own, is_makers_own, is_told, told_plain};

use crate::qualifiers::{Qualifier, QualifierName};
use crate::quantities::FullUnitName;
use crate::values::FullValue;

/// A value by the VIF alone, and the unit in which it counts.
#[derive(Clone, Copy)]
pub struct PlainValue {
    /// The value.
    pub value: FullValue,
    /// Its unit.
    pub unit: FullUnitName,
}

fn is_makers_own(name: QualifierName) -> bool
    ensures { result ≡ is_makers_own name }
{
    match name {
        QualifierName::MakersOwn => true,
        _ => false,
    }
}

/// Whether one of the further VIFEs says that the data are the manufacturer's own (EN 13757-3, 6.4).
pub fn are_makers_own(qualifiers: &[Qualifier]) -> bool
    ensures { result ≡ are_makers_own qualifiers.now }
{
    qualifiers.iter().any(|q| is_makers_own(q.name))
}

/// Whether there is something to tell of a value.
fn is_told(value: FullValue) -> bool
    ensures { result ≡ is_told value }
{
    match value {
        FullValue::Nothing | FullValue::Withheld | FullValue::Raw => false,
        _ => true,
    }
}

/// A value and its unit, where there is something to tell of it.
pub fn told_plain(value: FullValue, unit: FullUnitName) -> Option<PlainValue>
    ensures { result ≡ told_plain value unit }
{
    if is_told(value) {
        Some(PlainValue { value, unit })
    } else {
        None
    }
}
