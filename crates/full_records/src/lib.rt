//! What a data record says, by the whole standard: its quantity, its unit, its value as an exact number, and its
//! qualifiers (EN 13757-3, clause 6 and annex A). `record_values` reads the profile, of which this is an extension.
#![tactic(auto)]

mod further_tables;
mod laws;
mod makers_own;
mod measures;
mod moments;
mod powers;
mod profile_units;
mod qualifier_table;
mod qualifiers;
mod quantities;
mod readings;
mod records;
mod values;

pub use laws::{
    no_code_in_two_rows, quantities_are_the_profiles, values_are_the_profiles,
    values_without_qualifiers,
};
pub use makers_own::PlainValue;
pub use measures::measure_of;
pub use moments::{Day, LongMoment, Moment, TimeOfDay};
pub use profile_units::full_unit_of;
pub use qualifiers::{Effect, MOST_QUALIFIERS, Qualifier, QualifierName, Qualifiers};
pub use quantities::{FullQuantity, FullUnitName, Measure};
pub use readings::DataType;
pub use records::{FullRecord, full_record_of};
pub use values::FullValue;
