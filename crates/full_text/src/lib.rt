//! What a data record says by the whole standard, in words: its quantity, its unit, its value as exact text, its
//! qualifiers and the type of its data.
#![tactic(auto)]

mod backwards;
mod decimals;
mod laws;
mod reals;
mod said;
mod values;
mod words;

pub use decimals::put_decimal;
pub use laws::decimals_are_exact;
pub use reals::{Decimal, real_decimal};
pub use said::{counted_of, put_qualifiers};
pub use values::put_full_value;
pub use words::{full_quantity_word, full_unit_word, qualifier_word, type_word};
