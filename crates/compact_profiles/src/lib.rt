//! Compact profiles: many values of one quantity in one record (EN 13757-3, annex on profiles). Each value is sent
//! whole, or as what it is more or less than the one before it.
#![tactic(auto)]

mod kinds;
mod laws;
mod profiles;
mod sent_values;
mod values;

pub use kinds::ProfileKind;
pub use laws::{
    increments_sum_up, inverse_takes_away, numbers_are_places, values_are_counted,
    whole_values_are_sent,
};
pub use profiles::{IncrementMode, Profile, Spacing, profile_of};
pub use values::{MOST_VALUES, ProfileValue, ProfileValues, profile_values};
