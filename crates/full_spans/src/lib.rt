//! The data records of a payload, over those too whose LVAR announces a long binary number: `dif_vif` ends at such a
//! record, since the profile has none (EN 13757-3, 6.3).
#![tactic(auto)]

mod heads;
mod walk;

pub use heads::long_width;
pub use walk::next_full_record;
