//! The fragments of a meter's message that are held, and the message that they make.
#![tactic(auto)]

mod laws;
mod part;
mod parts;
mod places;

pub use laws::{
    a_cut_history_holds_the_same, end_is_the_last_heard, held_is_latest, message_is_joined,
};
pub use part::{PART_MAX, Part, SPELT_MAX};
pub use parts::{Held, Parts};
pub use places::{HeldPart, PARTS_MAX};
