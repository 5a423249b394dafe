//! The data records of a meter's message: where each stands in a payload, and which fault ends them
//! (EN 13757-3, clause 6).
#![tactic(auto)]

mod fault;
mod laws;
mod numbers;
mod parts;
mod records;
mod span;

pub use fault::RecordFault;
pub use laws::{
    digits_in_reverse, listing_is_read, no_record_begins_another, one_listing, one_span_at_a_place,
    records_are_listed,
};
pub use records::next_record;
pub use span::RecordSpan;
