//! What a data record says by the whole standard, as the members of an object of JSON and as comma separated values;
//! and the records of a payload, as an array of such objects.
#![tactic(auto)]

mod forms;
mod laws;
mod objects;
mod words;

pub use laws::{payloads_are_read_back, records_are_read_back};
pub use objects::{put_record_cells, put_record_members, put_record_objects};
