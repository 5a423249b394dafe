//! What the DIF and the VIF of a record say, in words (its function, its register, its quantity and its unit), and the lines of the
//! report for the data records of a payload.
#![tactic(auto)]

mod laws;
mod lines;
mod listing;
mod pieces;
mod value_text;
mod words;

pub use laws::records_are_listed;
pub use lines::{bytes_at, put_fault_words};
pub use listing::put_records;
pub use pieces::{put_register, put_unit};
pub use value_text::{put_bytes, put_four, put_marked, put_two, put_value};
pub use words::{function_word, name_word, quantity_word};
