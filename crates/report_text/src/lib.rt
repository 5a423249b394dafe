//! The report of a session, and its readings as JSON.
#![tactic(auto)]

mod entries;
mod laws;
mod lent;
mod listing;
mod meter_trees;
mod outcomes;
mod parts;
mod readings;
mod record_trees;
mod writing;

pub use entries::{put_comma, put_digits, put_entries, put_fault};
pub use laws::{json_lists_the_report, orders_are_told};
pub use lent::{MeterLine, ReceiverEnd, Session};
pub use listing::{Ending, ending_of};
pub use outcomes::put_reason;
pub use parts::{MeterPart, meter_parts, report_of_parts};
pub use readings::{put_truth, readings_json};
pub use writing::{
    ended_word, put_end, put_head, put_last_records, put_meter, put_meter_line, put_pending,
    put_step, put_strangers, report,
};
