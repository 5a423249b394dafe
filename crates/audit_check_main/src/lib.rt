//! The audit of a printed session: whether a report is what a collector prints of a state, which may be a roster, and of what its
//! receivers heard, and whether another state is what that session leaves.
#![tactic(auto)]

mod auditing;
mod comparing;
mod hearing;
mod input;
mod kept;
mod laws;
mod leaving;
mod line_lists;
mod meter_steps;
mod orders;
mod printed;
mod printing;
mod report_lines;
mod running;
mod status;
mod stepping;
mod texts;
mod verdict;
mod whose;

pub use auditing::audit;
pub use input::Input;
pub use laws::reports_are_in_form;
pub use running::{FilesNamed, REPORT_MAX, audit_run, files_named};
pub use status::AuditStatus;
pub use verdict::{Cause, Verdict};
