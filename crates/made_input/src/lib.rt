//! Made sessions: a roster and the lines of four receivers, drawn from a number, for measuring and trying a collector.
#![tactic(auto)]

mod draws;
mod laws;
mod line_paper;
mod lines;
mod made;
mod meters;
mod runs;
mod senders;
mod streams;
mod summary;
mod texts;
mod uplinks;

pub use laws::{
    lines_are_heard_in_another_order, lines_are_own, made_sessions_are_readable, turns_are_taken,
    uplinks_are_genuine,
};
pub use made::{Made, OWN, make};
pub use streams::{HeardText, NoDownlinks};
pub use summary::Summary;
pub use texts::MadeText;
