//! The roster: the collector's own address and the commissioned meters, as a text.
#![tactic(auto)]

mod entries;
mod fields;
mod laws;
mod load;
mod reader;
mod roster;
mod writing;

pub use entries::{Entries, Entry};
pub use fields::{Version, read_meter, read_own_line};
pub use laws::{read_rosters_are_enrolled, written_rosters_are_read_back};
pub use load::{LoadFault, load_roster};
pub use reader::{MOST_BYTES, MOST_METERS, next_meter, read_roster, version_of};
pub use roster::{LineCause, Roster, RosterFault};
pub use writing::{put_meter, put_own, write_roster};
