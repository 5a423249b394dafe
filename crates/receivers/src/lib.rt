//! Receivers: each hears its lines, makes their steps, and writes the downlinks that these give.
#![tactic(auto)]

mod alone;
mod cells;
mod class;
mod crews;
mod downlinks;
mod fresh;
mod hearing;
pub mod laws;
mod receiver;
mod roots;
mod running;
mod session;
mod shared;
mod slots;
mod telling;
mod told;
mod work;
mod workers;

pub use alone::Alone;
pub use cells::{SlotCell, StrangerCell};
pub use class::Class;
pub use fresh::show_untaken;
pub use meter_slots::{Counts, Ended};
pub use receiver::Receiver;
pub use session::{Collected, collect};
pub use told::{Told, tell};
pub use workers::{Worker, work_all};
