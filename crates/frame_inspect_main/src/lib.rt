//! What every layer of many frames says, looked at in threads.
#![tactic(auto)]

mod inspecting;
mod item;
mod laws;
mod layered;
mod look;
mod room;
mod running;
mod shown;
mod status;

pub use inspecting::{ITEMS_MAX, WORKERS_MAX, inspect};
pub use item::{Item, LineText};
pub use laws::{frames_are_shown, items_say_their_lines, runs_are_even, runs_are_whole};
pub use layered::{Layered, put_said_line};
pub use look::Look;
pub use room::Room;
pub use running::{inspect_run, workers};
pub use shown::Shown;
pub use status::InspectStatus;
