//! The commands that wait to be sent to a meter; when one is sent, and when it is confirmed or expires.
//!
//! A telegram's bits B and A say whether the meter listens after it (EN 13757-4), which says nothing of how commands wait for
//! it. Eight places, three tries, ids that only rise, that any response confirms the command that was sent, and that the window
//! closes at a tick are this collector's own.
#![tactic(auto)]

mod command;
mod laws;
mod queue;
mod window;
mod window_laws;

pub use command::{Command, NoSuch, QueueFault, TRIES_MAX};
pub use laws::older_commands_have_lower_ids;
pub use queue::{QUEUE_MAX, Queue};
pub use window::{Moved, Window};
pub use window_laws::{moves_keep_agreement, sent_over_time};
