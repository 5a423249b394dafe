//! The slots of the commissioned meters: what each hears and answers, and its journal.
#![tactic(auto)]

mod acting;
mod book;
mod commands;
mod counts;
mod entry;
mod fragments;
mod hearing;
mod judge;
mod known;
pub mod laws;
mod passing;
mod past;
mod reading;
mod repeated;
mod sent;
mod standing;
mod start;
mod step;
mod telling;

pub use book::SlotBook;
pub use counts::{Counts, Ended};
pub use downlink_maker::Downlink;
pub use entry::{Entry, Event, Outcome};
pub use frame_formats::Format;
pub use known::KnownMeter;
pub use message_check::{LayerFault, Reason};
pub use passing::PassingSlot;
pub use past::PastEvent;
pub use reading::{Bytes, Reading};
pub use sent::SentDownlink;
pub use standing::Served;
pub use start::{MeterStart, addresses_of};
pub use step::{Landed, Step};
pub use telling::event_of;
