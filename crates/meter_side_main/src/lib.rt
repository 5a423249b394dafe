//! The meter's side: how a meter reads the downlinks that are delivered to it, and which commands it executes.
#![tactic(auto)]

mod delivery;
mod laws;
mod layers;
mod lines;
mod listener;
mod message;
mod opening;
mod reason;
mod session;
mod side;
mod status;
mod text;
mod top;

pub use delivery::{CONTENT_MAX, Content, DELIVERY_MAX, Delivery, Executed};
pub use laws::{
    contents_are_payloads, executed_exactly, executed_rise, genuine_are_told,
    others_change_nothing, places_are_judged, refused_exactly, rosters_commission,
};
pub use lines::{Answer, LINE_MAX};
pub use reason::{Did, SideReason};
pub use session::DeliveriesEnd;
pub use side::MeterSide;
pub use status::SideStatus;
pub use top::{meter_run, names_meter};
