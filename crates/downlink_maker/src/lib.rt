//! The downlink that carries a command to a meter: the one frame of format A of a telegram with an authentication layer
//! and a message of security mode 7 (EN 13757-4, EN 13757-7, OMS Volume 2). Nothing here takes memory.
#![tactic(auto)]

mod downlink;
mod laws;
mod layers;
mod making;
mod message;

pub use downlink::{DOWNLINK_MAX, Downlink};
pub use laws::{content_is_read_back, downlinks_are_laid_out};
pub use layers::{authentication_layer, link_layer, transport_header};
pub use making::make_downlink;
