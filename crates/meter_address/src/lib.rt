//! Meters: their addresses, what is commissioned of them, and the payload of a command to one.
#![tactic(auto)]

mod address;
mod commission;
mod laws;
mod payload;

pub use address::{Address, AddressFault};
pub use commission::{Commission, Mode, read_key};
pub use laws::text_and_address_agree;
pub use payload::{PAYLOAD_MAX, Payload};
