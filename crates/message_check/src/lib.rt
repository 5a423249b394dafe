//! A message of a meter: the layers round it, the meter that it is for, and what it says once it is checked and
//! decrypted (EN 13757-4, EN 13757-7, OMS Volume 2). Nothing here takes memory.
#![tactic(auto)]

mod addressee;
mod headers;
mod keys;
mod mode_five;
mod mode_seven;
mod opening;
mod reading;
mod refusal;
mod signature;

pub use addressee::{link_address, target};
pub use headers::Layers;
pub use keys::MeterKeys;
pub use mode_five::{open5, open5_with_keys};
pub use mode_seven::{open7, open7_with_keys};
pub use opening::Opened;
pub use reading::layers;
pub use refusal::{LayerFault, Reason};

/// What holds of the definitions in the contracts.
pub mod laws;
