//! The frames of wireless M-Bus (EN 13757-4): the CRC, telegrams, and formats A and B.
#![tactic(auto)]

mod blocks;
mod crc16;
mod fault;
mod format;
mod format_a;
mod format_b;
mod laws;
mod telegram;

pub use crc16::crc;
pub use fault::FrameFault;
pub use format::{Format, decode};
pub use format_a::{decode_a, encode_a};
pub use format_b::decode_b;
pub use laws::{
    frames_are_decoded, one_crc, one_frame_a, one_telegram_a, one_telegram_b, telegrams_are_bytes,
};
pub use telegram::Telegram;
