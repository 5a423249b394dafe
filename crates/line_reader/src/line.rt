//! One line.
use crate::frame::FrameBytes;
use frame_formats::Format;
use meter_address::{Address, Payload};

/// What a line says.
#[derive(Drop)]
pub enum Line {
    /// A frame, heard at this moment.
    Frame {
        /// Its format.
        format: Format,
        /// The moment, in the receiver's own unit.
        at: u64,
        /// Its bytes, which may be no frame at all.
        bytes: FrameBytes,
    },
    /// A tick for a meter.
    Tick(Address),
    /// A command to be queued for a meter.
    Put(Address, Payload),
    /// A meter's command, by its id, to be cancelled.
    Cancel(Address, u32),
    /// A second key for a meter.
    Key(Address, [u8; 16]),
}

/// Why a line says nothing: the first of these that applies.
#[derive(Clone, Copy)]
pub enum BadLine {
    /// It has more than 1,024 bytes.
    TooLong,
    /// Its first field is none of the six words.
    Word,
    /// It has another number of fields than its word asks for.
    Fields,
    /// The moment or the id is no plain decimal number of its range.
    Number,
    /// The address isn't sixteen hexadecimal digits.
    Address,
    /// The bytes aren't an even number of hexadecimal digits.
    Hex,
    /// The command's payload has this many bytes, which isn't 1 to 94.
    Payload(usize),
    /// The key isn't 32 hexadecimal digits.
    Key,
}
