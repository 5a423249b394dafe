//! Why bytes are no frame.

/// Why bytes are no frame: the first of these that applies.
#[derive(Clone, Copy)]
pub enum FrameFault {
    /// There is no byte.
    Empty,
    /// L is below its least value, 10 in format A and 12 in format B.
    Short(u8),
    /// L is 128 or 129, which format B leaves out.
    Gap(u8),
    /// The bytes are not as many as L says.
    Length {
        /// How many bytes a frame with this L has.
        want: usize,
        /// How many there are.
        have: usize,
    },
    /// The first block whose CRC differs, counted from 1.
    Crc(usize),
}
