//! Why a line isn't taken.
use frame_formats::FrameFault;

/// Why a receiver's line isn't taken as a telegram: the first of these that applies.
#[derive(Clone, Copy)]
pub enum NotTaken {
    /// It has more than 4,096 bytes.
    TooLong,
    /// It doesn't begin with `b`, as culfw's telegrams do.
    Letter,
    /// It hasn't the eight columns of rtl_wmbus.
    Columns,
    /// Its mode is none of `T1`, `C1` and `S1`.
    Mode,
    /// It isn't JSON as rtl_433 prints it.
    Json,
    /// Its model isn't `Wireless-MBus`.
    Model,
    /// The receiver doesn't say that the CRCs were right.
    Unchecked,
    /// Its time can't be read.
    Time,
    /// Its telegram doesn't begin with `0x`.
    Prefix,
    /// It has no text `data`.
    Data,
    /// Its digits aren't an even number of hexadecimal ones, at most 1,024.
    Hex,
    /// Its first byte isn't the number of those behind it, or there are fewer than 11.
    Length,
    /// It is no frame, for this reason.
    Frame(FrameFault),
}
