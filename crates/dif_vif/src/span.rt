//! Where a record stands in a payload.

/// A record or manufacturer data in a payload: their places there, and the numbers of the DIF and its
/// extensions. Of manufacturer data only `start`, `end`, `maker`, `dif` and the place of the data
/// are given; the other numbers are 0.
#[derive(Clone, Copy)]
pub struct RecordSpan {
    /// The place of the DIF.
    pub start: usize,
    /// The place after the last byte.
    pub end: usize,
    /// Whether these are manufacturer data, which go to the payload's end.
    pub maker: bool,
    /// The DIF as sent.
    pub dif: u8,
    /// 0 an instantaneous value, 1 a maximum, 2 a minimum, 3 a value in an error state.
    pub function: u8,
    /// The storage number.
    pub storage: u64,
    /// The tariff.
    pub tariff: u32,
    /// The subunit.
    pub subunit: u16,
    /// The VIF as sent, with its top bit.
    pub vif: u8,
    /// The place of the first letter of the plain text unit, or else that of the byte after the VIF.
    pub text_at: usize,
    /// How many letters the plain text unit has.
    pub text_len: usize,
    /// The place of the first VIFE, or of the byte that would be one.
    pub vifes_at: usize,
    /// How many VIFEs there are.
    pub vifes: usize,
    /// The LVAR, for a data field D.
    pub lvar: Option<u8>,
    /// The place of the first byte of data, or else the end.
    pub data_at: usize,
    /// How many bytes of data there are.
    pub data_len: usize,
}
