//! Why no record begins where one should.

/// The first fault on the way through a record. A place is that of the record's DIF in the payload.
#[derive(Clone, Copy)]
pub enum RecordFault {
    /// The payload ends inside the record that begins at this place.
    Truncated(usize),
    /// The DIF or the VIF of the record at this place has an eleventh extension.
    TooManyExtensions(usize),
    /// The LVAR, which is given, announces no data that are read here (EN 13757-3, 6.3).
    Lvar(u8),
    /// The DIF at this place has the data field 8, a selection for readout.
    Selection(usize),
    /// The DIF, which is given, is a special function other than manufacturer data and fillers.
    Special(u8),
}
