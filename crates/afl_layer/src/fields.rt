//! The fields of a header, which FCL names.
ghost use Rattle.std.specs.Prelude.{◌≡◌, ◌<◌, ◌≤◌, ◌⊎◌, length};
ghost use Rattle.afl_layer.specs.Fields.{has_bit, where_so};
ghost use Rattle.afl_layer.specs.Header.{byte_in, two_in, four_in, all_in};

// The bits of FCL: MF, more fragments follow; and for each field the one that names it.
pub(crate) const MORE: u8 = 14;

pub(crate) const MCL: u8 = 13;

pub(crate) const ML: u8 = 12;

pub(crate) const MCR: u8 = 11;

pub(crate) const MAC: u8 = 10;

pub(crate) const KI: u8 = 9;

// Whether a bit is set.
pub(crate) fn has(fcl: u16, place: u8) -> bool
    requires { place < 16 }
    ensures { result ≡ has_bit fcl place }
{
    fcl >> place & 1 == 1
}

// How many bytes a field has here.
pub(crate) fn len_of(named: bool, len: usize) -> usize
    ensures { result ≡ where_so named len }
{
    if named { len } else { 0 }
}

// The field of one byte that these are, if any.
pub(crate) fn one(bytes: &[u8]) -> Option<u8>
    ensures { result ≡ byte_in bytes.now }
{
    bytes.first().copied()
}

// The number of two bytes that these are, if any.
pub(crate) fn two(bytes: &[u8]) -> Option<u16>
    requires { (length bytes.now ≡ 0) ⊎ (length bytes.now ≡ 2) }
    ensures { result ≡ two_in bytes.now }
{
    match bytes {
        [low, high] => Some(u16::from_le_bytes([*low, *high])),
        _ => None,
    }
}

// The number of four bytes that these are, if any.
pub(crate) fn four(bytes: &[u8]) -> Option<u32>
    requires { (length bytes.now ≡ 0) ⊎ (length bytes.now ≡ 4) }
    ensures { result ≡ four_in bytes.now }
{
    match bytes {
        [a, b, c, d] => Some(u32::from_le_bytes([*a, *b, *c, *d])),
        _ => None,
    }
}

// The eight bytes that these are, if any.
pub(crate) fn eight(bytes: &[u8]) -> Option<[u8; 8]>
    requires { (length bytes.now ≡ 0) ⊎ (length bytes.now ≡ 8) }
    ensures { result ≡ all_in bytes.now }
{
    match bytes {
        [a, b, c, d, e, f, g, h] => Some([*a, *b, *c, *d, *e, *f, *g, *h]),
        _ => None,
    }
}
