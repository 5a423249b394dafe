//! What every transport header ends with.
ghost use Rattle.std.specs.Prelude.{◌≡◌, option_map};
ghost use Rattle.tpl_headers.specs.Configuration.{mode_of};
ghost use Rattle.tpl_headers.specs.Header.{cfe_at, tail_at};

// What stands behind the CI and the address.
#[derive(Clone, Copy)]
pub(crate) struct Tail {
    pub acc: u8,
    pub status: u8,
    pub cf: u16,
    pub cfe: Option<u8>,
}

// The security mode of a configuration field.
pub(crate) fn mode(cf: u16) -> u8
    ensures { result ≡ mode_of cf }
{
    (cf >> 8 & 0x1F) as u8
}

// The extension behind a configuration field, none where it is cut off.
#[tactic(auto, unfolding(crate::specs::Header::cfe_at))]
fn read_extension(cf: u16, bytes: &[u8]) -> Option<Option<u8>>
    ensures { result ≡ cfe_at cf bytes.now }
{
    if mode(cf) != 7 {
        return Some(None);
    }
    match bytes {
        [] => None,
        [cfe, ..] => Some(Some(*cfe)),
    }
}

// The tail with which the bytes begin, none where it is cut off.
#[tactic(auto, unfolding(crate::specs::Header::tail_at))]
pub(crate) fn read_tail(bytes: &[u8]) -> Option<Tail>
    ensures { result ≡ tail_at bytes.now }
{
    match bytes {
        [acc, status, low, high, rest @ ..] => {
            let cf = u16::from_le_bytes([*low, *high]);
            let cfe = read_extension(cf, rest)?;
            Some(Tail {
                acc: *acc,
                status: *status,
                cf,
                cfe,
            })
        }
        _ => None,
    }
}
