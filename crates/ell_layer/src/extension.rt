//! The header of the extended link layer.
ghost use Rattle.std.specs.Prelude.{◌≡◌, ◌≤◌, ◌↔◌, Ok, Err, IfOk};
ghost use Rattle.ell_layer.specs.Extension.{BeginsWithEll, IsEllFault, header_len, ell_at};
ghost use Rattle.ell_layer.specs.declared.extension.Ell.{Ell};
ghost use Rattle.ell_layer.specs.declared.extension.EllFault.{EllFault};

use crate::access::Access;

// The CIs of the two headers that are read: with access alone, and with a second address behind it.
const SHORT_CI: u8 = 0x8C;

const LONG_CI: u8 = 0x8E;

/// The header of the extended link layer (EN 13757-4), of CI 8C, or of CI 8E, whose second address isn't kept.
#[derive(Clone, Copy)]
pub struct Ell {
    /// When the meter listens, from the communication control.
    pub access: Access,
    /// The access number.
    pub acc: u8,
    /// How many bytes the header has, from its CI on: 3 or 11.
    pub len: usize,
}

/// Why bytes begin with no header of the extended link layer: the first of these that applies.
#[derive(Clone, Copy)]
pub enum EllFault {
    /// There is no byte, or there are fewer than the header has. There are this many.
    Truncated(usize),
    /// The CI is neither 8C nor 8E, but this one.
    Kind(u8),
}

// How long the header is that begins so.
#[tactic(auto, unfolding(crate::specs::Extension::header_len))]
fn len_of_header(bytes: &[u8]) -> Result<usize, EllFault>
    ensures exact { result ≡ header_len bytes.now }
    ensures least { IfOk result (λ len. 3 ≤ len) }
{
    match bytes {
        [] => Err(EllFault::Truncated(0)),
        [SHORT_CI, ..] => Ok(3),
        [LONG_CI, ..] => Ok(11),
        [ci, ..] => Err(EllFault::Kind(*ci)),
    }
}

// The header with which the bytes begin, or the first fault.
#[tactic(auto, unfolding(crate::specs::Extension::ell_at))]
fn extension(bytes: &[u8]) -> Result<Ell, EllFault>
    ensures { result ≡ ell_at bytes.now }
{
    let len = len_of_header(bytes)?;
    if bytes.len() < len {
        return Err(EllFault::Truncated(bytes.len()));
    }
    Ok(Ell {
        access: Access::from_control(bytes[1]),
        acc: bytes[2],
        len,
    })
}

/// The header of the extended link layer with which the bytes begin.
#[tactic(auto, using(crate::proofs::Headers::is_found, crate::proofs::Faults::is_fault))]
pub fn read_ell(bytes: &[u8]) -> Result<Ell, EllFault>
    // What is read is spelled so, and what is spelled so is read.
    ensures found { IfOk result (λ e. BeginsWithEll bytes.now e) }
    ensures only { (e : Ell) → BeginsWithEll bytes.now e → result ≡ Ok e }

    // A fault is the one that the bytes show.
    ensures fault { (f : EllFault) → (result ≡ Err f) ↔ IsEllFault bytes.now f }
    ensures exact { result ≡ ell_at bytes.now }
{
    extension(bytes)
}
