//! Reading the header of the authentication and fragmentation layer.
ghost use Rattle.std.specs.Prelude.{◌≡◌, ◌+◌, ◌≤◌, ◌↔◌, length, slice_get, Some, Ok, Err, IfOk};
ghost use Rattle.afl_layer.specs.Fields.{fields_len};
ghost use Rattle.afl_layer.specs.Header.{BeginsWithAfl, IsAflFault, misplaces, uncounts, fields_at, afl_at};
ghost use Rattle.afl_layer.specs.declared.header.Afl.{Afl};
ghost use Rattle.afl_layer.specs.declared.header.AflFault.{AflFault};

use crate::fields::{KI, MAC, MCL, MCR, ML, MORE, eight, four, has, len_of, one, two};

/// The CI of the authentication and fragmentation layer (EN 13757-7).
pub const AFL_CI: u8 = 0x90;

/// The header of the authentication and fragmentation layer (EN 13757-7), of CI 90.
#[derive(Clone, Copy)]
pub struct Afl {
    /// MF: more fragments of the message follow.
    pub more: bool,
    /// FID, the number of the fragment.
    pub fid: u8,
    /// MCL, the message control, whose bits 3 to 0 say how the message is authenticated.
    pub mcl: Option<u8>,
    /// KI, the key information.
    pub ki: Option<u16>,
    /// MCR, the message counter.
    pub mcr: Option<u32>,
    /// The MAC of the message, cut to eight bytes.
    pub mac: Option<[u8; 8]>,
    /// ML, the length of the message.
    pub ml: Option<u16>,
    /// How many bytes the header has, from its CI on.
    pub len: usize,
}

impl Afl {
    ghost use Rattle.afl_layer.specs.Fields.{is_fragment};

    /// Whether the header is that of a fragment of a message: more of them follow, or its number is at least 2.
    pub fn is_fragment(&self) -> bool
        ensures { result ≡ is_fragment self.now }
    {
        self.more || 2 <= self.fid
    }
}

/// What of a message's headers goes into its authentication.
#[derive(Clone, Copy)]
pub struct Auth {
    /// MCL, the message control.
    pub mcl: Option<u8>,
    /// MCR, the message counter.
    pub mcr: Option<u32>,
    /// ML, the length of the message.
    pub ml: Option<u16>,
    /// The MAC of the message.
    pub mac: Option<[u8; 8]>,
}

/// Why bytes begin with no such header: the first of these that applies.
#[derive(Clone, Copy)]
pub enum AflFault {
    /// There are fewer than four bytes, or fewer than AFLL says. There are this many.
    Truncated(usize),
    /// AFLL isn't two plus the lengths of the fields that FCL names.
    AflLength {
        /// AFLL.
        said: u8,
        /// What it has to be.
        fields: u8,
    },
    /// This FCL has MF and names the MAC, or has a FID of at least 2 and names another field.
    FieldPlace(u16),
    /// FCL has MF, and its FID is 0.
    FidZero,
}

// How many bytes the fields have that FCL names.
#[tactic(auto, unfolding(crate::specs::Fields::fields_len))]
fn len_of_fields(fcl: u16) -> usize
    ensures exact { result ≡ fields_len fcl }
    ensures most { result ≤ 17 }
{
    len_of(has(fcl, MCL), 1)
        + len_of(has(fcl, KI), 2)
        + len_of(has(fcl, MCR), 4)
        + len_of(has(fcl, MAC), 8)
        + len_of(has(fcl, ML), 2)
}

// Whether FCL names a field that doesn't stand in this fragment.
#[tactic(auto, unfolding(crate::specs::Header::misplaces))]
fn names_misplaced(fcl: u16) -> bool
    ensures { result ≡ misplaces fcl }
{
    let other = has(fcl, MCL) || has(fcl, KI) || has(fcl, MCR) || has(fcl, ML);
    has(fcl, MORE) && has(fcl, MAC) || fcl & 0xFF >= 2 && other
}

// Whether FCL is that of a fragment of several, and doesn't number it.
#[tactic(auto, unfolding(crate::specs::Header::uncounts))]
fn is_unnumbered(fcl: u16) -> bool
    ensures { result ≡ uncounts fcl }
{
    has(fcl, MORE) && fcl & 0xFF == 0
}

// The fields that FCL names, one behind the other.
#[tactic(auto, unfolding(crate::specs::Header::fields_at, crate::specs::Fields::fields_len))]
fn read_fields(fcl: u16, bytes: &[u8]) -> Afl
    requires { fields_len fcl ≤ length bytes.now }
    ensures { result ≡ fields_at fcl bytes.now }
{
    let (mcl, rest) = bytes.split_at(len_of(has(fcl, MCL), 1));
    let (ki, rest) = rest.split_at(len_of(has(fcl, KI), 2));
    let (mcr, rest) = rest.split_at(len_of(has(fcl, MCR), 4));
    let (mac, rest) = rest.split_at(len_of(has(fcl, MAC), 8));
    let (ml, _) = rest.split_at(len_of(has(fcl, ML), 2));
    Afl {
        more: has(fcl, MORE),
        fid: (fcl & 0xFF) as u8,
        mcl: one(mcl),
        ki: two(ki),
        mcr: four(mcr),
        mac: eight(mac),
        ml: two(ml),
        len: 4 + len_of_fields(fcl),
    }
}

// The header with which the bytes begin, or the first fault.
#[tactic(auto, unfolding(crate::specs::Header::afl_at))]
fn read_header(bytes: &[u8]) -> Result<Afl, AflFault>
    ensures { result ≡ afl_at bytes.now }
{
    let [_, said, low, high, rest @ ..] = bytes else {
        return Err(AflFault::Truncated(bytes.len()));
    };
    let said = *said;
    let fcl = u16::from_le_bytes([*low, *high]);
    let len = len_of_fields(fcl);
    let fields = 2 + len as u8;
    if said != fields {
        return Err(AflFault::AflLength { said, fields });
    }
    if rest.len() < len {
        return Err(AflFault::Truncated(bytes.len()));
    }
    if names_misplaced(fcl) {
        return Err(AflFault::FieldPlace(fcl));
    }
    if is_unnumbered(fcl) {
        return Err(AflFault::FidZero);
    }
    Ok(read_fields(fcl, rest))
}

/// The header of the authentication and fragmentation layer with which the bytes begin. They have to have its CI, 90.
pub fn read_afl(bytes: &[u8]) -> Result<Afl, AflFault>
    requires { slice_get bytes.now 0 ≡ Some 0x90 }

    // What is read is spelled so, and what is spelled so is read.
    ensures found { IfOk result (λ a. BeginsWithAfl bytes.now a) }
    ensures only { (a : Afl) → BeginsWithAfl bytes.now a → result ≡ Ok a }

    // A fault is the first that the bytes show.
    ensures fault { (f : AflFault) → (result ≡ Err f) ↔ IsAflFault bytes.now f }
    ensures exact { result ≡ afl_at bytes.now }
{
    read_header(bytes)
}
