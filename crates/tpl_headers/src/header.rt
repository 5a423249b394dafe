//! Reading a transport header.
ghost use Rattle.std.specs.Prelude.{◌≡◌, ◌+◌, ◌<◌, ◌↔◌, length, Ok, Err, IfOk, option_map};
ghost use Rattle.tpl_headers.specs.Configuration.{mode_of, blocks_of, derivation_of, key_id_of, is_bidirectional, is_accessible};
ghost use Rattle.tpl_headers.specs.Header.{BeginsWithTpl, IsTplFault, address_at, short_at, long_at, tpl_at, cfe_bytes, with_tail};
ghost use Rattle.tpl_headers.specs.declared.header.Tpl.{Tpl};
ghost use Rattle.tpl_headers.specs.declared.header.TplFault.{TplFault};

use crate::tail::{Tail, mode, read_tail};
use meter_address::Address;

// The CIs of headers from a meter: of a response, and of a message without application layer; each without an address and
// with one.
const SHORT_RESPONSE: u8 = 0x7A;

const SHORT_TRANSPORT: u8 = 0x8A;

const LONG_RESPONSE: u8 = 0x72;

const LONG_TRANSPORT: u8 = 0x8B;

/// A transport header (EN 13757-7): short, of CI 7A or 8A, or long, of CI 72 or 8B, which has an address.
#[derive(Clone, Copy)]
pub struct Tpl {
    /// The CI.
    pub ci: u8,
    /// The meter's address, which a long header has. In the header its identification comes first.
    pub address: Option<Address>,
    /// The access number.
    pub acc: u8,
    /// The status byte.
    pub status: u8,
    /// The configuration field: the security mode in bits 12 to 8, the number of encrypted blocks in bits 7 to 4.
    pub cf: u16,
    /// The extension of the configuration field, which a header of mode 7 has: the derivation of its keys in bits 5
    /// and 4, the key's id in bits 3 to 0.
    pub cfe: Option<u8>,
    /// How many bytes the header has, from its CI on: 5 or 13, and one more in mode 7.
    pub len: usize,
}

/// Why bytes begin with no transport header: the first of these that applies.
#[derive(Clone, Copy)]
pub enum TplFault {
    /// There is no byte, or there are fewer than the header has. There are this many.
    Truncated(usize),
    /// The CI is of no header that is read, but this one.
    Unbuilt(u8),
}

impl Tpl {
    /// The security mode.
    pub fn mode(&self) -> u8
        ensures { result ≡ mode_of self.now.cf }
    {
        mode(self.cf)
    }

    /// N, how many blocks of 16 bytes are encrypted behind the header.
    pub fn blocks(&self) -> u8
        ensures { result ≡ blocks_of self.now.cf }
    {
        (self.cf >> 4 & 0xF) as u8
    }

    /// B, bit 15 of the configuration field. In mode 5 it says with A when the meter listens.
    pub fn is_bidirectional(&self) -> bool
        ensures { result ≡ is_bidirectional self.now.cf }
    {
        self.cf >> 15 & 1 == 1
    }

    /// A, bit 14 of the configuration field. In mode 5 it says with B when the meter listens.
    pub fn is_accessible(&self) -> bool
        ensures { result ≡ is_accessible self.now.cf }
    {
        self.cf >> 14 & 1 == 1
    }

    /// Which derivation gives the keys of a message of mode 7: 1 is CMAC.
    pub fn derivation(&self) -> Option<u8>
        ensures { result ≡ option_map derivation_of self.now.cfe }
    {
        self.cfe.map(|cfe| cfe >> 4 & 3)
    }

    /// The id of the key under which a message of mode 7 is secured.
    pub fn key_id(&self) -> Option<u8>
        ensures { result ≡ option_map key_id_of self.now.cfe }
    {
        self.cfe.map(|cfe| cfe & 0xF)
    }
}

// How many bytes an extension has.
fn extension_len(cfe: Option<u8>) -> usize
    ensures { result ≡ length (cfe_bytes cfe) }
{
    match cfe {
        None => 0,
        Some(_) => 1,
    }
}

// The header with this tail, where the CI and the address have that many bytes.
fn header_with(ci: u8, address: Option<Address>, len: usize, tail: Tail) -> Tpl
    requires { len < 10 }
    ensures { result ≡ with_tail ci address len tail }
{
    Tpl {
        ci,
        address,
        acc: tail.acc,
        status: tail.status,
        cf: tail.cf,
        cfe: tail.cfe,
        len: len + (4 + extension_len(tail.cfe)),
    }
}

// The address with which the bytes begin, and what follows.
#[tactic(auto, unfolding(crate::specs::Header::address_at))]
fn read_address(bytes: &[u8]) -> Option<(Address, &[u8])>
    ensures { option_map (λ x. (x.0, x.1.now)) result ≡ address_at bytes.now }
{
    match bytes {
        [i, j, k, l, m, n, version, kind, rest @ ..] => {
            let address = Address::from_bytes([*m, *n, *i, *j, *k, *l, *version, *kind]);
            Some((address, rest))
        }
        _ => None,
    }
}

// The short header of this CI.
#[tactic(auto, unfolding(crate::specs::Header::short_at))]
fn read_short(ci: u8, rest: &[u8]) -> Option<Tpl>
    ensures { result ≡ short_at ci rest.now }
{
    Some(header_with(ci, None, 1, read_tail(rest)?))
}

// The long header of this CI.
#[tactic(auto, unfolding(crate::specs::Header::long_at))]
fn read_long(ci: u8, rest: &[u8]) -> Option<Tpl>
    ensures { result ≡ long_at ci rest.now }
{
    let (address, rest) = read_address(rest)?;
    Some(header_with(ci, Some(address), 9, read_tail(rest)?))
}

// The header with which the bytes begin, or the first fault.
#[tactic(auto, unfolding(crate::specs::Header::tpl_at))]
fn read_header(bytes: &[u8]) -> Result<Tpl, TplFault>
    ensures { result ≡ tpl_at bytes.now }
{
    let fault = TplFault::Truncated(bytes.len());
    match bytes {
        [] => Err(fault),
        [ci @ (SHORT_RESPONSE | SHORT_TRANSPORT), rest @ ..] => read_short(*ci, rest).ok_or(fault),
        [ci @ (LONG_RESPONSE | LONG_TRANSPORT), rest @ ..] => read_long(*ci, rest).ok_or(fault),
        [ci, ..] => Err(TplFault::Unbuilt(*ci)),
    }
}

/// The transport header with which the bytes begin.
#[tactic(auto, using(crate::proofs::Faults::is_fault))]
pub fn read_tpl(bytes: &[u8]) -> Result<Tpl, TplFault>
    // What is read is spelled so, and what is spelled so is read.
    ensures found { IfOk result (λ t. BeginsWithTpl bytes.now t) }
    ensures only { (t : Tpl) → BeginsWithTpl bytes.now t → result ≡ Ok t }

    // A fault is the one that the bytes show.
    ensures fault { (f : TplFault) → (result ≡ Err f) ↔ IsTplFault bytes.now f }
    ensures exact { result ≡ tpl_at bytes.now }
{
    read_header(bytes)
}
