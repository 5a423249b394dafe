//! The address of a meter.
ghost use Rattle.std.specs.Prelude.{◌≡◌, ◌<◌, ◌≤◌, ◌+◌, ◌^◌, ◌↔◌, ℕ, List, Ok, Err, IfOk, IfSome, IsTrue};
ghost use Rattle.std.specs.Int.{w64, from_be_bytes};
ghost use Rattle.meter_address.specs.Letters.{AreLetters, is_letter, letters_of_number};
ghost use Rattle.hex.specs.declared.error.FromHexError.TheVariants.{InvalidHexCharacter};

use hex::FromHexError;

/// The address of a meter as the link layer has it (EN 13757-4): eight bytes, the first one highest. They are the
/// manufacturer M (two bytes as sent, low byte first), the identification (four bytes as sent), the version and the
/// device type.
#[derive(Clone, Copy, PartialEq, Eq, Hash)]
pub struct Address(pub u64);

/// Why a text is no address.
#[derive(Clone, Copy)]
pub enum AddressFault {
    /// The text hasn't sixteen bytes, but this many.
    Length(usize),
    /// The first byte that is no hexadecimal digit stands at this place, counted from 0.
    Digit(usize),
}

impl Address {
    ghost use Rattle.meter_address.specs.Address.{bytes_of, identification_of, header_order, text_of, address_of, Spells, IsFault};
    ghost use Rattle.std.specs.Result.{result_ok};
    ghost use Rattle.meter_address.specs.Letters.{manufacturer_of, letters_of, AreLetters};

    /// The address with these bytes.
    #[tactic(auto, unfolding(crate::specs::Address::bytes_of))]
    pub fn from_bytes(bytes: [u8; 8]) -> Address
        ensures value { result.0 ≡ from_be_bytes w64 bytes }
        ensures again { bytes_of result ≡ bytes }
    {
        Address(u64::from_be_bytes(bytes))
    }

    /// The bytes of the address.
    #[tactic(auto, unfolding(crate::specs::Address::bytes_of))]
    pub fn to_bytes(self) -> [u8; 8]
        ensures bytes { result ≡ bytes_of self }
        ensures again { from_be_bytes w64 result ≡ self.0 }
    {
        self.0.to_be_bytes()
    }

    /// The identification: four bytes as sent.
    pub fn identification(self) -> [u8; 4]
        ensures { result ≡ identification_of self }
    {
        let [_, _, i, j, k, l, ..] = self.to_bytes();
        [i, j, k, l]
    }

    /// The bytes in the order of a long transport header (EN 13757-7): the identification before M.
    pub fn in_header_order(self) -> [u8; 8]
        ensures order { result ≡ header_order self }
        ensures number { self.0 < 2 ^ 64 }
    {
        let [m, n, i, j, k, l, version, kind] = self.to_bytes();
        [i, j, k, l, m, n, version, kind]
    }

    /// The three letters of the manufacturer (EN 13757-3): none where bit 15 of M is set, or one of its three groups
    /// of five bits isn't 1 to 26.
    #[tactic(auto, unfolding(crate::specs::Address::bytes_of, crate::specs::Letters::letters_of))]
    pub fn letters(self) -> Option<[u8; 3]>
        ensures found { IfSome result (λ letters. AreLetters letters (manufacturer_of self)) }
        ensures only { (letters : List ℕ) → AreLetters letters (manufacturer_of self) → result ≡ Some letters }
        ensures exact { result ≡ letters_of self }
    {
        let [low, high, ..] = self.to_bytes();
        letters_of_manufacturer(u16::from_le_bytes([low, high]))
    }

    /// The address of a text: sixteen hexadecimal digits of either case.
    pub fn read_text(text: &[u8]) -> Result<Address, AddressFault>
        ensures found { IfOk result (λ a. Spells text.now a) }
        ensures only { (a : Address) → a.0 < 2 ^ 64 → Spells text.now a → result ≡ Ok a }
        ensures fault { (f : AddressFault) → (result ≡ Err f) ↔ IsFault text.now f }
        ensures exact { result_ok result ≡ address_of text.now }
    {
        if text.len() != 16 {
            return Err(AddressFault::Length(text.len()));
        }
        let mut bytes = [0; 8];
        match hex::decode_to_slice(text, &mut bytes) {
            Ok(()) => Ok(Address::from_bytes(bytes)),
            Err(refusal) => Err(fault_of(refusal)),
        }
    }

    /// Writes the text of the address, in lower case.
    pub fn write_text(self, out: &mut [u8; 16])
        ensures text { out.new ≡ text_of self }
        ensures again { Spells out.new self }
    {
        let written = hex::encode_to_slice(self.to_bytes().as_slice(), out);
        prove!(written.is_ok());
    }
}

// The fault of a text of even length: its first byte that is no digit.
fn fault_of(refusal: FromHexError) -> AddressFault
    requires { (digit place : ℕ) × (refusal ≡ InvalidHexCharacter digit place) }
    ensures { (digit place : ℕ) → refusal ≡ InvalidHexCharacter digit place → result ≡ AddressFault.Digit place }
{
    match refusal {
        FromHexError::InvalidHexCharacter { index, .. } => AddressFault::Digit(index),
        _ => unreachable!(),
    }
}

// The three letters of M.
fn letters_of_manufacturer(manufacturer: u16) -> Option<[u8; 3]>
    ensures found { IfSome result (λ letters. AreLetters letters manufacturer) }
    ensures only { (letters : List ℕ) → AreLetters letters manufacturer → result ≡ Some letters }
    ensures exact { result ≡ letters_of_number manufacturer }
{
    let first = manufacturer / 1024;
    let second = manufacturer / 32 % 32;
    let third = manufacturer % 32;
    if !is_letter_group(first) {
        return None;
    }
    if !is_letter_group(second) {
        return None;
    }
    if !is_letter_group(third) {
        return None;
    }
    Some([capital(first), capital(second), capital(third)])
}

// Whether a group of five bits stands for a letter. With bit 15 of M set the first group is above 26.
fn is_letter_group(group: u16) -> bool
    ensures fact { IsTrue result ↔ ((1 ≤ group) × (group ≤ 26)) }
    ensures exact { result ≡ is_letter group }
{
    1 <= group && group <= 26
}

// The capital letter of a group.
fn capital(group: u16) -> u8
    requires { group ≤ 26 }
    ensures { result ≡ group + 64 }
{
    group as u8 + 64
}
