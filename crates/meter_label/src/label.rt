//! A label and its address.
ghost use Rattle.std.specs.Prelude.{◌≡◌, ◌≤◌, ◌↔◌, IsTrue};
ghost use Rattle.meter_label.specs.Label.{is_capital, number_of};

use meter_address::Address;

/// What stands on a meter's label.
#[derive(Clone, Copy)]
pub struct Label {
    /// The letters of the maker (EN 13757-3, the manufacturer's identification).
    pub letters: [u8; 3],
    /// The identification as it is printed, two digits a byte, the first two first.
    pub identification: [u8; 4],
    /// The version.
    pub version: u8,
    /// The device type (EN 13757-3), as a number.
    pub kind: u8,
}

// Whether a byte is a letter from A to Z.
fn is_capital(letter: u8) -> bool
    ensures fact { IsTrue result ↔ ((65 ≤ letter) × (letter ≤ 90)) }
    ensures exact { result ≡ is_capital letter }
{
    65 <= letter && letter <= 90
}

// The number of a maker, where these are three capital letters.
#[tactic(auto, unfolding(crate::specs::Label::number_of))]
fn number_of(letters: [u8; 3]) -> Option<u16>
    ensures { result ≡ number_of letters }
{
    let [first, second, third] = letters;
    if !is_capital(first) {
        return None;
    }
    if !is_capital(second) {
        return None;
    }
    if !is_capital(third) {
        return None;
    }
    Some((first as u16 - 64) * 1024 + (second as u16 - 64) * 32 + (third as u16 - 64))
}

impl Label {
    ghost use Rattle.meter_label.specs.Label.{label_of, address_of};

    /// The label of the meter with this address (EN 13757-4): none where its maker has no three letters.
    #[tactic(auto, unfolding(crate::specs::Label::label_of))]
    pub fn of_address(address: Address) -> Option<Label>
        ensures { result ≡ label_of address }
    {
        let letters = address.letters()?;
        let [_, _, i, j, k, l, version, kind] = address.to_bytes();
        Some(Label {
            letters,
            identification: [l, k, j, i],
            version,
            kind,
        })
    }

    /// The address of the meter with this label: none where the maker isn't three capital letters.
    #[tactic(auto, unfolding(crate::specs::Label::address_of))]
    pub fn address(self) -> Option<Address>
        ensures { result ≡ address_of self }
    {
        let number = number_of(self.letters)?;
        let [low, high] = number.to_le_bytes();
        let [l, k, j, i] = self.identification;
        Some(Address::from_bytes([low, high, i, j, k, l, self.version, self.kind]))
    }
}
