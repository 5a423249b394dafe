//! A label from its words.
ghost use Rattle.std.specs.Prelude.{◌≡◌, Some};
ghost use Rattle.meter_label.specs.Reading.{letters_in, identification_in, byte_in, label_in};

use crate::label::Label;
use hex::FromHex;

/// Why four words are no label: the first one that is none.
#[derive(Clone, Copy)]
pub enum LabelFault {
    /// The first word isn't three capital letters.
    Letters,
    /// The second word isn't eight hexadecimal digits.
    Identification,
    /// The third word isn't two hexadecimal digits.
    Version,
    /// The fourth word isn't two hexadecimal digits.
    Kind,
}

// Three letters.
fn letters_in(word: &[u8]) -> Option<[u8; 3]>
    ensures { result ≡ letters_in word.now }
{
    let [first, second, third] = word else {
        return None;
    };
    let letters = [*first, *second, *third];
    if letters.iter().all(u8::is_ascii_uppercase) {
        return Some(letters);
    }
    None
}

// Four bytes in hexadecimal.
fn identification_in(word: &[u8]) -> Option<[u8; 4]>
    ensures { result ≡ identification_in word.now }
{
    <[u8; 4] as FromHex>::from_hex(word).ok()
}

// One byte in hexadecimal.
fn byte_in(word: &[u8]) -> Option<u8>
    ensures { result ≡ byte_in word.now }
{
    let [byte] = <[u8; 1] as FromHex>::from_hex(word).ok()?;
    Some(byte)
}

/// The label of four words: the maker's letters, the identification as it is printed, the version and the device type.
#[tactic(auto, unfolding(crate::specs::Reading::label_in))]
pub fn read_label(
    letters: &[u8],
    identification: &[u8],
    version: &[u8],
    kind: &[u8],
) -> Result<Label, LabelFault>
    ensures { result ≡ label_in letters.now identification.now version.now kind.now }
{
    let letters = letters_in(letters).ok_or(LabelFault::Letters)?;
    let identification = identification_in(identification).ok_or(LabelFault::Identification)?;
    let version = byte_in(version).ok_or(LabelFault::Version)?;
    let kind = byte_in(kind).ok_or(LabelFault::Kind)?;
    Ok(Label {
        letters,
        identification,
        version,
        kind,
    })
}
