//! What the words name.
ghost use Rattle.std.specs.Prelude.{◌≡◌, map, IfOk, IfErr};
ghost use Rattle.std.specs.String.{string_bytes};
ghost use Rattle.outer_io.specs.Shown.{sink_change};
ghost use Rattle.paper.specs.Puts.{Puts};
ghost use Rattle.meter_name.specs.Naming.{named_address, named_label, named_by, named_text, label_line, address_line};
ghost use Rattle.meter_name.specs.Printing.{IsPrinted};

use crate::status::NameStatus;
use meter_address::Address;
use meter_label::{Label, LabelFault, device_type_word, put_label, read_label};
use outer_io::Sink;
use paper::{Paper, Printed, put_hex, put_text, write};

/// Why the words name no meter.
#[derive(Clone, Copy)]
pub enum NameFault {
    /// There is neither one word nor four.
    Count,
    /// A word isn't UTF-8.
    NotText,
    /// The one word is no address.
    Address,
    /// The maker of the address has no three letters.
    NoLetters,
    /// The four words are no label.
    Label(LabelFault),
}

/// The other name of a meter, which is printed.
#[derive(Clone, Copy)]
pub enum Named {
    /// The address of four words.
    Address(Address),
    /// The label of an address.
    Label(Label),
}

// The label of an address.
#[tactic(auto, unfolding(crate::specs::Naming::named_label))]
fn named_label(text: &[u8]) -> Result<Label, NameFault>
    ensures { result ≡ named_label text.now }
{
    let Ok(address) = Address::read_text(text) else {
        return Err(NameFault::Address);
    };
    Label::of_address(address).ok_or(NameFault::NoLetters)
}

// The address of a label.
#[tactic(auto, unfolding(crate::specs::Naming::named_address))]
fn named_address(
    letters: &[u8],
    identification: &[u8],
    version: &[u8],
    kind: &[u8],
) -> Result<Address, NameFault>
    ensures { result ≡ named_address letters.now identification.now version.now kind.now }
{
    match read_label(letters, identification, version, kind) {
        Ok(label) => label.address().ok_or(NameFault::Label(LabelFault::Letters)),
        Err(fault) => Err(NameFault::Label(fault)),
    }
}

// The other name of what the words name.
fn named_by(words: &[String]) -> Result<Named, NameFault>
    ensures { result ≡ named_by (map string_bytes words.now) }
{
    match words {
        [address] => Ok(Named::Label(named_label(address.as_bytes())?)),
        [letters, identification, version, kind] => Ok(Named::Address(named_address(
            letters.as_bytes(),
            identification.as_bytes(),
            version.as_bytes(),
            kind.as_bytes(),
        )?)),
        _ => Err(NameFault::Count),
    }
}

// Puts a label and its device type in words.
#[tactic(auto, unfolding(crate::specs::Naming::label_line), using(paper::proofs::Calls::four_make))]
fn put_label_line<P: Paper>(paper: &mut P, label: &Label)
    ensures { Puts P.takes paper.old (label_line label.now) paper.new }
{
    put_label(paper, label);
    put_text(paper, " ");
    put_text(paper, device_type_word(label.kind));
    put_text(paper, "\n");
}

// Puts an address.
#[tactic(auto, unfolding(crate::specs::Naming::address_line), using(paper::proofs::Calls::two_make))]
fn put_address_line<P: Paper>(paper: &mut P, address: Address)
    ensures { Puts P.takes paper.old (address_line address) paper.new }
{
    put_hex(paper, &address.to_bytes());
    put_text(paper, "\n");
}

impl Printed for Named {
    ghost text = { named_text };

    fn print<P: Paper>(&self, paper: &mut P) {
        match self {
            Named::Address(address) => put_address_line(paper, *address),
            Named::Label(label) => put_label_line(paper, label),
        }
    }
}

/// Prints the other name of the meter that the words name: one word is its address, four are those of its label.
pub fn name_run<K: Sink>(words: &[String], out: &mut K) -> NameStatus
    ensures named { IfOk (named_by (map string_bytes words.now)) (λ named.
        IsPrinted K.tells (named_text named) (sink_change K.Sink out.old out.new) result) }

    // What is wrong with the words, and then nothing is written.
    ensures refused { IfErr (named_by (map string_bytes words.now)) (λ fault. result ≡ NameStatus.Words fault) }
    ensures silent { IfErr (named_by (map string_bytes words.now)) (λ _. out.new ≡ out.old) }
{
    match named_by(words) {
        Ok(named) => match write(out, &named) {
            Ok(()) => NameStatus::Done,
            Err(_) => NameStatus::Write,
        },
        Err(fault) => NameStatus::Words(fault),
    }
}
