//! How the program ends.
use crate::naming::NameFault;
use meter_label::LabelFault;
use std::fmt;

/// How a run ended.
#[derive(Clone, Copy)]
pub enum NameStatus {
    /// Status 0: the name is printed.
    Done,
    /// Status 2: the words name no meter.
    Words(NameFault),
    /// Status 7: the name can't be written.
    Write,
    /// Status 10: there is no memory for the words.
    Memory,
}

impl NameStatus {
    ghost use Rattle.std.specs.Prelude.{◌≡◌};
    ghost use Rattle.meter_name.specs.Statuses.{code_of};

    /// The exit status of the program.
    pub fn code(self) -> u8
        ensures { result ≡ code_of self }
    {
        match self {
            NameStatus::Done => 0,
            NameStatus::Words(_) => 2,
            NameStatus::Write => 7,
            NameStatus::Memory => 10,
        }
    }
}

// What is wrong with the words, and what to write in their place.
fn complaint(fault: NameFault) -> &'static str {
    match fault {
        NameFault::Count =>
            "give one word, an address, or four: maker, identification, version, type",
        NameFault::NotText => "a word isn't UTF-8",
        NameFault::Address => "the address isn't sixteen hexadecimal digits",
        NameFault::NoLetters => "the maker of the address is no three letters",
        NameFault::Label(LabelFault::Letters) => "the maker isn't three capital letters",
        NameFault::Label(LabelFault::Identification) => {
            "the identification isn't eight hexadecimal digits"
        }
        NameFault::Label(LabelFault::Version) => "the version isn't two hexadecimal digits",
        NameFault::Label(LabelFault::Kind) => "the device type isn't two hexadecimal digits",
    }
}

impl fmt::Display for NameStatus {
    fn fmt<W: fmt::Write>(&self, f: &mut fmt::Formatter<W>) -> fmt::Result {
        match self {
            NameStatus::Done => f.write_str("meter_name: done"),
            NameStatus::Words(fault) => write!(f, "meter_name: {}", complaint(*fault)),
            NameStatus::Write => f.write_str("meter_name: cannot write the name"),
            NameStatus::Memory => f.write_str("meter_name: no memory"),
        }
    }
}
