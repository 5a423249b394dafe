//! How a run ends, and what that means in words.
use line_teller::LinesEnd;
use std::fmt;

/// How a run ended, by how its lines did.
#[derive(Clone, Copy)]
pub(crate) struct Said {
    /// How they ended.
    pub end: LinesEnd,
}

impl Said {
    ghost use Rattle.std.specs.Prelude.{◌≡◌};
    ghost use Rattle.address_list.specs.Run.{code_of};

    /// The exit status of the program.
    pub(crate) fn code(self) -> u8
        ensures { result ≡ code_of self.end }
    {
        match self.end {
            LinesEnd::Done => 0,
            LinesEnd::Read => 5,
            LinesEnd::Write => 7,
            LinesEnd::Cut => 8,
            LinesEnd::Memory => 10,
        }
    }
}

impl fmt::Display for Said {
    fn fmt<W: fmt::Write>(&self, f: &mut fmt::Formatter<W>) -> fmt::Result {
        f.write_str(match self.end {
            LinesEnd::Done => "address_list: all lines are listed",
            LinesEnd::Read =>
                "address_list: the lines can't be read; those that were read are listed",
            LinesEnd::Write => "address_list: cannot write an address",
            LinesEnd::Cut => {
                "address_list: there are more than 131,072 lines or 67,108,864 bytes; those before are listed"
            }
            LinesEnd::Memory => "address_list: no memory",
        })
    }
}

/// Words that ask for nothing.
#[derive(Clone, Copy)]
pub(crate) struct Stopped;

impl fmt::Display for Stopped {
    fn fmt<W: fmt::Write>(&self, f: &mut fmt::Formatter<W>) -> fmt::Result {
        f.write_str("address_list: give the lines of one receiver, or - for the standard input")
    }
}
