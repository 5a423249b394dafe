//! How a program ends.
ghost use Rattle.std.specs.Prelude.{◌≡◌};
ghost use Rattle.std.specs.Process.{exit_status};

use std::fmt::{self, Display};
use std::process::ExitCode;

/// A status said by its number alone, as `NAME: status N`.
#[derive(Clone, Copy)]
pub struct Numbered {
    /// The program's name.
    pub program: &'static str,
    /// The exit status.
    pub code: u8,
}

impl Display for Numbered {
    fn fmt<W: fmt::Write>(&self, f: &mut fmt::Formatter<W>) -> fmt::Result {
        write!(f, "{}: status {}", self.program, self.code)
    }
}

/// Ends with a status, and says on the standard error what it means, unless all is done (status 0).
pub fn end<D: Display + Drop>(rt: &impl Eprint, code: u8, said: D) -> ExitCode
    ensures { exit_status result ≡ code }
{
    if code != 0 {
        let _ = rt.eprintln(said);
    }
    ExitCode::from(code)
}

/// Ends with status 11, for the file of this name that can't be opened, and says so.
pub fn cannot_open(rt: &impl Eprint, program: &str, name: &str) -> ExitCode
    ensures { exit_status result ≡ 11 }
{
    let _ = eprintln!(rt; "{program}: cannot open {name}");
    ExitCode::from(11)
}
