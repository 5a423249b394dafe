//! What the programs say of a status.
use crate::status::ChangeStatus;
use meter_address::Address;
use state_file::{roster_word, state_word};
use std::fmt;

/// A status, said by the program of this name.
#[derive(Clone, Copy)]
pub struct ChangeMessage {
    /// The program's name.
    pub program: &'static str,
    /// How the change ended.
    pub status: ChangeStatus,
}

fn write_spent<W: fmt::Write>(
    f: &mut fmt::Formatter<W>,
    program: &str,
    address: Address,
) -> fmt::Result {
    write!(f, "{program}: spent ")?;
    for byte in address.to_bytes() {
        write!(f, "{byte:02x}")?;
    }
    Ok(())
}

/// The line for the standard error, without its end.
impl fmt::Display for ChangeMessage {
    fn fmt<W: fmt::Write>(&self, f: &mut fmt::Formatter<W>) -> fmt::Result {
        let program = self.program;
        match self.status {
            ChangeStatus::StateRoster(line, cause) => {
                let word = roster_word(cause);
                write!(f, "{program}: state line {line} {word}")
            }
            ChangeStatus::State(line, cause) => {
                let word = state_word(cause);
                write!(f, "{program}: state line {line} {word}")
            }
            ChangeStatus::Roster(line, cause) => {
                let word = roster_word(cause);
                write!(f, "{program}: roster line {line} {word}")
            }
            ChangeStatus::Spent(address) => write_spent(f, program, address),
            _ => {
                let code = self.status.code();
                write!(f, "{program}: status {code}")
            }
        }
    }
}
