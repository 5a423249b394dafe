//! What the program says of a status.
use crate::status::SideStatus;
use state_file::state_word;
use std::fmt;

/// The line for the standard error, without its end.
impl fmt::Display for SideStatus {
    fn fmt<W: fmt::Write>(&self, f: &mut fmt::Formatter<W>) -> fmt::Result {
        match self {
            SideStatus::State(line, cause) => {
                let word = state_word(*cause);
                write!(f, "meter_side: state line {line} {word}")
            }
            _ => {
                let code = self.code();
                write!(f, "meter_side: status {code}")
            }
        }
    }
}
