//! What the program says of a status.
ghost use Rattle.std.specs.Prelude.{◌≡◌};
ghost use Rattle.line_accept.specs.Words.{cause_word};

use crate::fault::SendersCause;
use crate::status::AcceptStatus;
use std::fmt;

/// The word for what is wrong with a line of senders.
pub fn cause_word(cause: SendersCause) -> &'static str
    ensures { result.now ≡ cause_word cause }
{
    match cause {
        SendersCause::TooLong => "toolong",
        SendersCause::Head => "head",
        SendersCause::Kind => "kind",
        SendersCause::Fields => "fields",
        SendersCause::Name => "name",
        SendersCause::Epoch => "epoch",
        SendersCause::Number => "number",
        SendersCause::Same => "same",
        SendersCause::Missing => "missing",
        SendersCause::Behind => "behind",
    }
}

/// The line for the standard error, without its end.
impl fmt::Display for AcceptStatus {
    fn fmt<W: fmt::Write>(&self, f: &mut fmt::Formatter<W>) -> fmt::Result {
        match self {
            AcceptStatus::Senders(line, cause) => {
                let word = cause_word(*cause);
                write!(f, "line_accept: state line {line} {word}")
            }
            _ => {
                let code = self.code();
                write!(f, "line_accept: status {code}")
            }
        }
    }
}
