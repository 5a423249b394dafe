//! How a run ended.
use crate::fault::SendersCause;
use line_teller::LinesEnd;

/// How a run ended: the first of these that applies, in this order, but for `Done`, `Write` and `Memory`.
#[derive(Clone, Copy)]
pub enum AcceptStatus {
    /// Status 0: all lines were answered, and the output has its whole text.
    Done,
    /// Status 2: there isn't exactly one word, the file of the senders.
    Words,
    /// Status 4: the file of the senders can't be read.
    ReadSenders,
    /// Status 3: the first faulty line of the senders, and what is wrong with it.
    Senders(u32, SendersCause),
    /// Status 5: the deliveries can't be read; the lines taken are answered.
    Read,
    /// Status 8: the deliveries go past the limit of lines or bytes; the lines before are answered.
    Cut,
    /// Status 7: the output can't be written, whatever else there is.
    Write,
    /// Status 10: there is no memory.
    Memory,
}

impl AcceptStatus {
    ghost use Rattle.std.specs.Prelude.{◌≡◌};
    ghost use Rattle.line_accept.specs.Run.{code_of, status_of};

    /// The exit status of the program.
    pub fn code(self) -> u8
        ensures { result ≡ code_of self }
    {
        match self {
            AcceptStatus::Done => 0,
            AcceptStatus::Words => 2,
            AcceptStatus::Senders(..) => 3,
            AcceptStatus::ReadSenders => 4,
            AcceptStatus::Read => 5,
            AcceptStatus::Write => 7,
            AcceptStatus::Cut => 8,
            AcceptStatus::Memory => 10,
        }
    }

    // The status of lines that ended so.
    pub(crate) fn of_lines(end: LinesEnd) -> AcceptStatus
        ensures { result ≡ status_of end }
    {
        match end {
            LinesEnd::Done => AcceptStatus::Done,
            LinesEnd::Read => AcceptStatus::Read,
            LinesEnd::Cut => AcceptStatus::Cut,
            LinesEnd::Write => AcceptStatus::Write,
            LinesEnd::Memory => AcceptStatus::Memory,
        }
    }
}
