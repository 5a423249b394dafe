//! What a line gives, or why it gives nothing.
ghost use Rattle.line_feed.specs.Heard.{Means};

use crate::moments::Moment;
use crate::reasons::NotTaken;
use frame_formats::Telegram;

/// A telegram as a receiver printed it, with the moment that its line names.
#[derive(Drop)]
pub struct Reception {
    /// The telegram.
    pub telegram: Telegram,
    /// The moment that the line names.
    pub moment: Option<Moment>,
}

/// Why nothing was heard.
#[derive(Clone, Copy)]
pub enum Unheard {
    /// The line isn't taken.
    Refused(NotTaken),
    /// Memory ran out.
    Memory,
}

/// The same answer where it took no memory.
pub(crate) fn said(answer: Result<Reception, NotTaken>) -> Result<Reception, Unheard>
    ensures { Means result answer }
{
    match answer {
        Ok(heard) => Ok(heard),
        Err(reason) => Err(Unheard::Refused(reason)),
    }
}
