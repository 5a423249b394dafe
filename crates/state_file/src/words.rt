//! The words that are printed for what is wrong with a line.
ghost use Rattle.std.specs.Prelude.{◌≡◌};
ghost use Rattle.state_file.specs.Words.{roster_word, meter_word, state_word};

use crate::cause::StateCause;
use crate::fault::FileCause;
use roster_file::LineCause;

/// The word for what is wrong with a line of a roster.
pub fn roster_word(cause: LineCause) -> &'static str
    ensures { result.now ≡ roster_word cause }
{
    match cause {
        LineCause::TooLong => "toolong",
        LineCause::Head => "head",
        LineCause::Own => "own",
        LineCause::Kind => "kind",
        LineCause::Fields => "fields",
        LineCause::Address => "address",
        LineCause::Mode => "mode",
        LineCause::Key => "key",
        LineCause::Other => "other",
        LineCause::Last => "last",
        LineCause::Down => "down",
        LineCause::Ids => "ids",
        LineCause::Same => "same",
        LineCause::TooMany => "toomany",
        LineCause::Missing => "missing",
    }
}

fn meter_word(cause: StateCause) -> &'static str
    ensures { result.now ≡ meter_word cause }
{
    match cause {
        StateCause::Kind => "kind",
        StateCause::Fields => "fields",
        StateCause::Twice => "twice",
        StateCause::At => "at",
        StateCause::Counter => "counter",
        StateCause::Payload => "payload",
        StateCause::Part => "part",
        StateCause::Id => "id",
        StateCause::Tries => "tries",
        StateCause::Command => "command",
    }
}

/// The word for what is wrong with a line of a state.
pub fn state_word(cause: FileCause) -> &'static str
    ensures { result.now ≡ state_word cause }
{
    match cause {
        FileCause::Roster(cause) => roster_word(cause),
        FileCause::Meter(cause) => meter_word(cause),
        FileCause::Place => "place",
        FileCause::Behind => "behind",
    }
}
