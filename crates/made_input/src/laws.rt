//! What holds of the definitions themselves: each function's contract is a law.
ghost use Rattle.made_input.specs.Laws.{TurnsAreTaken, UplinksAreGenuine, LinesAreOwn, HeardInAnotherOrder, MadeSessionsAreReadable};

/// The line with a number is that of the meter whose turn it is, with the round as counter, or the stranger's.
pub fn turns_are_taken()
    ensures { TurnsAreTaken }
{}

/// A made meter's telegram is genuine: its MAC verifies under the meter's key. It has its counter, and says its volume.
pub fn uplinks_are_genuine()
    ensures { UplinksAreGenuine }
{}

/// The line of a made meter's telegram is read as that telegram, and is that meter's own line.
pub fn lines_are_own()
    ensures { LinesAreOwn }
{}

/// What a receiver hears are the same lines, in another order.
pub fn lines_are_heard_in_another_order()
    ensures { HeardInAnotherOrder }
{}

/// A made session of at most 1,024 meters and 16,384 telegrams is read as it was made: its roster is that of the meters, and each
/// receiver's text is within the limits and has the lines of all telegrams, in its order.
pub fn made_sessions_are_readable()
    ensures { MadeSessionsAreReadable }
{}
