//! What holds of streams. These functions do nothing: each one's contract is a law.
ghost use Rattle.line_feed.specs.StreamLaws.{StreamsAreLines};

/// Within the limits of a receiver's file a stream ends as the lines of such a file do.
pub fn streams_are_lines()
    ensures { StreamsAreLines }
{}
