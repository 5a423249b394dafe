//! What holds of what is fed. These functions do nothing: each one's contract is a law.
ghost use Rattle.line_feed.specs.Laws.{TelegramsAreWhole, LinesAreReadBack};

/// What is heard is a telegram, of bytes.
pub fn telegrams_are_whole()
    ensures { TelegramsAreWhole }
{}

/// What is printed for a line that is taken is a line, whatever comes behind it, which is read as the telegram's frame of format A, heard at
/// the moment of the line.
pub fn lines_are_read_back()
    ensures { LinesAreReadBack }
{}
