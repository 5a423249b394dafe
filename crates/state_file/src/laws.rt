//! Laws of the text.
ghost use Rattle.state_file.specs.Text.{LinesAreReadBack};
ghost use Rattle.state_file.specs.Written.{ReadAreReadAgain, ReadAreStates, RostersAreStates, WrittenAreRead};

/// What is known of a meter is read back from its lines.
pub fn lines_are_read_back()
    ensures { LinesAreReadBack }
{}

/// In each state that is read the addresses differ, there are at most 4,096 meters, and what is known of each can be told.
pub fn read_states_are_states()
    ensures { ReadAreStates }
{}

/// A roster is a state, whose meters are just commissioned.
pub fn rosters_are_states()
    ensures { RostersAreStates }
{}

/// A state that was read is read again from its text, whatever text it was read from.
pub fn read_states_are_read_again()
    ensures { ReadAreReadAgain }
{}

/// A state is read back from its text.
pub fn written_states_are_read_back()
    ensures { WrittenAreRead }
{}
