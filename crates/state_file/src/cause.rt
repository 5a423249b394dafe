//! Why a line of a state is refused.

/// What is wrong with a line below a meter's line: the first of these that applies.
#[derive(Clone, Copy)]
pub enum StateCause {
    /// The first field is none of the words that can stand here.
    Kind,
    /// Another number of fields.
    Fields,
    /// The meter has a reading already.
    Twice,
    /// The moment of a reading.
    At,
    /// The counter of a reading.
    Counter,
    /// A payload.
    Payload,
    /// The bytes are no fragment of a message.
    Part,
    /// The id of a command.
    Id,
    /// How often a command was sent.
    Tries,
    /// The command can't stand behind those above it.
    Command,
}

/// Why a line isn't taken.
#[derive(Clone, Copy)]
pub enum LineFault {
    /// This is wrong with it.
    Cause(StateCause),
    /// There is no memory.
    Memory,
}
