//! What holds of the definitions. These functions do nothing: each one's contract is a law.
ghost use Rattle.frame_inspect.specs.Laws.{RecordsAreListed, WholeMessagesSpeak};

/// The text of a payload is that of its one listing: a line for each of its records, and then the fault that ends them, if one does.
pub fn records_are_listed()
    ensures { RecordsAreListed }
{}

/// What is found in a telegram with a whole message is what this message says by itself, or its first refusal.
pub fn whole_messages_speak()
    ensures { WholeMessagesSpeak }
{}
