//! What holds of the definitions themselves: each function's contract is a law.
ghost use Rattle.message_check.specs.Keys.{OneKeyAlone};
ghost use Rattle.message_check.specs.Layers.{OneReading, ContentAtBody};
ghost use Rattle.message_check.specs.Opening.{CheckedAreOpened, GenuineAreOpened};
ghost use Rattle.message_check.specs.Refusals.{RefusedExactly5, RefusedExactly7};

/// A telegram has at most one reading.
pub fn a_telegram_has_one_reading()
    ensures { OneReading }
{}

/// The piece or the message of a telegram stands at the place that its reading names, and goes to the telegram's end.
pub fn content_stands_at_body()
    ensures { ContentAtBody }
{}

/// A meter without a second key has its first one for every message, whatever key id a header names.
#[tactic(auto, using(crate::proofs::OpeningLaws::one_key_alone))]
pub fn one_key_is_for_all_messages()
    ensures { OneKeyAlone }
{}

/// What is opened in mode 5 are the checked messages, and they say what they are opened to.
pub fn checked_messages_are_opened()
    ensures { CheckedAreOpened }
{}

/// What is opened in mode 7 are the genuine messages, and they say what they are opened to.
pub fn genuine_messages_are_opened()
    ensures { GenuineAreOpened }
{}

/// In mode 5 each refusal comes exactly where its cause is the first.
pub fn refusals_of_mode_5_have_their_causes()
    ensures { RefusedExactly5 }
{}

/// In mode 7 each refusal comes exactly where its cause is the first.
pub fn refusals_of_mode_7_have_their_causes()
    ensures { RefusedExactly7 }
{}
