//! Laws of what is taken: each function's contract is a law.
ghost use Rattle.line_accept.specs.Laws.{CutRunsAreOne, EachSenderAlone, SentAgainIsTaken, TakenAreFronts};

/// Whatever other senders deliver in between, of each sender is taken what its own deliveries alone give.
pub fn each_sender_alone()
    ensures { EachSenderAlone }
{}

/// Whatever is lost, repeated or reordered: what is taken of each sender in each epoch is a front of what it numbered there behind what was
/// taken before, each message once, in order, without a gap; and its epochs never fall.
pub fn taken_are_fronts()
    ensures { TakenAreFronts }
{}

/// Two runs, the second one begun as the first one left the senders, take what one run takes.
pub fn cut_runs_are_one()
    ensures { CutRunsAreOne }
{}

/// What a sender was asked for, and sends again in order, is taken whole.
pub fn sent_again_is_taken()
    ensures { SentAgainIsTaken }
{}
