//! One sender's messages.
ghost use Rattle.std.specs.Prelude.{◌≡◌, ◌↔◌};
ghost use Rattle.line_accept.specs.declared.fence.Asked.{Asked};
ghost use Rattle.line_accept.specs.Fences.{is_past, is_next, behind, answer_of, passed, IsNext, IsPast, IsBeyond};

/// What a sender gave a message: an epoch, and the message's number there, from 1.
#[derive(Clone, Copy)]
pub struct Numbered {
    /// The epoch in which the sender numbered it.
    pub epoch: u64,
    /// Its number in that epoch.
    pub number: u32,
}

/// Up to where a sender's messages were taken.
#[derive(Clone, Copy)]
pub struct Fence {
    /// The epoch of the last message that was taken, or 0.
    pub epoch: u64,
    /// Its number, or 0.
    pub number: u32,
}

/// What a sender is asked for: its messages of an epoch from a number on.
#[derive(Clone, Copy)]
pub struct Asked {
    /// The epoch.
    pub epoch: u64,
    /// The number.
    pub number: u64,
}

/// What is answered to a message.
#[derive(Clone, Copy)]
pub enum Answer {
    /// It is taken.
    Taken,
    /// It was taken before, or is of an earlier epoch.
    Again,
    /// Messages before it are missing, from here on.
    Gap(Asked),
    /// Nobody knows its sender.
    Unknown,
}

impl Fence {
    // Whether a message isn't beyond the fence.
    #[tactic(auto, unfolding(crate::specs::Fences::is_past))]
    fn is_past(&self, message: &Numbered) -> bool
        ensures { result ≡ is_past self.now message.now }
    {
        message.epoch < self.epoch || (message.epoch == self.epoch && message.number <= self.number)
    }

    // Whether a message is the very next one.
    #[tactic(auto, unfolding(crate::specs::Fences::is_next))]
    fn is_next(&self, message: &Numbered) -> bool
        ensures { result ≡ is_next self.now message.now }
    {
        if message.epoch == self.epoch {
            u64::from(message.number) == u64::from(self.number) + 1
        } else {
            self.epoch < message.epoch && message.number == 1
        }
    }

    // What is asked for where messages are missing behind the fence.
    fn behind(&self) -> Asked
        ensures { result ≡ behind self.now }
    {
        Asked {
            epoch: self.epoch,
            number: u64::from(self.number) + 1,
        }
    }

    // What is answered to a message of this sender.
    #[tactic(auto, unfolding(crate::specs::Fences::answer_of))]
    fn answer(&self, message: &Numbered) -> Answer
        ensures answer { result ≡ answer_of self.now message.now }
    {
        if self.is_next(message) {
            return Answer::Taken;
        }
        if self.is_past(message) {
            return Answer::Again;
        }
        Answer::Gap(self.behind())
    }

    // Sets the fence behind a message, if that is the very next one.
    #[tactic(auto, unfolding(crate::specs::Fences::passed))]
    fn pass(&mut self, message: &Numbered)
        ensures { self.new ≡ passed self.old message.now }
    {
        if self.is_next(message) {
            self.epoch = message.epoch;
            self.number = message.number;
        }
    }

    /// Takes a message of this sender, if it is the very next one. Where messages before it are missing they are asked for.
    #[tactic(auto, using(crate::proofs::Judging::taken_next, crate::proofs::Judging::again_past, crate::proofs::Judging::gap_beyond))]
    pub fn accept(&mut self, message: &Numbered) -> Answer
        ensures answer { result ≡ answer_of self.old message.now }
        ensures after { self.new ≡ passed self.old message.now }
        ensures taken { (result ≡ Answer.Taken) ↔ IsNext self.old message.now }
        ensures again { (result ≡ Answer.Again) ↔ IsPast self.old message.now }
        ensures gap { (asked : Asked) → (result ≡ Answer.Gap asked) ↔ (IsBeyond self.old message.now × (asked ≡ behind self.old)) }
    {
        let answer = self.answer(message);
        self.pass(message);
        answer
    }
}
