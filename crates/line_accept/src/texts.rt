//! The texts of answers, and of the senders whose fences moved.
ghost use Rattle.std.specs.Prelude.{◌≡◌, option_map, option_copied};
ghost use Rattle.paper.specs.Puts.{Puts};
ghost use Rattle.line_accept.specs.Answers.{numbers_text, ask_text, answer_text, sender_text, is_fence, moved_line, moved_both, moved_at};

use crate::fence::{Answer, Asked, Fence};
use crate::senders::Senders;
use paper::{Paper, Printed, put_number, put_text};

#[tactic(auto, unfolding(crate::specs::Answers::numbers_text), using(paper::proofs::Calls::four_make))]
fn put_numbers<P: Paper>(paper: &mut P, epoch: u64, number: u64)
    ensures { Puts P.takes paper.old (numbers_text epoch number) paper.new }
{
    put_number(paper, epoch);
    put_text(paper, " ");
    put_number(paper, number);
    put_text(paper, "\n");
}

#[tactic(auto, unfolding(crate::specs::Answers::ask_text), using(paper::proofs::Calls::two_make))]
fn put_ask<P: Paper>(paper: &mut P, asked: Asked)
    ensures { Puts P.takes paper.old (ask_text asked) paper.new }
{
    put_text(paper, "ask ");
    put_numbers(paper, asked.epoch, asked.number);
}

/// Puts an answer.
pub(crate) fn put_answer<P: Paper>(paper: &mut P, answer: Answer)
    ensures { Puts P.takes paper.old (answer_text answer) paper.new }
{
    match answer {
        Answer::Taken => put_text(paper, "take\n"),
        Answer::Again => put_text(paper, "again\n"),
        Answer::Gap(asked) => put_ask(paper, asked),
        Answer::Unknown => put_text(paper, "unknown\n"),
    }
}

#[tactic(auto, using(paper::proofs::Calls::once))]
fn put_name<P: Paper>(paper: &mut P, name: &[u8])
    ensures { Puts P.takes paper.old name.now paper.new }
{
    paper.put(name);
}

#[tactic(auto, unfolding(crate::specs::Answers::sender_text), using(paper::proofs::Calls::four_make))]
fn put_sender<P: Paper>(paper: &mut P, name: &[u8], fence: Fence)
    ensures { Puts P.takes paper.old (sender_text (record { name = name.now; fence = fence })) paper.new }
{
    put_text(paper, "sender ");
    put_name(paper, name);
    put_text(paper, " ");
    put_numbers(paper, fence.epoch, u64::from(fence.number));
}

fn is_fence(fence: Fence, other: Fence) -> bool
    ensures { result ≡ is_fence fence other }
{
    fence.epoch == other.epoch && fence.number == other.number
}

#[tactic(auto, using(paper::proofs::Calls::none))]
fn put_moved<P: Paper>(paper: &mut P, first: Fence, name: &[u8], fence: Fence)
    ensures { Puts P.takes paper.old (moved_line first (record { name = name.now; fence = fence })) paper.new }
{
    if !is_fence(first, fence) {
        put_sender(paper, name, fence);
    }
}

#[tactic(auto, using(paper::proofs::Calls::none))]
fn put_moved_both<P: Paper>(paper: &mut P, first: Option<&Fence>, sender: Option<(&[u8], Fence)>)
    ensures { Puts P.takes paper.old (moved_both (option_copied first.entry)
        (option_map (λ s. record { name = s.0.now; fence = s.1 }) sender.entry)) paper.new }
{
    let Some(first) = first else {
        return;
    };
    let Some((name, fence)) = sender else {
        return;
    };
    put_moved(paper, *first, name, fence);
}

#[tactic(auto, using(crate::proofs::MovedTexts::put_there))]
fn put_moved_at<P: Paper>(paper: &mut P, firsts: &[Fence], senders: &Senders, place: usize)
    ensures { Puts P.takes paper.old (moved_at firsts.now senders.now place) paper.new }
{
    put_moved_both(paper, firsts.get(place), senders.at(place));
}

/// The senders whose fences aren't those that they had at first, a line each.
#[derive(Drop)]
pub(crate) struct Moved<'a> {
    pub(crate) firsts: &'a [Fence],
    pub(crate) senders: &'a Senders,
}

impl Printed for Moved<'_> {
    ghost use Rattle.line_accept.specs.Answers.{moved_text};

    ghost text = { λ m. moved_text m.firsts.now m.senders.now };

    fn print<P: Paper>(&self, paper: &mut P) {
        for place in 0..self.firsts.len() {
            put_moved_at(paper, self.firsts, self.senders, place);
        }
    }
}
