//! The line of a telegram, as a receiver's lines have it: the word `A`, the moment, and the telegram's frame of format A.
#![tactic(auto)]

ghost use Rattle.paper.specs.Puts.{Puts};
ghost use Rattle.frame_lines.specs.Laws.{LinesAreReadBack, LinesStandAlone};
ghost use Rattle.frame_lines.specs.Lines.{frame_line};

use frame_formats::{Telegram, encode_a};
use paper::{Paper, put_labelled, put_labelled_bytes, put_text};

/// Puts the line of a telegram that was heard at this moment.
#[tactic(auto, unfolding(crate::specs::Lines::frame_line), using(paper::proofs::Calls::three_make))]
pub fn put_frame_line<P: Paper>(paper: &mut P, at: u64, telegram: &Telegram)
    ensures { Puts P.takes paper.old (frame_line at telegram.now) paper.new }
{
    let mut frame = [0; 290];
    let len = encode_a(telegram, &mut frame);
    put_labelled(paper, "A ", at);
    put_labelled_bytes(paper, " ", &frame[..len]);
    put_text(paper, "\n");
}

/// The line is read as a frame of format A, heard at its moment, which is decoded to the telegram. The function does nothing: its contract is
/// a law.
pub fn lines_are_read_back()
    ensures { LinesAreReadBack }
{}

/// The line is the first of a text, whatever comes behind it, and within the length of a receiver's line. The function does nothing: its
/// contract is a law.
pub fn lines_stand_alone()
    ensures { LinesStandAlone }
{}
