//! What is noted, in words.
ghost use Rattle.std.specs.Prelude.{◌≡◌};
ghost use Rattle.paper.specs.Puts.{Puts};
ghost use Rattle.line_feed.specs.Notes.{frame_words, reason_words, zone_words, line_note, note_text, zone_text};

use crate::reasons::NotTaken;
use frame_formats::FrameFault;
use paper::{Paper, Printed, put_number, put_text};

// Why bytes are no frame.
fn frame_words(fault: FrameFault) -> &'static str
    ensures { result.now ≡ frame_words fault }
{
    match fault {
        FrameFault::Empty => "the frame has no bytes",
        FrameFault::Short(_) => "the first byte of the frame, L, is below the least of its format",
        FrameFault::Gap(_) =>
            "the first byte of the frame, L, is 128 or 129, which format B leaves out",
        FrameFault::Length { .. } => "the frame hasn't as many bytes as its first one, L, says",
        FrameFault::Crc(_) => "a CRC of the frame differs: it was heard wrongly",
    }
}

// Why a line isn't taken.
fn reason_words(reason: NotTaken) -> &'static str
    ensures { result.now ≡ reason_words reason }
{
    match reason {
        NotTaken::TooLong => "it has more than 4,096 bytes, which no telegram's line has",
        NotTaken::Letter => "it doesn't begin with `b`, as a telegram of culfw does",
        NotTaken::Columns => "it hasn't eight columns with a semicolon between two of them",
        NotTaken::Mode => "its mode is none of T1, C1 and S1",
        NotTaken::Json => "it is no JSON text",
        NotTaken::Model => "its model isn't Wireless-MBus",
        NotTaken::Unchecked => "the receiver doesn't say that the CRCs were right",
        NotTaken::Time =>
            "its time isn't a date and a time from 1970 on, as 2026-11-28 03:18:19Z, nor seconds since 1970",
        NotTaken::Prefix => "its telegram doesn't begin with 0x",
        NotTaken::Data => "it has no text named data",
        NotTaken::Hex => "the telegram isn't an even number of hexadecimal digits, at most 1,024",
        NotTaken::Length =>
            "the first byte of the telegram, L, isn't the number of those behind it, or is below 10",
        NotTaken::Frame(fault) => frame_words(fault),
    }
}

// What the first line lacks whose time names no zone.
fn zone_words() -> &'static str
    ensures { result.now ≡ zone_words }
{
    "its time names no zone and is taken as that of UTC: rtl_433 has to run with -M time:utc, or better with -M time:unix"
}

// Puts what is noted of the line with this number.
#[tactic(auto, unfolding(crate::specs::Notes::line_note), using(paper::proofs::Calls::five_make))]
fn put_line_note<P: Paper>(paper: &mut P, number: u64, words: &str)
    ensures { Puts P.takes paper.old (line_note number words.now) paper.new }
{
    put_text(paper, "line_feed: line ");
    put_number(paper, number);
    put_text(paper, ": ");
    put_text(paper, words);
    put_text(paper, "\n");
}

/// Puts the note of a line that isn't taken, which has this number.
pub(crate) fn put_note<P: Paper>(paper: &mut P, number: u64, reason: NotTaken)
    ensures { Puts P.takes paper.old (note_text number reason) paper.new }
{
    put_line_note(paper, number, reason_words(reason));
}

/// Puts the note of the line with this number, the first whose time names no zone.
pub(crate) fn put_zone_note<P: Paper>(paper: &mut P, number: u64)
    ensures { Puts P.takes paper.old (zone_text number) paper.new }
{
    put_line_note(paper, number, zone_words());
}

/// What is noted behind all lines: how many were taken, and how many weren't.
#[derive(Drop)]
pub(crate) struct EndingNote {
    pub taken: u64,
    pub left_out: u64,
}

impl Printed for EndingNote {
    ghost use Rattle.line_feed.specs.Notes.{ending_text};

    ghost text = { λ e. ending_text e.taken e.left_out };

    #[tactic(auto, unfolding(crate::specs::Notes::ending_text), using(paper::proofs::Calls::five_make))]
    fn print<P: Paper>(&self, paper: &mut P) {
        put_text(paper, "line_feed: telegrams taken: ");
        put_number(paper, self.taken);
        put_text(paper, ", lines not taken: ");
        put_number(paper, self.left_out);
        put_text(paper, "\n");
    }
}
