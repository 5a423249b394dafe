//! What is noted of lines that can't be listed, in words.
ghost use Rattle.std.specs.Prelude.{◌≡◌};
ghost use Rattle.paper.specs.Puts.{Puts};
ghost use Rattle.reading_list.specs.Notes.{fault_words, note_words, note_text, cut_words, count_line, count_words};

use crate::said::LineFault;
use dif_vif::RecordFault;
use paper::{Paper, Printed, put_number, put_text};
use record_text::put_fault_words;

/// What is noted of a line.
#[derive(Clone, Copy)]
pub enum LineNote {
    /// It can't be read.
    Unread(LineFault),
    /// It is a stored step below no meter.
    NoMeter,
    /// The records of its payload end by this fault.
    Records(RecordFault),
}

// Why a line can't be read.
fn fault_words(fault: LineFault) -> &'static str
    ensures { result.now ≡ fault_words fault }
{
    match fault {
        LineFault::TooLong => "it has more than 8,192 bytes, which no line of a report has",
        LineFault::Word =>
            "it begins with none of the words of a report's lines: give the report that `wmbus` prints, as it is",
        LineFault::Version => "the report isn't of version 1",
        LineFault::Address =>
            "the meter's address isn't sixteen hexadecimal digits: the steps below it have no meter",
        LineFault::Fields => "a step hasn't all its fields: the line is cut off",
        LineFault::Number => "a number of the step isn't a plain decimal one of its range",
        LineFault::Payload =>
            "the payload isn't an even number of hexadecimal digits, at most 7,744: the line is cut off or was changed",
    }
}

#[tactic(auto, unfolding(crate::specs::Notes::note_words), using(paper::proofs::Calls::two_make))]
fn put_words<P: Paper>(paper: &mut P, note: LineNote)
    ensures { Puts P.takes paper.old (note_words note) paper.new }
{
    match note {
        LineNote::Unread(fault) => put_text(paper, fault_words(fault)),
        LineNote::NoMeter => put_text(
            paper,
            "no line `meter` that can be read stands above this step, so it isn't known whose it is",
        ),
        LineNote::Records(fault) => {
            put_text(
                paper,
                "the records in front are listed, and the payload goes on with what is none: ",
            );
            put_fault_words(paper, fault);
        }
    }
}

/// Puts the note of the line with this number.
#[tactic(auto, unfolding(crate::specs::Notes::note_text), using(paper::proofs::Calls::five_make))]
pub(crate) fn put_note<P: Paper>(paper: &mut P, number: u32, note: LineNote)
    ensures { Puts P.takes paper.old (note_text number note) paper.new }
{
    put_text(paper, "reading_list: line ");
    put_number(paper, u64::from(number));
    put_text(paper, ": ");
    put_words(paper, note);
    put_text(paper, "\n");
}

#[tactic(auto, using(paper::proofs::Calls::none))]
fn put_cut_words<P: Paper>(paper: &mut P, whole: bool)
    ensures { Puts P.takes paper.old (cut_words whole) paper.new }
{
    if !whole {
        put_text(
            paper,
            "reading_list: the report doesn't end with its line `end`: it is cut off\n",
        );
    }
}

#[tactic(auto, unfolding(crate::specs::Notes::count_line), using(paper::proofs::Calls::three_make))]
fn put_count_line<P: Paper>(paper: &mut P, count: u64)
    ensures { Puts P.takes paper.old (count_line count) paper.new }
{
    put_text(paper, "reading_list: lines that couldn't be listed whole: ");
    put_number(paper, count);
    put_text(paper, "\n");
}

#[tactic(auto, using(paper::proofs::Calls::none))]
fn put_count_words<P: Paper>(paper: &mut P, count: u64)
    ensures { Puts P.takes paper.old (count_words count) paper.new }
{
    if count != 0 {
        put_count_line(paper, count);
    }
}

/// What is noted behind all lines.
#[derive(Drop)]
pub(crate) struct EndingNote {
    /// Whether the report ended with its line `end`.
    pub whole: bool,
    /// How many lines were noted.
    pub count: u64,
}

impl Printed for EndingNote {
    ghost use Rattle.reading_list.specs.Notes.{ending_text};

    ghost text = { λ e. ending_text e.whole e.count };

    #[tactic(auto, unfolding(crate::specs::Notes::ending_text), using(paper::proofs::Calls::two_make))]
    fn print<P: Paper>(&self, paper: &mut P) {
        put_cut_words(paper, self.whole);
        put_count_words(paper, self.count);
    }
}
