//! What is printed for faulty lines.
ghost use Rattle.std.specs.List.{flat_map};
ghost use Rattle.paper.specs.Puts.{Puts};
ghost use Rattle.input_check.specs.Findings.{faulty_line, fault_line, fault_lines, bytes_words_if, receiver_line, count_line};

use crate::bytes::{put_bytes_words, put_mark_words};
use crate::causes::{put_line_words, roster_words, state_words};
use crate::faulty::{FaultyLine, FaultyLines};
use crate::pieces::put_between_two;
use paper::{Paper, Printed, put_labelled, put_text};
use state_file::StateFault;

// Puts a faulty line of a file, with its number and what is wrong with it.
#[tactic(auto, unfolding(crate::specs::Findings::faulty_line), using(paper::proofs::Calls::four_make))]
fn put_faulty_line<P: Paper>(paper: &mut P, file: &str, line: u32, words: &str)
    ensures { Puts P.takes paper.old (faulty_line file.now line words.now) paper.new }
{
    put_labelled(paper, file, line as u64);
    put_text(paper, ": ");
    put_text(paper, words);
    put_text(paper, "\n");
}

// Puts a faulty line of a state or of a roster.
#[tactic(auto, using(paper::proofs::Calls::none))]
fn put_fault_line<P: Paper>(paper: &mut P, fault: &StateFault)
    ensures { Puts P.takes paper.old (fault_line fault.now) paper.new }
{
    match fault {
        StateFault::Roster(line, cause) => {
            put_faulty_line(paper, "roster line ", *line, roster_words(*cause));
        }
        StateFault::Line(line, cause) => {
            put_faulty_line(paper, "state line ", *line, state_words(*cause));
        }
        StateFault::Memory => {}
    }
}

/// The faulty lines of a state or a roster, the word that says which of the two it is, and its bytes.
#[derive(Drop)]
pub(crate) struct StateFindings<'a> {
    pub(crate) faults: &'a [StateFault],
    pub(crate) word: &'static str,
    pub(crate) bytes: &'a [u8],
}

#[tactic(auto, using(paper::proofs::Calls::none))]
fn put_fault_lines<P: Paper>(paper: &mut P, faults: &[StateFault])
    ensures { Puts P.takes paper.old (fault_lines faults.now) paper.new }
{
    for fault in faults {
        put_fault_line(paper, fault);
    }
}

// Puts, behind faulty lines, what may be behind them.
#[tactic(auto, using(paper::proofs::Calls::none))]
fn put_bytes_words_if<P: Paper>(paper: &mut P, faults: &[StateFault], word: &str, bytes: &[u8])
    ensures { Puts P.takes paper.old (bytes_words_if faults.now word.now bytes.now) paper.new }
{
    match faults {
        [] => {}
        [_, ..] => put_bytes_words(paper, word, bytes),
    }
}

impl Printed for StateFindings<'_> {
    ghost use Rattle.input_check.specs.Findings.{findings_text};

    ghost text = { λ f. findings_text f.faults.now f.word.now f.bytes.now };

    #[tactic(auto, unfolding(crate::specs::Findings::findings_text), using(paper::proofs::Calls::three_make))]
    fn print<P: Paper>(&self, paper: &mut P) {
        put_fault_lines(paper, self.faults);
        put_mark_words(paper, self.word, self.bytes);
        put_bytes_words_if(paper, self.faults, self.word, self.bytes);
    }
}

// Puts a faulty line of a receiver.
#[tactic(auto, unfolding(crate::specs::Findings::receiver_line), using(paper::proofs::Calls::five_make))]
fn put_receiver_line<P: Paper>(paper: &mut P, receiver: u64, faulty: &FaultyLine)
    ensures { Puts P.takes paper.old (receiver_line receiver faulty.now) paper.new }
{
    put_labelled(paper, "receiver ", receiver);
    put_labelled(paper, " line ", faulty.line as u64);
    put_text(paper, ": ");
    put_line_words(paper, faulty.fault);
    put_text(paper, "\n");
}

#[tactic(auto, using(paper::proofs::Calls::none))]
fn put_receiver_lines<P: Paper>(paper: &mut P, receiver: u64, first: &[FaultyLine])
    ensures { Puts P.takes paper.old (flat_map (receiver_line receiver) first.now) paper.new }
{
    for faulty in first {
        put_receiver_line(paper, receiver, faulty);
    }
}

// Puts how many faulty lines a receiver has, where not all are shown.
#[tactic(auto, using(paper::proofs::Calls::none))]
fn put_count_line<P: Paper>(paper: &mut P, receiver: u64, count: u32)
    ensures { Puts P.takes paper.old (count_line receiver count) paper.new }
{
    if count > 100 {
        put_between_two(
            paper,
            "receiver ",
            receiver,
            ": ",
            count as u64,
            " lines are faulty, of which the first 100 are shown\n",
        );
    }
}

/// The faulty lines of a receiver.
#[derive(Drop)]
pub(crate) struct ReceiverFindings<'a> {
    pub(crate) receiver: u64,
    pub(crate) found: &'a FaultyLines,
}

impl Printed for ReceiverFindings<'_> {
    ghost use Rattle.input_check.specs.Findings.{shown_lines};

    ghost text = { λ f. shown_lines f.receiver f.found.now.first.items f.found.now.count };

    #[tactic(auto, unfolding(crate::specs::Findings::shown_lines), using(paper::proofs::Calls::two_make))]
    fn print<P: Paper>(&self, paper: &mut P) {
        put_receiver_lines(paper, self.receiver, &self.found.first);
        put_count_line(paper, self.receiver, self.found.count);
    }
}
