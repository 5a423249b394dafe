//! A line of a report that is listed, below those before it.
ghost use Rattle.std.specs.Prelude.{◌≡◌, ℕ, ◌<◌, List, [], length, Ok, Err, Some, None, option_map};
ghost use Rattle.paper.specs.InMemory.{Keeps};
ghost use Rattle.paper.specs.Puts.{Puts};
ghost use Rattle.paper.specs.Pieces.{text_if};
ghost use Rattle.reading_list.specs.Said.{said_read, step_read};
ghost use Rattle.reading_list.specs.Notes.{note_text};
ghost use Rattle.reading_list.specs.Listing.{step_text, step_note, text_of, note_of, is_step, meter_after, ends_report, count_after};

use crate::forms::Form;
use crate::notes::{LineNote, put_note};
use crate::record_lines::put_records;
use crate::said::{LineFault, SaidRead, StepRead, Unread, read_line};
use line_teller::Sheet;
use meter_address::Address;
use outer_io::Memory;
use paper::Paper;
use std::alloc::Global;

/// What a list of readings knows between two lines.
#[derive(Clone, Copy)]
pub struct Lister {
    /// The form of the lines that are listed.
    pub form: Form,
    /// The meter in whose part the next line stands, if it is known.
    pub meter: Option<Address>,
    /// Whether the last line ended the report.
    pub whole: bool,
    /// How many lines were noted.
    pub noted: u64,
}

// Puts the records of a stored step, and answers what is wrong with it.
#[tactic(auto, using(paper::proofs::Calls::none))]
fn put_stored<P: Paper>(
    paper: &mut P,
    form: Form,
    meter: Option<Address>,
    step: &StepRead,
) -> Option<LineNote>
    ensures text { Puts P.takes paper.old (step_text form meter (step_read step.now)) paper.new }
    ensures note { result ≡ step_note meter (step_read step.now) }
{
    let Some(address) = meter else {
        return Some(LineNote::NoMeter);
    };
    match put_records(paper, form, address, step) {
        None => None,
        Some(fault) => Some(LineNote::Records(fault)),
    }
}

// Whether a line that can't be read is a step.
fn is_step(fault: LineFault) -> bool
    ensures { result ≡ is_step fault }
{
    match fault {
        LineFault::Fields | LineFault::Number | LineFault::Payload => true,
        LineFault::TooLong | LineFault::Word | LineFault::Version | LineFault::Address => false,
    }
}

#[tactic(auto, using(paper::proofs::Calls::none))]
fn put_note_if<P: Paper>(paper: &mut P, number: u32, note: Option<LineNote>)
    ensures { Puts P.takes paper.old (text_if (note_text number) note) paper.new }
{
    match note {
        None => {}
        Some(note) => put_note(paper, number, note),
    }
}

impl Lister {
    ghost use Rattle.std.specs.Prelude.{◌≡◌, Ok, Err, None, OnOk};
    ghost use Rattle.paper.specs.Puts.{Puts};
    ghost use Rattle.line_teller.specs.Telling.{Tells};
    ghost use Rattle.reading_list.specs.Said.{said_read};
    ghost use Rattle.reading_list.specs.Run.{is_faultless};
    ghost use Rattle.reading_list.specs.Listing.{fresh, text_of, note_of, count_after, lister_after, ListsLine};

    /// Before the first line.
    pub fn new(form: Form) -> Lister
        ensures { result ≡ fresh form }
    {
        Lister {
            form,
            meter: None,
            whole: false,
            noted: 0,
        }
    }

    /// Whether the report ended, and nothing was noted of its lines.
    pub fn is_faultless(&self) -> bool
        ensures { result ≡ is_faultless self.now }
    {
        self.whole && self.noted == 0
    }

    // How many lines are noted with one that has this note.
    fn count_after(&self, note: Option<LineNote>) -> u64
        ensures { result ≡ count_after self.now.noted note }
    {
        match note {
            None => self.noted,
            Some(_) => self.noted.saturating_add(1),
        }
    }

    // Puts what is listed for a line, and answers what is wrong with it.
    #[tactic(auto, using(paper::proofs::Calls::none))]
    fn put_said<P: Paper>(&self, paper: &mut P, said: &SaidRead) -> Option<LineNote>
        ensures text { Puts P.takes paper.old (text_of self.now (Ok (said_read said.now))) paper.new }
        ensures note { result ≡ note_of self.now (Ok (said_read said.now)) }
    {
        match said {
            SaidRead::Stored(step) => put_stored(paper, self.form, self.meter, step),
            SaidRead::Meter(_) | SaidRead::Finished | SaidRead::Other => None,
        }
    }

    // The lister behind a line that was read, with this note.
    fn behind_said(&self, said: &SaidRead, note: Option<LineNote>) -> Lister
        requires { note ≡ note_of self.now (Ok (said_read said.now)) }
        ensures { result ≡ lister_after self.now (Ok (said_read said.now)) }
    {
        let (meter, whole) = match said {
            SaidRead::Meter(address) => (Some(*address), false),
            SaidRead::Stored(_) | SaidRead::Other => (self.meter, false),
            SaidRead::Finished => (None, true),
        };
        Lister {
            form: self.form,
            meter,
            whole,
            noted: self.count_after(note),
        }
    }

    // The lister behind a line that can't be read.
    fn behind_fault(&self, fault: LineFault) -> Lister
        ensures { result ≡ lister_after self.now (Err fault) }
    {
        Lister {
            form: self.form,
            meter: if is_step(fault) { self.meter } else { None },
            whole: false,
            noted: self.count_after(Some(LineNote::Unread(fault))),
        }
    }

    /// Lists the line with this number, which is given without its end: its text goes on the one sheet, and its note on the other.
    /// `Memory` leaves the lister and the sheets as they happen to be.
    pub(crate) fn tell(
        &mut self,
        alloc: Global,
        number: u32,
        line: &[u8],
        text: &mut Sheet,
        note: &mut Sheet,
    ) -> Result<(), Memory>
        ensures { OnOk result (Tells (ListsLine self.old number line.now) self.new text.old text.new note.old note.new) }
    {
        match read_line(alloc, line) {
            Ok(said) => {
                let found = self.put_said(text, &said);
                put_note_if(note, number, found);
                *self = self.behind_said(&said, found);
                Ok(())
            }
            Err(Unread::Faulty(fault)) => {
                put_note(note, number, LineNote::Unread(fault));
                *self = self.behind_fault(fault);
                Ok(())
            }
            Err(Unread::Memory) => Err(Memory),
        }
    }
}
