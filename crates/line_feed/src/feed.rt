//! Lines that are fed one after another.
ghost use Rattle.std.specs.Prelude.{◌≡◌, ◌<◌, ◌^◌, Ok, [], if◌then◌else◌};
ghost use Rattle.paper.specs.Puts.{Puts};
ghost use Rattle.line_feed.specs.Notes.{zone_text};
ghost use Rattle.line_feed.specs.Feeding.{IsMoment, can_name_zone, is_of_some_zone, lacks_zone};

use crate::clock::Clock;
use crate::heard::{Reception, Unheard};
use crate::lines::read_line;
use crate::moments::Moment;
use crate::notes::{put_note, put_zone_note};
use crate::printings::Printing;
use crate::reasons::NotTaken;
use crate::teller::StreamTeller;
use frame_lines::put_frame_line;
use line_teller::Sheet;
use outer_io::Memory;
use paper::Paper;
use std::alloc::Global;
use std::marker::Model;

/// What a feed knows between two lines.
#[derive(Drop)]
pub struct Feed<C: Clock + Drop> {
    printing: Printing,
    clock: C,
    // Whether a time without a zone was noted.
    zone_noted: bool,
    taken: u64,
    left_out: u64,
}

impl<C: Clock + Drop> Model for Feed<C> {
    ghost use Rattle.line_feed.specs.Feeding.{Fed};

    ghost Value = { Fed };

    ghost view = { λ f. record { printing = f.printing; zone_noted = f.zone_noted; taken = f.taken; left_out = f.left_out } };
}

// The moment that a line names, or else the clock's.
fn moment_or_now<C: Clock>(moment: Option<Moment>, clock: &C) -> u64
    ensures moment { IsMoment moment result }
    ensures below { result < 2 ^ 64 }
{
    match moment {
        Some(moment) => moment.seconds,
        None => clock.seconds(),
    }
}

// Whether a receiver can say of which zone its times are.
fn can_name_zone(printing: Printing) -> bool
    ensures { result ≡ can_name_zone printing }
{
    match printing {
        Printing::Cul => false,
        Printing::RtlWmbus => false,
        Printing::Rtl433 => true,
        Printing::Hex => false,
    }
}

// Whether a line names a moment without a zone.
fn is_of_some_zone(moment: Option<Moment>) -> bool
    ensures { result ≡ is_of_some_zone moment }
{
    match moment {
        Some(moment) => !moment.names_zone,
        None => false,
    }
}

// Whether a line that is taken lacks a zone that its receiver can name.
fn lacks_zone(printing: Printing, heard: &Reception) -> bool
    ensures { result ≡ lacks_zone printing (Ok heard.now) }
{
    can_name_zone(printing) && is_of_some_zone(heard.moment)
}

// Puts the note of a line that lacks a zone, if it is the first.
#[tactic(auto, using(paper::proofs::Calls::none))]
fn put_zone_note_if<P: Paper>(note: &mut P, number: u64, first: bool)
    ensures { Puts P.takes note.old (if first then zone_text number else []) note.new }
{
    if first {
        put_zone_note(note, number);
    }
}

impl<C: Clock + Drop> Feed<C> {
    ghost use Rattle.std.specs.Prelude.{◌≡◌, Ok, Err};
    ghost use Rattle.paper.specs.Puts.{Puts};
    ghost use Rattle.line_feed.specs.Notes.{note_text};
    ghost use Rattle.line_feed.specs.Heard.{Means};
    ghost use Rattle.line_feed.specs.Lines.{heard_of};
    ghost use Rattle.line_feed.specs.Feeding.{fresh, taken_note, fed_after, PutsLine};

    /// Before the first line.
    pub fn new(printing: Printing, clock: C) -> Feed<C>
        ensures { result ≡ fresh printing }
    {
        Feed {
            printing,
            clock,
            zone_noted: false,
            taken: 0,
            left_out: 0,
        }
    }

    /// How many lines were taken.
    pub fn taken(&self) -> u64
        ensures { result ≡ self.now.taken }
    {
        self.taken
    }

    /// How many lines weren't taken.
    pub fn left_out(&self) -> u64
        ensures { result ≡ self.now.left_out }
    {
        self.left_out
    }

    // What a line gives.
    fn read(&self, alloc: Global, line: &[u8]) -> Result<Reception, Unheard>
        ensures { Means result (heard_of self.now.printing line.now) }
    {
        read_line(alloc, self.printing, line)
    }

    // Puts the line of a telegram, notes the first that lacks a zone, and counts it.
    fn take<P: Paper>(&mut self, text: &mut P, note: &mut P, number: u64, heard: &Reception)
        ensures text { PutsLine P.takes heard.now text.old text.new }
        ensures note { Puts P.takes note.old (taken_note self.old number heard.now) note.new }
        ensures fed { self.new ≡ fed_after self.old (Ok heard.now) }
    {
        let at = moment_or_now(heard.moment, &self.clock);
        put_frame_line(text, at, &heard.telegram);
        let lacks = lacks_zone(self.printing, heard);
        put_zone_note_if(note, number, lacks && !self.zone_noted);
        self.zone_noted = lacks || self.zone_noted;
        self.taken = self.taken.saturating_add(1);
    }

    // Notes a line that isn't taken, and counts it.
    fn leave_out<P: Paper>(&mut self, note: &mut P, number: u64, reason: NotTaken)
        ensures note { Puts P.takes note.old (note_text number reason) note.new }
        ensures fed { self.new ≡ fed_after self.old (Err reason) }
    {
        put_note(note, number, reason);
        self.left_out = self.left_out.saturating_add(1);
    }
}

impl<C: Clock + Drop> StreamTeller for Feed<C> {
    ghost use Rattle.line_feed.specs.Feeding.{FeedsLine};

    ghost longest = { 4096 };

    ghost tells = { FeedsLine };

    fn tell(
        &mut self,
        alloc: Global,
        number: u64,
        line: &[u8],
        text: &mut Sheet,
        note: &mut Sheet,
    ) -> Result<(), Memory> {
        match self.read(alloc, line) {
            Ok(heard) => {
                self.take(text, note, number, &heard);
                Ok(())
            }
            Err(Unheard::Refused(reason)) => {
                self.leave_out(note, number, reason);
                Ok(())
            }
            Err(Unheard::Memory) => Err(Memory),
        }
    }

    fn tell_long(&mut self, number: u64, text: &mut Sheet, note: &mut Sheet) {
        self.leave_out(note, number, NotTaken::TooLong);
    }
}
