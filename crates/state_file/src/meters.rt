//! The meters of a state while it is read.
ghost use Rattle.std.specs.Prelude.{◌≡◌, ◌==◌};
ghost use Rattle.std.specs.List.{list_any};
ghost use Rattle.plain_text.specs.Parts.{fields_of};
ghost use Rattle.state_file.specs.Whole.{opens_meter};

use crate::cause::LineFault;
use crate::fault::{FileCause, StateFault};
use crate::line::read_line;
use meter_address::{Address, Commission};
use meter_slots::MeterStart;
use plain_text::Fields;
use roster_file::{LineCause, MOST_METERS, Version, read_meter};
use std::alloc::Global;
use std::marker::Model;

// Whether the first field is `meter`.
fn begins_meter(text: &[u8]) -> bool
    ensures { result ≡ opens_meter (fields_of text.now) }
{
    match Fields::of_line(text).next() {
        Some(kind) => kind == b"meter".as_slice(),
        None => false,
    }
}

// Whether one of the meters has this address.
fn has_namesake(starts: &[MeterStart], address: Address) -> bool
    ensures { result ≡ list_any (λ m. m.address.0 == address.0) starts.now }
{
    starts.iter().any(|other| other.address().0 == address.0)
}

/// The meters whose lines were all read, and the one whose lines are being read.
#[derive(Drop)]
pub struct Meters {
    before: Vec<MeterStart>,
    last: Option<MeterStart>,
}

impl Model for Meters {
    ghost use Rattle.state_file.specs.Whole.{Progress};

    ghost Value = { Progress };

    ghost view = { λ m. record { before = m.before.items; last = m.last } };
}

impl Meters {
    ghost use Rattle.std.specs.Prelude.{◌≡◌, ◌⊎◌, [], Ok, None, OnOk, IfOk, IfErr};
    ghost use Rattle.meter_address.specs.Commission.{Commissioned};
    ghost use Rattle.state_file.specs.Whole.{Progress, no_meters, all_of, at_line, by_roster, closed, enlisted, left_by, read_more};
    ghost use Rattle.state_file.specs.Reading.{IsFaultOf};

    /// None was read.
    pub fn new(alloc: Global) -> Self
        ensures { result ≡ no_meters }
    {
        Meters {
            before: Vec::new(alloc),
            last: None,
        }
    }

    // The lines of the last one are all read.
    fn close(&mut self) -> Result<(), StateFault>
        ensures ok { OnOk result (self.new ≡ closed self.old) }
        ensures fault { IfErr result (λ fault. fault ≡ StateFault.Memory) }
    {
        match self.last.take() {
            None => Ok(()),
            Some(last) => match self.before.push(last) {
                Ok(()) => Ok(()),
                Err(_) => Err(StateFault::Memory),
            },
        }
    }

    // One more meter begins, behind those whose lines are all read.
    fn enlist(&mut self, line: u32, commission: Commission) -> Result<(), StateFault>
        ensures ok { OnOk result (at_line line (by_roster (enlisted self.old.before commission)) ≡ Ok self.new) }
        ensures fault { IfErr result (λ fault. IsFaultOf (at_line line (by_roster (enlisted self.old.before commission))) fault) }
        ensures left { IfErr result (λ _. self.new ≡ self.old) }
    {
        if has_namesake(self.before.as_slice(), commission.address) {
            return Err(StateFault::Line(line, FileCause::Roster(LineCause::Same)));
        }
        if self.before.len() >= MOST_METERS {
            return Err(StateFault::Line(line, FileCause::Roster(LineCause::TooMany)));
        }
        self.last = Some(MeterStart::new(commission));
        Ok(())
    }

    /// What one more line says. A faulty line adds nothing, and one that begins a meter closes the one before; its fault says the line and
    /// what is wrong with it, or that there is no memory.
    #[tactic(auto, unfolding(crate::specs::Whole::read_more))]
    pub fn read(&mut self, alloc: Global, line: u32, text: &[u8]) -> Result<(), StateFault>
        ensures ok { OnOk result (at_line line (read_more self.old text.now) ≡ Ok self.new) }
        ensures fault { IfErr result (λ fault. IsFaultOf (at_line line (read_more self.old text.now)) fault) }
        ensures left { IfErr result (λ fault. (fault ≡ StateFault.Memory) ⊎ (self.new ≡ left_by self.old text.now)) }
    {
        if begins_meter(text) {
            self.close()?;
            let commission = match read_meter(Version::Two, text) {
                Ok(commission) => commission,
                Err(cause) => return Err(StateFault::Line(line, FileCause::Roster(cause))),
            };
            return self.enlist(line, commission);
        }
        match &mut self.last {
            None => Err(StateFault::Line(line, FileCause::Place)),
            Some(start) => match read_line(alloc, start, text) {
                Ok(()) => Ok(()),
                Err(LineFault::Cause(cause)) => {
                    Err(StateFault::Line(line, FileCause::Meter(cause)))
                }
                Err(LineFault::Memory) => Err(StateFault::Memory),
            },
        }
    }

    // All meters.
    pub(crate) fn finish(mut self) -> Result<Vec<MeterStart>, StateFault>
        ensures found { IfOk result (λ starts. starts.items ≡ all_of self) }
        ensures fault { IfErr result (λ fault. fault ≡ StateFault.Memory) }
    {
        self.close()?;
        Ok(self.before)
    }
}
