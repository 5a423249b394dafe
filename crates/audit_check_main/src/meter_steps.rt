//! A meter's slot whose steps are put one by one, and are then let go.
use crate::comparing::Comparing;
use meter_address::{Address, Mode};
use meter_slots::{Event, KnownMeter, MeterStart, PassingSlot, Reading};
use outer_io::Memory;
use report_text::{MeterLine, put_last_records, put_pending, put_step};
use std::alloc::Global;

/// What is kept of a meter's steps: its address and mode, its slot as it is now, how many steps and readings there are, and the last reading.
#[derive(Drop)]
pub(crate) struct MeterSteps {
    address: Address,
    mode: Mode,
    slot: PassingSlot,
    steps: usize,
    readings: usize,
    last: Option<Reading>,
}

impl MeterSteps {
    ghost use Rattle.std.specs.Prelude.{◌≡◌, ◌≤◌, ◌<◌, ◌+◌, ◌++◌, [], length, option_to_list, OnOk};
    ghost use Rattle.std.specs.List.{flat_map};
    ghost use Rattle.paper.specs.Puts.{Puts};
    ghost use Rattle.meter_slots.specs.Journal.{SlotView, readings};
    ghost use Rattle.meter_slots.specs.Resuming.{known_now};
    ghost use Rattle.report_text.specs.Report.{line_of, last_text, orders_now, pending_text};
    ghost use Rattle.audit_check_main.specs.Comparing.{Compared, Compares};
    ghost use Rattle.audit_check_main.specs.MeterSteps.{HasStepped, later_reading, stepped};

    /// No step is made yet.
    pub(crate) fn new(alloc: Global, own: Address, start: MeterStart) -> MeterSteps
        ensures stepped { (paper : Compared) → HasStepped (record { own = own; start = start; journal = [] }) paper result paper }
        ensures steps { result.steps ≡ 0 }
        ensures readings { result.readings ≡ 0 }
    {
        MeterSteps {
            address: start.address(),
            mode: start.mode(),
            slot: PassingSlot::resume(alloc, own, start),
            steps: 0,
            readings: 0,
            last: None,
        }
    }

    // Keeps a reading that there may be in the place of the last one.
    fn keep(&mut self, reading: Option<Reading>)
        requires { self.old.readings < usize.MAX }
        ensures { self.new ≡ record self.old {
          readings = self.old.readings + length (option_to_list reading);
          last = later_reading self.old.last reading;
        } }
    {
        match reading {
            None => {}
            Some(reading) => {
                self.last = Some(reading);
                self.readings += 1;
            }
        }
    }

    /// One step: its line is put.
    pub(crate) fn step(
        &mut self,
        source: u32,
        line: u32,
        event: &Event,
        paper: &mut Comparing<'_>,
    ) -> Result<(), Memory>
        requires steps { self.old.steps < usize.MAX }
        requires readings { self.old.readings ≤ self.old.steps }
        ensures stepped { OnOk result ((slot : SlotView) (start : Compared) → HasStepped slot start self.old paper.old
            → HasStepped (stepped slot source line event.now) start self.new paper.new) }
        ensures steps { OnOk result (self.new.steps ≡ self.old.steps + 1) }
        ensures readings { OnOk result (self.new.readings ≤ self.new.steps) }
    {
        let served = self.slot.step(event)?;
        put_step(
            paper,
            source,
            line,
            &served.outcome,
            served.reading.as_ref(),
        );
        self.steps += 1;
        self.keep(served.reading);
        Ok(())
    }

    /// The line of the meter.
    #[tactic(auto, using(crate::proofs::SteppedLines::line_kept))]
    pub(crate) fn line(&self) -> MeterLine
        ensures { (slot : SlotView) (start now : Compared) → HasStepped slot start self.now now → result ≡ line_of slot }
    {
        MeterLine {
            address: self.address,
            mode: self.mode,
            last: self.slot.last(),
            down: self.slot.down(),
            steps: self.steps,
            readings: self.readings,
        }
    }

    /// What is known of the meter now.
    pub(crate) fn known(&self) -> KnownMeter<'_>
        ensures { (slot : SlotView) (start now : Compared) → HasStepped slot start self.now now → result ≡ known_now slot }
    {
        self.slot.known(self.last.as_ref())
    }

    /// Puts what stands behind the lines of the steps: the records of the last reading, and the commands that wait.
    #[tactic(auto, using(crate::proofs::SteppedLines::rest_put))]
    pub(crate) fn put_rest(&self, paper: &mut Comparing<'_>)
        ensures { (slot : SlotView) (start now : Compared) → HasStepped slot start self.now now
            → Puts Compares paper.old
            (last_text (readings slot.start slot.journal) ++ flat_map pending_text (orders_now slot).queue.commands) paper.new }
    {
        put_last_records(paper, self.last.as_ref());
        put_pending(paper, self.slot.queue());
    }
}
