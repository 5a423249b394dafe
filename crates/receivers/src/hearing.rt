//! A receiver's one run of work, whatever slots its lines are for.
ghost use Rattle.std.specs.Prelude.{◌≡◌, false, IfOk, OnErr};
ghost use Rattle.receivers.specs.Classes.{class_by};
ghost use Rattle.receivers.specs.Receiver.{no_counts};
ghost use Rattle.receivers.specs.Run.{hearing};
ghost use Rattle.receivers.specs.Slots.{Hears, HasHeardFor};

use crate::class::{Class, count};
use crate::receiver::Receiver;
use crate::slots::{Heard, Slots, silent};
use crate::telling::next_told;
use crate::told::Told;
use line_reader::Lines;
use meter_slots::{Counts, Ended};
use outer_io::{Memory, Sink, Source};

// Makes the step of one more line, where it is one, and writes its downlink. For want of memory there is no step.
fn hear_told<K, P: Slots<K>>(
    slots: &mut P,
    tx: &mut K,
    line: u32,
    told: Told,
) -> Result<Heard, Memory>
    requires ready { P.ready slots.old }
    ensures ready { P.ready slots.new }
    ensures fixed { P.fixed slots.new ≡ P.fixed slots.old }
    ensures class { IfOk result (λ h. h.class ≡ class_by (P.directory (P.fixed slots.old)) told) }
    ensures hears { IfOk result (λ h.
        Hears (P.makes (P.fixed slots.old)) line told h.sent (slots.old, tx.old) (slots.new, tx.new)) }
    ensures memory { OnErr result (P.waits (P.fixed slots.old) (slots.old, tx.old) (slots.new, tx.new)) }
{
    match told {
        Told::Event(address, event) => slots.step(tx, line, address, event),
        Told::Unframed => Ok(silent(Class::Unframed)),
        Told::Bad => Ok(silent(Class::Bad)),
    }
}

// Hears lines until the receiver ends.
fn hear_lines<S: Source, K, P: Slots<K>>(
    lines: &mut Lines<S>,
    slots: &mut P,
    tx: &mut K,
    counts: &mut Counts,
) -> Ended
    requires fresh { lines.old.line ≡ 0 }
    requires goes_on { lines.old.done ≡ false }
    requires counts { counts.old ≡ no_counts }
    requires ready { P.ready slots.old }
    ensures ready { P.ready slots.new }
    ensures fixed { P.fixed slots.new ≡ P.fixed slots.old }
    ensures heard { let f = P.fixed slots.old in HasHeardFor (P.makes f) (P.waits f) (P.directory f)
        (hearing S.Source lines.old.source lines.new.source counts.new result) (slots.old, tx.old) (slots.new, tx.new) }
{
    'lines: loop {
        let told = match next_told(lines) {
            Ok(told) => told,
            Err(ended) => return ended,
        };
        let line = counts.lines + 1;
        let heard = match hear_told(slots, tx, line, told) {
            Ok(heard) => heard,
            Err(_) => return Ended::Memory,
        };
        *counts = count(*counts, heard.class);
        match heard.sent {
            Ok(()) => {}
            Err(_) => return Ended::TxFault,
        }
    }
}

impl<S: Source, K: Sink> Receiver<S, K> {
    ghost use Rattle.std.specs.Prelude.{◌≡◌, [], None, Some, IsTrue};
    ghost use Rattle.receivers.specs.Run.{hearing};
    ghost use Rattle.receivers.specs.Slots.{HasHeardFor};

    // Hears its lines until it ends: makes the step of each in these slots, and writes the downlink that the step gives before the next line
    // is taken. A line for which there is no memory makes no step; those before it stand.
    pub(crate) fn hear_all<P: Slots<K>>(&mut self, slots: &mut P) -> Ended
        requires fresh { self.old.ended ≡ None }
        requires ready { P.ready slots.old }
        ensures ready { P.ready slots.new }
        ensures fixed { P.fixed slots.new ≡ P.fixed slots.old }
        ensures heard { let f = P.fixed slots.old in HasHeardFor (P.makes f) (P.waits f) (P.directory f)
            (hearing S.Source self.old.source self.new.source self.new.counts result) (slots.old, self.old.tx) (slots.new, self.new.tx) }
        ensures untaken { IsTrue S.tells → S.taken self.old.source ≡ [] }
        ensures ended { self.new.ended ≡ Some result }
    {
        self.ended = Some(Ended::Memory);
        let ended = hear_lines(&mut self.lines, slots, &mut self.tx, &mut self.counts);
        self.ended = Some(ended);
        ended
    }
}
