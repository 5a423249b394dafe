//! A receiver's one run of work.
use crate::cells::StrangerCell;
use crate::receiver::Receiver;
use crate::shared::Shared;
use book_cells::{Book, BookCell, Pass};
use meter_directory::Directory;
use meter_slots::{Ended, Event, Outcome};
use outer_io::{Sink, Source};
use std::sync::Wait;
use stranger_ring::Strangers;

impl<S: Source, K: Sink> Receiver<S, K> {
    ghost use Rattle.std.specs.Prelude.{◌≡◌, None, Some, length};
    ghost use Rattle.book_cells.specs.Acts.{IsPassOf};
    ghost use Rattle.receivers.specs.Passes.{crew, ArePassesOf};
    ghost use Rattle.receivers.specs.Run.{receiver_run};
    ghost use Rattle.receivers.specs.Works.{HasWorked};

    /// Hears its lines until it ends: makes the step of each on the cell of its meter, or notes it for a stranger's, and writes the
    /// downlink that the step gives before the next line is taken. A line for which there is no memory makes no step. It may wait.
    pub fn work<B: Book<Call = Event, Answer = Outcome>, R: Wait>(
        &mut self,
        rt: &R,
        directory: &Directory,
        cells: &[BookCell<B>],
        passes: &mut [Pass<B>],
        strangers: &StrangerCell,
        stranger_pass: &mut Pass<Strangers>,
    ) -> Ended
        requires fresh { self.old.ended ≡ None }
        requires places { length directory.now ≡ length cells.now }
        requires passes { ArePassesOf cells.now passes.old }
        requires stranger_pass { IsPassOf strangers.now stranger_pass.old }
        ensures passes { ArePassesOf cells.now passes.new }
        ensures stranger_pass { IsPassOf strangers.now stranger_pass.new }
        ensures ended { self.new.ended ≡ Some result }

        // What was heard, what was answered to the own lines, where the downlinks went, and how it ended, with its cause.
        ensures worked { HasWorked directory.now (receiver_run S.Source K.Sink self.old self.new)
            (crew passes.old stranger_pass.old) (crew passes.new stranger_pass.new) }
    {
        let mut shared = Shared {
            rt,
            directory,
            cells,
            passes: &mut *passes,
            strangers,
            stranger_pass: &mut *stranger_pass,
        };
        self.hear_all(&mut shared)
    }
}
