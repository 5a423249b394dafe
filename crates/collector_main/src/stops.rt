//! How the receivers of a session ended, and what status that makes.
ghost use Rattle.std.specs.Prelude.{◌≡◌, ◌≢◌, ◌+◌, ◌<◌, ◌^◌, length, IfOk};
ghost use Rattle.lists.specs.Each.{EachWith};
ghost use Rattle.collector_main.specs.Ready.{IsEndOf};
ghost use Rattle.collector_main.specs.Statuses.{status_at, stop_from, status_after, unwritten};

use crate::status::Status;
use outer_io::{Failed, Memory, Sink, Source};
use receivers::{Ended, Receiver};
use report_text::ReceiverEnd;
use std::alloc::Global;

// The end of a receiver that worked and found memory for all its lines.
fn end_of<S: Source, K: Sink>(receiver: &Receiver<S, K>) -> Result<ReceiverEnd, Memory>
    ensures { IfOk result (IsEndOf receiver.now) }
{
    let counts = receiver.counts();
    match receiver.ended() {
        None | Some(Ended::Memory) => Err(Memory),
        Some(ended) => Ok(ReceiverEnd { counts, ended }),
    }
}

// The ends of receivers that worked and found memory for all their lines.
pub(crate) fn ends_of<S: Source, K: Sink>(
    alloc: Global,
    receivers: &[Receiver<S, K>],
) -> Result<Vec<ReceiverEnd>, Memory>
    ensures { IfOk result (λ ends. EachWith IsEndOf receivers.now ends.items) }
{
    let mut ends = Vec::new(alloc);
    for place in 0..receivers.len() {
        let end = end_of(&receivers[place])?;
        ends.push(end)?;
    }
    Ok(ends)
}

fn status_at(number: u32, ended: Ended) -> Status
    ensures { result ≡ status_at number ended }
{
    match ended {
        Ended::End => Status::Done,
        Ended::Cut => Status::Cut(number),
        Ended::ReadFault => Status::Read(number),
        Ended::TxFault => Status::Transmit(number),
        Ended::Memory => Status::Memory,
    }
}

// The status of the first receiver that didn't end at its source's end, if there is one. So many receivers stand before these.
pub(crate) fn first_stop(before: u32, ends: &[ReceiverEnd]) -> Option<Status>
    requires { before + length ends.now < 2 ^ 32 }
    ensures { result ≡ stop_from (before + 1) ends.now }
{
    let [end, later @ ..] = ends else {
        return None;
    };
    if end.ended != Ended::End {
        return Some(status_at(before + 1, end.ended));
    }
    first_stop(before + 1, later)
}

// What the writes of the outputs came to.
#[derive(Clone, Copy)]
pub(crate) struct Writes {
    pub(crate) next: Result<(), Failed>,
    pub(crate) readings: Result<(), Failed>,
    pub(crate) report: Result<(), Failed>,
}

// The status of the first output that couldn't be written.
pub(crate) fn unwritten(writes: Writes) -> Status
    ensures { result ≡ unwritten writes.next writes.readings writes.report }
{
    if writes.next.is_err() {
        return Status::Write(1);
    }
    if writes.readings.is_err() {
        return Status::Write(2);
    }
    if writes.report.is_err() {
        return Status::Write(3);
    }
    Status::Done
}

// The status of a session: a receiver's end comes before a failed write.
pub(crate) fn status_after(stop: Option<Status>, writes: Writes) -> Status
    ensures { result ≡ status_after stop (unwritten writes.next writes.readings writes.report) }
{
    match stop {
        Some(status) => status,
        None => unwritten(writes),
    }
}
