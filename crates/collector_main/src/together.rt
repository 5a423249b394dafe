//! What several receivers hear at once.
ghost use Rattle.std.specs.Prelude.{◌<◌, ◌^◌, IfOk, vec_len};
ghost use Rattle.lists.specs.Each.{Each};
ghost use Rattle.state_file.specs.Rooms.{HasRoom};
ghost use Rattle.collector_main.specs.Ready.{HaveHeard};
ghost use Rattle.receivers.specs.Receiver.{IsFresh};

use crate::stops::ends_of;
use meter_address::Address;
use meter_slots::MeterStart;
use outer_io::{Memory, Sink, Source};
use receivers::{Collected, Receiver, collect, show_untaken};
use report_text::ReceiverEnd;
use state_file::show_left;
use std::alloc::Global;
use std::sync::Wait;
use std::thread::Threads;

/// What receivers came to that heard together, and how each of them ended.
#[derive(Drop)]
pub(crate) struct HeardTogether {
    pub(crate) collected: Collected,
    pub(crate) ends: Vec<ReceiverEnd>,
}

/// Has the receivers work at once for the meters of which this is known.
pub(crate) fn hear_together<
    R: Threads + Wait + Sync,
    S: Source + Send + Drop,
    K: Sink + Send + Drop,
>(
    rt: &R,
    alloc: Global,
    own: Address,
    starts: Vec<MeterStart>,
    receivers: &mut Vec<Receiver<S, K>>,
) -> Result<HeardTogether, Memory>
    requires room { HasRoom starts.items }
    requires few { vec_len receivers.old < 2 ^ 32 }
    requires fresh { Each IsFresh receivers.old.items }
    ensures { IfOk result
        (HaveHeard S.Source K.Sink (record { own = own; starts = starts.items }) receivers.old.items receivers.new.items) }
{
    show_untaken(receivers.as_slice());
    let collected = collect(rt, alloc, own, starts, receivers)?;
    show_left(own, collected.slots.as_slice());
    let ends = ends_of(alloc, receivers.as_slice())?;
    Ok(HeardTogether { collected, ends })
}
