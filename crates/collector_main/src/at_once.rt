//! What is done for all slots at once at the end of a session.
ghost use Rattle.std.specs.Prelude.{◌≡◌, ℕ, ◌<◌, map, length, slice_index_or, IfSome};
ghost use Rattle.report_text.specs.Report.{meter_text};

use meter_address::Address;
use meter_slots::SlotBook;
use report_text::{MeterPart, meter_parts};
use std::alloc::Global;
use std::thread;
use std::thread::Threads;

// Makes the parts in so many threads.
fn make_each<R: Threads + Sync>(
    rt: &R,
    alloc: Global,
    threads: usize,
    parts: &mut Vec<MeterPart<'_>>,
)
    requires { 0 < threads }
    ensures as_many { length parts.new.items ≡ length parts.old.items }
    ensures each { (i : ℕ) (d : _) → i < length parts.old.items →
        slice_index_or parts.new.items i d ≡ slice_index_or parts.old.items i d }
{
    thread::for_each_mut(
        rt,
        parts.as_mut_slice(),
        threads,
        &|_, part| part.make(alloc),
    );
}

/// The slots' parts of the report after some receivers, made ahead as far as there is memory: nothing where there is none for their list,
/// nor after one receiver, whose report is written as fast from the slots. As many threads make them as receivers worked.
pub(crate) fn parts_made<'s, R: Threads + Sync>(
    rt: &R,
    alloc: Global,
    receivers: usize,
    slots: &'s [SlotBook],
) -> Option<Vec<MeterPart<'s>>>
    ensures { IfSome result (λ parts. parts.items ≡ map meter_text slots.now) }
{
    if receivers < 2 {
        return None;
    }
    let Ok(mut parts) = meter_parts(alloc, slots) else {
        return None;
    };
    make_each(rt, alloc, receivers, &mut parts);
    Some(parts)
}

fn renew(alloc: Global, own: Address, slot: &mut SlotBook) {
    *slot = SlotBook::new(alloc, own, slot.commission());
}

/// Lets slots go after some receivers, in as many threads as worked. Their journals are most of what a session holds.
pub(crate) fn let_go<R: Threads + Sync>(
    rt: &R,
    alloc: Global,
    own: Address,
    receivers: usize,
    mut slots: Vec<SlotBook>,
) {
    if receivers < 2 {
        return;
    }
    thread::for_each_mut(
        rt,
        slots.as_mut_slice(),
        receivers,
        &|_, slot| renew(alloc, own, slot),
    );
}
