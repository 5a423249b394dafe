//! The report of the session of some orders, and the state that it leaves, which are compared with texts while the slots make their steps:
//! one slot at a time is held, and no journal.
ghost use Rattle.std.specs.Prelude.{◌≡◌, ◌<◌, ◌≤◌, ◌+◌, List, ℕ, Err, length, map, IfOk, OnOk};
ghost use Rattle.lists.specs.Each.{Each};
ghost use Rattle.meter_address.specs.Address.{AreApart};
ghost use Rattle.meter_slots.specs.Journal.{Start};
ghost use Rattle.receivers.specs.Orders.{IsOrderOf};
ghost use Rattle.report_text.specs.declared.lent.ReceiverEnd.{ReceiverEnd};
ghost use Rattle.audit_check_main.specs.Hearing.{tells, told_at, AreListed, AreListedBelow};
ghost use Rattle.audit_check_main.specs.Printing.{end_of, IsMeterPut, AreMetersPut, IsSessionPut};
ghost use Rattle.audit_check_main.specs.Stepping.{AreOrders, IsOrderOfEach, IsEventFor};

use crate::comparing::Comparing;
use crate::hearing::Hearing;
use crate::leaving::{put_left, put_state_head, show_own};
use crate::printed::Order;
use crate::stepping::{Unmade, note_strangers, step_meter};
use meter_address::Address;
use meter_directory::Directory;
use meter_slots::{Ended, MeterStart};
use outer_io::Memory;
use paper::put_text;
use report_text::{ReceiverEnd, put_end, put_head, put_meter_line, put_strangers};
use std::alloc::Global;

// The receivers' ends: each input was heard to its end.
fn receiver_ends(alloc: Global, heard: &[Hearing<'_>]) -> Result<Vec<ReceiverEnd>, Memory>
    ensures { IfOk result (λ ends. ends.items ≡ map end_of heard.now) }
{
    let ends = heard
        .iter()
        .map(|h| ReceiverEnd {
            counts: h.counts(),
            ended: Ended::End,
        })
        .collect::<Vec<ReceiverEnd>>(alloc)?;
    Ok(ends)
}

// Puts what the report says of a meter after its own lines in this order of them, and what is left of it. Its first line in the report
// tells what all steps come to, and so it is passed over, and compared at the end.
fn put_meter(
    alloc: Global,
    own: Address,
    start: MeterStart,
    heard: &[Hearing<'_>],
    order: &[(u32, u32)],
    paper: &mut Comparing<'_>,
    next: &mut Comparing<'_>,
) -> Result<(), Unmade>
    ensures put { OnOk result (IsOrderOf start.address (map tells heard.now) order.now
        → IsMeterPut own (map tells heard.now) start order.now (record { report = paper.old; next = next.old })
        (record { report = paper.new; next = next.new })) }
    ensures own_lines { OnOk result (Each (λ p. IsEventFor start.address (told_at heard.now p.0 p.1)) order.now) }
    ensures stray { result ≡ Err Unmade.Stray → IsOrderOf start.address (map tells heard.now) order.now → ⊥ }
{
    let mut line = paper.pass_line();
    let steps = step_meter(alloc, own, start, heard, order, paper)?;
    steps.put_rest(paper);
    put_meter_line(&mut line, &steps.line());
    paper.settle(line);
    put_left(next, &steps.known());
    Ok(())
}

// Puts what the report says of each meter after its own lines in the order of its list, and what is left of it. Each slot is let go before
// the next is made.
fn put_meters(
    alloc: Global,
    own: Address,
    meters: Vec<MeterStart>,
    heard: &[Hearing<'_>],
    lists: &[Order],
    paper: &mut Comparing<'_>,
    next: &mut Comparing<'_>,
) -> Result<(), Unmade>
    requires apart { AreApart (map (λ c. c.address) meters.items) }
    requires lists { length meters.items < length lists.now }
    ensures put { OnOk result (IsOrderOfEach (map tells heard.now) meters.items lists.now
        → AreMetersPut own (map tells heard.now) meters.items lists.now (record { report = paper.old; next = next.old })
        (record { report = paper.new; next = next.new })) }
    ensures own_lines { OnOk result (AreListedBelow (length meters.items) (map (λ c. c.address) meters.items) heard.now lists.now) }
    ensures stray { result ≡ Err Unmade.Stray → IsOrderOfEach (map tells heard.now) meters.items lists.now → ⊥ }
{
    let mut list = 0;
    for start in meters {
        put_meter(alloc, own, start, heard, lists[list].pairs(), paper, next)?;
        list += 1;
    }
    Ok(())
}

/// Puts the report of the session in which each slot makes its steps in the order of its list, and the last list is that of the strangers,
/// and the state that this session leaves.
pub(crate) fn put_session(
    alloc: Global,
    own: Address,
    meters: Vec<MeterStart>,
    directory: &Directory,
    heard: &[Hearing<'_>],
    lists: &[Order],
    paper: &mut Comparing<'_>,
    next: &mut Comparing<'_>,
) -> Result<(), Unmade>
    requires few { length meters.items ≤ 4096 }
    requires directory { directory.now ≡ map (λ c. c.address) meters.items }
    requires apart { AreApart directory.now }
    requires long { length lists.now ≡ length meters.items + 1 }
    ensures put { OnOk result (AreOrders meters.items heard.now lists.now
        → IsSessionPut own meters.items heard.now lists.now (record { report = paper.old; next = next.old })
        (record { report = paper.new; next = next.new })) }
    ensures own_lines { OnOk result (AreListed directory.now heard.now lists.now) }
    ensures stray { result ≡ Err Unmade.Stray → AreOrders meters.items heard.now lists.now → ⊥ }
{
    show_own(own.0);
    let ends = receiver_ends(alloc, heard)?;
    put_head(paper, ends.as_slice());
    put_state_head(next, own);
    let order = lists[meters.len()].pairs();
    let strangers = note_strangers(alloc, meters.as_slice(), directory, heard, order)?;
    put_meters(alloc, own, meters, heard, lists, paper, next)?;
    put_strangers(paper, &strangers);
    put_end(paper);
    put_text(next, "end\n");
    Ok(())
}
