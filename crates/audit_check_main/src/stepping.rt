//! The session of the printed orders: each slot makes its steps in the order that is printed, and keeps no journal.
ghost use Rattle.std.specs.Prelude.{◌≡◌, ◌<◌, ◌+◌, List, ℕ, Err, length, map, IfOk, slice_index_or};
ghost use Rattle.lists.specs.Each.{Each};
ghost use Rattle.receivers.specs.Orders.{IsOrderOf, IsOrderedSlot, IsOrderOfStrangers, AreOrderedStrangers};
ghost use Rattle.meter_slots.specs.Journal.{Start, SlotView};
ghost use Rattle.audit_check_main.specs.Hearing.{sort_of, tells, told_at};
ghost use Rattle.audit_check_main.specs.MeterSteps.{HasStepped};
ghost use Rattle.audit_check_main.specs.Stepping.{IsEventFor};

use crate::comparing::Comparing;
use crate::hearing::{Hearing, Sort, list_of};
use crate::meter_steps::MeterSteps;
use crate::printed::Order;
use meter_address::Address;
use meter_directory::Directory;
use meter_slots::MeterStart;
use outer_io::Memory;
use receivers::Told;
use std::alloc::Global;
use stranger_ring::Strangers;

// What a receiver's line tells; both are numbered from 1.
fn told_at(heard: &[Hearing<'_>], source: u32, line: u32) -> Told
    ensures { result ≡ told_at heard.now source line }
{
    if source == 0 {
        return Told::Bad;
    }
    match heard.get(source as usize - 1) {
        None => Told::Bad,
        Some(hearing) => hearing.told_at(line),
    }
}

/// Why no slot, or no session, is made.
#[derive(Clone, Copy)]
pub enum Unmade {
    /// A list names a line that isn't one of its own.
    Stray,
    /// There is no memory.
    Memory,
}

impl From<Memory> for Unmade {
    ghost use Rattle.std.specs.Prelude.{◌≡◌};
    ghost use Rattle.audit_check_main.specs.declared.stepping.Unmade.TheVariants.{Memory};

    ghost from_gives = { λ _ e. e ≡ Memory };

    fn from(_: Memory) -> Unmade {
        Unmade::Memory
    }
}

/// Puts the lines of a meter's steps after its own lines in this order of them, and keeps what they come to.
pub(crate) fn step_meter(
    alloc: Global,
    own: Address,
    start: MeterStart,
    heard: &[Hearing<'_>],
    order: &[(u32, u32)],
    paper: &mut Comparing<'_>,
) -> Result<MeterSteps, Unmade>
    ensures stepped { IfOk result (λ steps. (slot : SlotView) → IsOrderedSlot own (map tells heard.now) start order.now slot
        → HasStepped slot paper.old steps paper.new) }
    ensures own_lines { IfOk result (λ steps. Each (λ p. IsEventFor start.address (told_at heard.now p.0 p.1)) order.now) }
    ensures stray { result ≡ Err Unmade.Stray → IsOrderOf start.address (map tells heard.now) order.now → ⊥ }
{
    let mine = start.address();
    let mut steps = MeterSteps::new(alloc, own, start);
    for pair in order {
        let Told::Event(address, event) = told_at(heard, pair.0, pair.1) else {
            return Err(Unmade::Stray);
        };
        if address.0 != mine.0 {
            return Err(Unmade::Stray);
        }
        steps.step(pair.0, pair.1, &event, paper)?;
    }
    Ok(steps)
}

/// The strangers after their lines, in this order of them.
pub(crate) fn note_strangers(
    alloc: Global,
    meters: &[MeterStart],
    directory: &Directory,
    heard: &[Hearing<'_>],
    order: &[(u32, u32)],
) -> Result<Strangers, Unmade>
    requires { directory.now ≡ map (λ c. c.address) meters.now }
    ensures strangers { IfOk result (λ strangers. IsOrderOfStrangers meters.now (map tells heard.now) order.now
        → AreOrderedStrangers meters.now (map tells heard.now) order.now strangers) }
    ensures own_lines { let list = Sort.Listed (length meters.now) in
        IfOk result (λ strangers. Each (λ p. sort_of directory.now (told_at heard.now p.0 p.1) ≡ list) order.now) }
    ensures stray { result ≡ Err Unmade.Stray → IsOrderOfStrangers meters.now (map tells heard.now) order.now → ⊥ }
{
    let mut strangers = Strangers::new(alloc);
    for pair in order {
        let Told::Event(address, _) = told_at(heard, pair.0, pair.1) else {
            return Err(Unmade::Stray);
        };
        if list_of(meters, directory, address) < meters.len() {
            return Err(Unmade::Stray);
        }
        strangers.note(pair.0, pair.1, address)?;
    }
    Ok(strangers)
}
