//! Slots by their places, which no program asks for.
ghost use Rattle.std.specs.Prelude.{◌≡◌, ◌∷◌, []};

use crate::asserts::{NO_MEMORY, assert_shown};
use meter_address::{Address, Commission, Mode};
use meter_slots::MeterStart;
use meter_worlds::World;
use std::alloc::Global;
use std::process::Abort;

// The gas meter of the OMS examples.
fn gas() -> Commission {
    Commission {
        address: Address(0x9315_7856_3412_3303),
        mode: Mode::Five,
        key: [0; 16],
        other: None,
        last: None,
        down: 0,
        ids: 0,
    }
}

// What is known of a meter, alone in a list.
fn alone(rt: &impl Abort, alloc: Global, start: MeterStart) -> Vec<MeterStart>
    ensures { result.items ≡ start ∷ [] }
{
    vec![in alloc; start].expect(rt, NO_MEMORY)
}

#[test]
fn a_world_has_a_slot_for_each_meter(rt: HostRuntime) {
    let alloc = rt.alloc();
    let starts = alone(&rt, alloc, MeterStart::new(gas()));
    let world = World::new(alloc, Address(0x9315_0100_0000_0131), starts);
    let world = world.ok().expect(&rt, NO_MEMORY);
    let slots = (world.slot(0).is_some(), world.slot(1).is_none());
    assert_shown(&rt, alloc, &slots, "(true, true)", "slots");
}
