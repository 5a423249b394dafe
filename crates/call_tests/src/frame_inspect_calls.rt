//! Looks at lines, in one thread and in several.
ghost use Rattle.std.specs.Prelude.{◌≡◌, ◌≤◌, IfOk, vec_len};

use crate::asserts::NO_MEMORY;
use bytes::Bytes;
use frame_inspect_main::{Item, Look, Room, Shown, inspect};
use outer_io::Memory;
use std::alloc::{AllocError, Global};
use std::process::Abort;
use std::sync::Wait;
use std::sync::atomic::{AtomicU64, Ordering};
use std::thread::Threads;

// A look whose call on the first of two items ends only once its call on the second has begun, or after so many turns without memory.
#[derive(Drop)]
struct Gate {
    turns: u64,
    second_begun: AtomicU64,
}

impl Look for Gate {
    ghost use Rattle.std.specs.Prelude.{[]};

    ghost meaning = { λ look number item. [] };

    fn look(&self, _room: &mut Room, number: u32, _next: &Item) -> Result<Shown, Memory> {
        if number == 2 {
            self.second_begun.store(1, Ordering::SeqCst);
            return Ok(Shown::new(Bytes::new()));
        }
        for _ in 0..self.turns {
            if self.second_begun.load(Ordering::SeqCst) == 1 {
                return Ok(Shown::new(Bytes::new()));
            }
        }
        Err(Memory)
    }
}

// So many lines that are too long.
fn long_lines(alloc: Global, count: usize) -> Result<Vec<Item>, AllocError>
    ensures { IfOk result (λ items. vec_len items ≡ count) }
{
    (0..count).map(|_| Item::TooLong).collect(alloc)
}

// Whether looks at two lines, of which the first waits for the second for so many turns, are made by so many workers.
fn are_shown<R: Threads + Wait + Abort + Sync>(
    rt: &R,
    alloc: Global,
    turns: u64,
    workers: u32,
) -> bool
    requires { (1 ≤ workers) × (workers ≤ 2) }
{
    let items = long_lines(alloc, 2).expect(rt, NO_MEMORY);
    let gate = Gate {
        turns,
        second_begun: AtomicU64::new(0),
    };
    inspect(rt, alloc, &gate, &items, workers).is_ok()
}

#[test]
fn two_workers_look_at_once_and_one_at_one_line_after_another(rt: HostRuntime) {
    let two = are_shown(&rt, rt.alloc(), 1_000_000_000, 2);
    let one = are_shown(&rt, rt.alloc(), 1_000, 1);
    assert_eq!(rt; (two, one), (true, false));
}
