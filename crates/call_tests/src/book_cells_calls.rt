//! Two cells whose books act at the same time: each act is held up at a gate until the other has begun.
ghost use Rattle.std.specs.Prelude.{◌≡◌, []};
ghost use Rattle.book_cells.specs.Acts.{IsPassOf};

use crate::asserts::NO_MEMORY;
use book_cells::{Act, Book, BookCell, Pass};
use outer_io::Memory;
use std::alloc::Global;
use std::process::Abort;
use std::sync::Wait;
use std::sync::atomic::{AtomicU64, Ordering};
use std::thread::{Threads, join};

// Where two acts have to begin before either may end. One that has waited for so many turns is turned away.
#[derive(Drop)]
struct Gate {
    turns: u64,
    begun: AtomicU64,
}

impl Gate {
    fn new(turns: u64) -> Gate {
        Gate {
            turns,
            begun: AtomicU64::new(0),
        }
    }

    // Whether the other began in time.
    fn is_passed(&self) -> bool {
        self.begun.fetch_add(1, Ordering::SeqCst);
        for _ in 0..self.turns {
            if self.begun.load(Ordering::SeqCst) >= 2 {
                return true;
            }
        }
        false
    }
}

// A book that answers each call with itself, behind the gate; where it is turned away there is no memory.
#[derive(Drop)]
struct Gated<'g> {
    gate: &'g Gate,
    acts: Vec<Act<u32, u32>>,
}

impl Book for Gated<'_> {
    type Call = u32;

    type Answer = u32;

    ghost Opening = { Unit {0} };

    ghost opening = { λ b. tt };

    ghost acts = { λ b. b.acts.items };

    ghost is_legal = { λ o acts. Unit {0} };

    fn act(&mut self, source: u32, line: u32, call: u32) -> Result<u32, Memory> {
        if !self.gate.is_passed() {
            return Err(Memory);
        }
        self.acts.push(Act {
            source,
            line,
            call,
            answer: call,
        })?;
        Ok(call)
    }

    ghost empty_is_legal = { λ o. tt };
}

// A cell over a book behind this gate, with its pass.
fn enclosed<'g>(
    rt: &impl Abort,
    alloc: Global,
    gate: &'g Gate,
) -> (BookCell<Gated<'g>>, Pass<Gated<'g>>)
    ensures { IsPassOf result.0 result.1 }
{
    let book = Gated {
        gate,
        acts: Vec::new(alloc),
    };
    match BookCell::new(alloc, book, 1) {
        Ok(made) => made,
        Err(_) => panic!(rt; "{NO_MEMORY}"),
    }
}

// Whether an act on a cell was made.
fn is_made<'g, R: Wait>(rt: &R, cell: &BookCell<Gated<'g>>, pass: &mut Pass<Gated<'g>>) -> bool
    requires { IsPassOf cell.now pass.old }
{
    cell.step(rt, pass, 1, 7).is_ok()
}

#[test]
fn acts_on_two_cells_are_made_at_the_same_time(rt: HostRuntime) {
    let gate = Gate::new(1_000_000_000);
    let (first, mut first_pass) = enclosed(&rt, rt.alloc(), &gate);
    let (second, mut second_pass) = enclosed(&rt, rt.alloc(), &gate);
    let made = join(
        &rt,
        || is_made(&rt, &first, &mut first_pass),
        || is_made(&rt, &second, &mut second_pass),
    );
    assert_eq!(rt; made, (true, true));
}

#[test]
fn an_act_for_which_no_other_begins_is_turned_away(rt: HostRuntime) {
    let gate = Gate::new(1_000);
    let (cell, mut pass) = enclosed(&rt, rt.alloc(), &gate);
    assert!(rt; !is_made(&rt, &cell, &mut pass));
}
