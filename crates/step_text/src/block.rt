//! The line of what is known of a meter at the end.
ghost use Rattle.std.specs.Prelude.{◌≡◌, Some};
ghost use Rattle.json.specs.Print.{escape};
ghost use Rattle.serde_json.specs.Read.{read};
ghost use Rattle.serde_json.specs.Written.{compact_text};
ghost use Rattle.command_queue.specs.Orders.{awaited_id};
ghost use Rattle.paper.specs.Puts.{Puts};
ghost use Rattle.state_file.specs.Written.{block_text};
ghost use Rattle.step_text.specs.Lines.{block_tree, block_line};

use crate::escaping::Inside;
use crate::pieces::{put_address, put_number_if};
use crate::showing::show_number_if;
use command_queue::Window;
use meter_slots::KnownMeter;
use paper::{Paper, put_number, put_text};
use state_file::put_block;

fn awaited_id(window: Window) -> Option<u32>
    ensures { result ≡ awaited_id window }
{
    match window {
        Window::Idle => None,
        Window::Waiting(id) => Some(id),
    }
}

fn put_inside<P: Paper>(inside: &mut Inside<'_, P>, known: &KnownMeter<'_>)
    ensures same { inside.new.paper.ghost_name ≡ inside.old.paper.ghost_name }
    ensures puts { Puts P.takes inside.old.paper.now (escape (block_text known.now)) inside.new.paper.now }
{
    put_block(inside, known);
}

// The meter's lines of a state, inside a string.
fn put_escaped_block<P: Paper>(paper: &mut P, known: &KnownMeter<'_>)
    ensures { Puts P.takes paper.old (escape (block_text known.now)) paper.new }
{
    let mut inside = Inside::new(paper);
    put_inside(&mut inside, known);
}

fn put_known<P: Paper>(paper: &mut P, known: &KnownMeter<'_>)
    ensures { Puts P.takes paper.old (compact_text (block_tree known.now)) paper.new }
{
    put_text(paper, "{\"address\":\"");
    put_address(paper, known.commission().address);
    put_text(paper, "\",\"block\":\"");
    put_escaped_block(paper, known);
    put_text(paper, "\",\"holds\":");
    put_number(paper, known.part_count() as u64);
    put_text(paper, ",\"kind\":\"block\",\"waits\":");
    put_number_if(paper, awaited_id(known.window()));
    put_text(paper, "}");
}

/// Puts the line of a meter at the end: its lines of the next state, how many fragments are held, and whether a command waits for the
/// meter's response.
#[tactic(auto, unfolding(crate::specs::Lines::json_line), using(paper::proofs::Calls::two_make))]
pub fn put_block_line<P: Paper>(paper: &mut P, known: &KnownMeter<'_>)
    ensures puts { Puts P.takes paper.old (block_line known.now) paper.new }
    ensures reads_back { let tree = block_tree known.now in read (compact_text tree) ≡ Some tree }
{
    show_number_if(awaited_id(known.window()));
    let _held = known.part_count();
    put_known(paper, known);
    put_text(paper, "\n");
}
