//! What is printed of a line.
ghost use Rattle.std.specs.Prelude.{◌≡◌};
ghost use Rattle.paper.specs.Puts.{Puts};
ghost use Rattle.receivers.specs.Told.{told_of};
ghost use Rattle.address_list.specs.Addresses.{told_text, line_text};

use line_reader::read_line;
use line_teller::{Sheet, Teller};
use outer_io::Memory;
use paper::{Paper, put_hex, put_text};
use receivers::{Told, tell};
use std::alloc::Global;

/// The most bytes of a line, without its end, that is looked at: a longer one is outside the grammar.
pub const LINE_MAX: usize = line_reader::LINE_MAX;

// What the collector is told by a line.
fn told_in(line: &[u8]) -> Told
    ensures { result ≡ told_of line.now }
{
    match read_line(line) {
        Ok(line) => tell(&line),
        Err(_) => Told::Bad,
    }
}

// Puts the address of the meter that an event is for, or a dash.
fn put_told<P: Paper>(paper: &mut P, told: &Told)
    ensures { Puts P.takes paper.old (told_text told.now) paper.new }
{
    match told {
        Told::Event(address, _) => put_hex(paper, &address.to_bytes()),
        Told::Unframed | Told::Bad => put_text(paper, "-"),
    }
}

// Puts what is printed of a line.
#[tactic(auto, unfolding(crate::specs::Addresses::line_text), using(paper::proofs::Calls::two_make))]
fn put_line<P: Paper>(paper: &mut P, told: &Told)
    ensures { Puts P.takes paper.old (line_text told.now) paper.new }
{
    put_told(paper, told);
    put_text(paper, "\n");
}

/// Tells of each line for which meter it is.
#[derive(Clone, Copy)]
pub(crate) struct Addresses;

impl Teller for Addresses {
    ghost use Rattle.address_list.specs.Telling.{TellsAddress};

    ghost longest = { 1024 };

    ghost tells = { TellsAddress };

    fn tell(
        &mut self,
        _alloc: Global,
        _number: u32,
        line: &[u8],
        text: &mut Sheet,
        _note: &mut Sheet,
    ) -> Result<(), Memory> {
        put_line(text, &told_in(line));
        Ok(())
    }

    fn tell_long(&mut self, _number: u32, text: &mut Sheet, _note: &mut Sheet) {
        put_line(text, &Told::Bad);
    }
}
