//! The text of a roster.
ghost use Rattle.std.specs.Prelude.{◌≡◌, IfOk};
ghost use Rattle.std.specs.List.{flat_map};
ghost use Rattle.paper.specs.Puts.{Puts};
ghost use Rattle.roster_file.specs.Text.{mode_text, other_text, last_text, meter_text, own_text, roster_text};
ghost use Rattle.roster_file.specs.Writing.{name_text, keys_text, counts_text};

use crate::roster::Roster;
use meter_address::{Address, Commission, Mode};
use outer_io::Memory;
use paper::{Paper, Printed, put_hex, put_number, put_text, written};
use std::alloc::Global;

fn mode_word(mode: Mode) -> &'static str
    ensures { result.now ≡ mode_text mode }
{
    match mode {
        Mode::Five => "5",
        Mode::Seven => "7",
    }
}

#[tactic(auto, unfolding(crate::specs::Writing::name_text), using(paper::proofs::Calls::five_make))]
fn put_name<P: Paper>(paper: &mut P, meter: &Commission)
    ensures { Puts P.takes paper.old (name_text meter.now) paper.new }
{
    put_text(paper, "meter ");
    put_hex(paper, &meter.address.to_bytes());
    put_text(paper, " ");
    put_text(paper, mode_word(meter.mode));
    put_text(paper, " ");
}

fn put_other<P: Paper>(paper: &mut P, other: Option<[u8; 16]>)
    ensures { Puts P.takes paper.old (other_text other) paper.new }
{
    match other {
        None => put_text(paper, "-"),
        Some(key) => put_hex(paper, &key),
    }
}

#[tactic(auto, unfolding(crate::specs::Writing::keys_text), using(paper::proofs::Calls::four_make))]
fn put_keys<P: Paper>(paper: &mut P, meter: &Commission)
    ensures { Puts P.takes paper.old (keys_text meter.now) paper.new }
{
    put_hex(paper, &meter.key);
    put_text(paper, " ");
    put_other(paper, meter.other);
    put_text(paper, " ");
}

fn put_last<P: Paper>(paper: &mut P, last: Option<u32>)
    ensures { Puts P.takes paper.old (last_text last) paper.new }
{
    match last {
        None => put_text(paper, "-"),
        Some(last) => put_number(paper, u64::from(last)),
    }
}

#[tactic(auto, unfolding(crate::specs::Writing::counts_text), using(paper::proofs::Calls::six_make))]
fn put_counts<P: Paper>(paper: &mut P, meter: &Commission)
    ensures { Puts P.takes paper.old (counts_text meter.now) paper.new }
{
    put_last(paper, meter.last);
    put_text(paper, " ");
    put_number(paper, u64::from(meter.down));
    put_text(paper, " ");
    put_number(paper, u64::from(meter.ids));
    put_text(paper, "\n");
}

/// Prints the line of a meter.
#[tactic(auto, using(crate::proofs::LinePieces::meter_line))]
pub fn put_meter<P: Paper>(paper: &mut P, meter: &Commission)
    ensures { Puts P.takes paper.old (meter_text meter.now) paper.new }
{
    put_name(paper, meter);
    put_keys(paper, meter);
    put_counts(paper, meter);
}

#[tactic(auto, using(paper::proofs::Calls::none, paper::proofs::Calls::then))]
fn put_meters<P: Paper>(paper: &mut P, meters: &[Commission])
    ensures { Puts P.takes paper.old (flat_map meter_text meters.now) paper.new }
{
    for meter in meters {
        put_meter(paper, meter);
    }
}

/// Prints the own line.
#[tactic(auto, using(crate::proofs::LinePieces::own_line))]
pub fn put_own<P: Paper>(paper: &mut P, own: Address)
    ensures { Puts P.takes paper.old (own_text own) paper.new }
{
    put_text(paper, "own ");
    put_hex(paper, &own.to_bytes());
    put_text(paper, "\n");
}

/// A roster is printed in version 2, whichever it was read in.
impl Printed for Roster {
    ghost use Rattle.roster_file.specs.Text.{roster_text};

    ghost text = { roster_text };

    #[tactic(auto, unfolding(crate::specs::Text::roster_text), using(paper::proofs::Calls::three_make))]
    fn print<P: Paper>(&self, paper: &mut P) {
        put_text(paper, "wmbus-roster 2\n");
        put_own(paper, self.own());
        put_meters(paper, self.meters());
    }
}

/// The text of a roster, if there is memory for it. All memory is taken here; what writes the text takes none.
pub fn write_roster(alloc: Global, roster: &Roster) -> Result<Vec<u8>, Memory>
    ensures { IfOk result (λ bytes. bytes.items ≡ roster_text roster.now) }
{
    written(alloc, roster)
}
