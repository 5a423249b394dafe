//! A label on paper.
ghost use Rattle.paper.specs.Puts.{Puts};
ghost use Rattle.meter_label.specs.Texts.{label_text, bytes_behind};

use crate::label::Label;
use paper::{Paper, put_hex, put_text};

/// Puts the four words of a label: the maker's letters, the identification as it is printed, the version and the device
/// type, the last three in hexadecimal.
#[tactic(auto, unfolding(crate::specs::Texts::label_text), using(paper::proofs::Calls::four_make))]
pub fn put_label<P: Paper>(paper: &mut P, label: &Label)
    ensures { Puts P.takes paper.old (label_text label.now) paper.new }
{
    put_maker(paper, &label.letters);
    put_text(paper, " ");
    put_hex(paper, &label.identification);
    put_bytes_behind(paper, label.version, label.kind);
}

// Puts the letters of a maker.
#[tactic(auto, using(paper::proofs::Calls::once))]
fn put_maker<P: Paper>(paper: &mut P, letters: &[u8; 3])
    ensures { Puts P.takes paper.old letters.now paper.new }
{
    paper.put(letters);
}

// Puts two bytes, each behind a space.
#[tactic(auto, unfolding(crate::specs::Texts::bytes_behind), using(paper::proofs::Calls::four_make))]
fn put_bytes_behind<P: Paper>(paper: &mut P, first: u8, second: u8)
    ensures { Puts P.takes paper.old (bytes_behind first second) paper.new }
{
    put_text(paper, " ");
    put_hex(paper, &[first]);
    put_text(paper, " ");
    put_hex(paper, &[second]);
}
