//! The register and the unit of a record, as text.

ghost use Rattle.paper.specs.Puts.{Puts};
ghost use Rattle.record_text.specs.Pieces.{register_text, unit_text};

use crate::words::{name_word, quantity_word};
use paper::{Paper, put_labelled, put_signed, put_text};
use record_values::{Quantity, UnitName};

/// The register that a record is of: its storage number, its tariff and its subunit, each behind a space
/// (EN 13757-3, 6.3).
#[tactic(auto, unfolding(crate::specs::Pieces::register_text), using(paper::proofs::Calls::three_make))]
pub fn put_register<P: Paper>(paper: &mut P, storage: u64, tariff: u32, subunit: u16)
    ensures { Puts P.takes paper.old (register_text storage tariff subunit) paper.new }
{
    put_labelled(paper, " ", storage);
    put_labelled(paper, " ", u64::from(tariff));
    put_labelled(paper, " ", u64::from(subunit));
}

/// What a record measures: its quantity, its unit and its power of ten, each behind a space (EN 13757-3, 6.4).
#[tactic(auto, unfolding(crate::specs::Pieces::unit_text), using(paper::proofs::Calls::six_make))]
pub fn put_unit<P: Paper>(paper: &mut P, quantity: Quantity, name: UnitName, exponent: i8)
    ensures { Puts P.takes paper.old (unit_text quantity name exponent) paper.new }
{
    put_text(paper, " ");
    put_text(paper, quantity_word(quantity));
    put_text(paper, " ");
    put_text(paper, name_word(name));
    put_text(paper, " ");
    put_signed(paper, i128::from(exponent));
}
