//! The letters of a manufacturer.
ghost use Rattle.paper.specs.Puts.{Puts};
ghost use Rattle.meter_address.specs.Letters.{letters_of};
ghost use Rattle.layer_text.specs.Letters.{letters_text};

use meter_address::Address;
use paper::{Paper, put_text};

/// The manufacturer's letters of an address (EN 13757-3), or a dash for none.
#[tactic(auto, using(paper::proofs::Calls::once))]
pub fn put_letters<P: Paper>(paper: &mut P, address: Address)
    ensures { Puts P.takes paper.old (letters_text (letters_of address)) paper.new }
{
    match address.letters() {
        None => put_text(paper, "-"),
        Some(letters) => paper.put(&letters),
    }
}
