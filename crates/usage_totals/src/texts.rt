//! The texts of answers.
ghost use Rattle.std.specs.Prelude.{◌≡◌, codes};
ghost use Rattle.std.specs.List.{flat_map};
ghost use Rattle.paper.specs.Puts.{Puts};
ghost use Rattle.paper.specs.Pieces.{labelled, text_if};
ghost use Rattle.usage_totals.specs.Usage.{usage_at};
ghost use Rattle.usage_totals.specs.Sums.{total_at};
ghost use Rattle.usage_totals.specs.Table.{rows_at};
ghost use Rattle.usage_totals.specs.Texts.{named_if, address_text, done_text, refusal_text, edit_text, key_text};
ghost use Rattle.usage_totals.specs.Texts.{usage_line, total_line, usages_kept, totals_kept};

use crate::fault::TotalsFault;
use crate::key::UsageKey;
use crate::totals::Totals;
use meter_address::Address;
use paper::{Paper, put_hex, put_labelled, put_signed, put_text};
use record_text::{put_register, put_unit};

/// The meter that an answer names, if answers do.
pub(crate) fn named_if(addressed: bool, address: Address) -> Option<Address>
    ensures { result ≡ named_if addressed address }
{
    if addressed { Some(address) } else { None }
}

#[tactic(auto, using(paper::proofs::Calls::two_make))]
fn put_address<P: Paper>(paper: &mut P, address: Address)
    ensures { Puts P.takes paper.old (address_text address) paper.new }
{
    put_text(paper, " ");
    put_hex(paper, &address.to_bytes());
}

#[tactic(auto, using(paper::proofs::Calls::none))]
fn put_meter<P: Paper>(paper: &mut P, meter: Option<Address>)
    ensures { Puts P.takes paper.old (text_if address_text meter) paper.new }
{
    match meter {
        None => {}
        Some(address) => put_address(paper, address),
    }
}

#[tactic(auto, unfolding(crate::specs::Texts::done_text), using(paper::proofs::Calls::three_make))]
fn put_done<P: Paper>(paper: &mut P, meter: Option<Address>, word: &str)
    ensures { Puts P.takes paper.old (done_text meter word.now) paper.new }
{
    put_text(paper, word);
    put_meter(paper, meter);
    put_text(paper, "\n");
}

#[tactic(auto, unfolding(crate::specs::Texts::refusal_text), using(paper::proofs::Calls::four_make))]
fn put_refusal<P: Paper>(paper: &mut P, meter: Option<Address>, words: &str)
    ensures { Puts P.takes paper.old (refusal_text meter words.now) paper.new }
{
    put_text(paper, "refused");
    put_meter(paper, meter);
    put_text(paper, words);
    put_text(paper, "\n");
}

#[tactic(auto, unfolding(crate::specs::Texts::refusal_text), using(paper::proofs::Calls::four_make))]
fn put_no_such<P: Paper>(paper: &mut P, meter: Option<Address>, place: u32)
    ensures { Puts P.takes paper.old (refusal_text meter (labelled (codes " nosuch ") place)) paper.new }
{
    put_text(paper, "refused");
    put_meter(paper, meter);
    put_labelled(paper, " nosuch ", u64::from(place));
    put_text(paper, "\n");
}

#[tactic(auto, unfolding(crate::specs::Texts::key_text), using(paper::proofs::Calls::two_make))]
fn put_key<P: Paper>(paper: &mut P, key: &UsageKey)
    ensures { Puts P.takes paper.old (key_text key.now) paper.new }
{
    put_register(paper, key.storage, key.tariff, key.subunit);
    put_unit(paper, key.quantity, key.name, key.exponent);
}

#[tactic(auto, unfolding(crate::specs::Texts::usage_line), using(paper::proofs::Calls::six_make))]
fn put_usage<P: Paper>(paper: &mut P, meter: Option<Address>, key: &UsageKey, amount: i128)
    ensures { Puts P.takes paper.old (usage_line meter key.now amount) paper.new }
{
    put_text(paper, "usage");
    put_meter(paper, meter);
    put_key(paper, key);
    put_text(paper, " ");
    put_signed(paper, amount);
    put_text(paper, "\n");
}

#[tactic(auto, using(paper::proofs::Calls::none))]
fn put_usage_if<P: Paper>(paper: &mut P, meter: Option<Address>, key: &UsageKey, used: Option<i128>)
    ensures { Puts P.takes paper.old (text_if (usage_line meter key.now) used) paper.new }
{
    match used {
        None => {}
        Some(amount) => put_usage(paper, meter, key, amount),
    }
}

#[tactic(auto, unfolding(crate::specs::Texts::total_line), using(paper::proofs::Calls::six_make))]
fn put_total<P: Paper>(paper: &mut P, key: &UsageKey, sum: (u32, i128))
    ensures { Puts P.takes paper.old (total_line key.now (record { meters = sum.0; amount = sum.1 })) paper.new }
{
    put_text(paper, "total");
    put_key(paper, key);
    put_labelled(paper, " ", u64::from(sum.0));
    put_text(paper, " ");
    put_signed(paper, sum.1);
    put_text(paper, "\n");
}

fn put_total_of<P: Paper>(paper: &mut P, totals: &Totals, key: &UsageKey)
    ensures { Puts P.takes paper.old (total_line key.now (total_at key.now totals.now)) paper.new }
{
    put_total(paper, key, totals.total(key));
}

#[tactic(auto, using(paper::proofs::Calls::none))]
fn put_usages<P: Paper>(
    paper: &mut P,
    meter: Option<Address>,
    totals: &Totals,
    address: Address,
    keys: &[UsageKey],
)
    ensures { Puts P.takes paper.old
        (flat_map (λ key. text_if (usage_line meter key) (usage_at key (rows_at address totals.now))) keys.now) paper.new }
{
    for key in keys {
        put_usage_if(paper, meter, key, totals.usage(address, key));
    }
}

#[tactic(auto, using(paper::proofs::Calls::none))]
fn put_totals<P: Paper>(paper: &mut P, totals: &Totals, keys: &[UsageKey])
    ensures { Puts P.takes paper.old (flat_map (λ key. total_line key (total_at key totals.now)) keys.now) paper.new }
{
    for key in keys {
        put_total_of(paper, totals, key);
    }
}

/// Puts the usages of a meter, with the keys of all usages, in an answer that names this meter, if it does.
#[tactic(auto, unfolding(crate::specs::Texts::usages_kept), using(paper::proofs::Calls::two_make))]
pub(crate) fn put_usages_answer<P: Paper>(
    paper: &mut P,
    meter: Option<Address>,
    totals: &Totals,
    address: Address,
    keys: &[UsageKey],
)
    ensures { Puts P.takes paper.old (usages_kept meter totals.now address keys.now) paper.new }
{
    put_usages(paper, meter, totals, address, keys);
    put_done(paper, meter, "end");
}

/// Puts the totals, with the keys of all usages.
#[tactic(auto, unfolding(crate::specs::Texts::totals_kept), using(paper::proofs::Calls::two_make))]
pub(crate) fn put_totals_answer<P: Paper>(paper: &mut P, totals: &Totals, keys: &[UsageKey])
    ensures { Puts P.takes paper.old (totals_kept totals.now keys.now) paper.new }
{
    put_totals(paper, totals, keys);
    put_text(paper, "end\n");
}

/// Puts the answer to an edit: why the rows refuse it, if they do, and the meter that the answer names, if it does.
#[tactic(auto, using(paper::proofs::Calls::none))]
pub(crate) fn put_edit_answer<P: Paper>(
    paper: &mut P,
    meter: Option<Address>,
    fault: Option<TotalsFault>,
)
    ensures { Puts P.takes paper.old (edit_text meter fault) paper.new }
{
    match fault {
        None => put_done(paper, meter, "ok"),
        Some(TotalsFault::Meters) => put_refusal(paper, meter, " meters"),
        Some(TotalsFault::Rows) => put_refusal(paper, meter, " rows"),
        Some(TotalsFault::NoSuch(place)) => put_no_such(paper, meter, place),
        Some(TotalsFault::Memory) => {}
    }
}
