//! The commissions of a changed state.
ghost use Rattle.std.specs.Prelude.{◌≡◌};
ghost use Rattle.state_changes.specs.Merging.{greater_of, first_of, last_kept, merged_commission};
ghost use Rattle.state_changes.specs.Printing.{capped_commission};

use meter_address::{Commission, Mode};

fn greater_of(known: Option<u32>, enrolled: Option<u32>) -> Option<u32>
    ensures { result ≡ greater_of known enrolled }
{
    match (known, enrolled) {
        (None, _) => enrolled,
        (Some(n), None) => Some(n),
        (Some(n), Some(k)) => Some(n.max(k)),
    }
}

fn first_of(known: Option<u32>, enrolled: Option<u32>) -> Option<u32>
    ensures { result ≡ first_of known enrolled }
{
    match known {
        None => enrolled,
        Some(n) => Some(n),
    }
}

fn last_kept(known: &Commission, enrolled: &Commission) -> Option<u32>
    ensures { result ≡ last_kept known.now.mode enrolled.now.mode known.now.last enrolled.now.last }
{
    match (known.mode, enrolled.mode) {
        (Mode::Five, Mode::Five) => first_of(known.last, enrolled.last),
        (Mode::Seven, Mode::Seven) => greater_of(known.last, enrolled.last),
        (Mode::Five, Mode::Seven) | (Mode::Seven, Mode::Five) => enrolled.last,
    }
}

/// The commission of a known meter that is enrolled anew: mode and keys are those of the roster, and no counter falls below either.
#[tactic(auto, using(crate::proofs::Merges::kept_fits))]
pub(crate) fn merged_commission(known: &Commission, enrolled: &Commission) -> Commission
    ensures { result ≡ merged_commission known.now enrolled.now }
{
    let last = last_kept(known, enrolled);
    Commission {
        address: enrolled.address,
        mode: enrolled.mode,
        key: enrolled.key,
        other: enrolled.other,
        last,
        down: known.down.max(enrolled.down),
        ids: known.ids.max(enrolled.ids),
    }
}

/// The commission with so many counters of downlinks passed over, up to the greatest one.
pub(crate) fn capped_commission(known: &Commission, by: u32) -> Commission
    ensures { result ≡ capped_commission by known.now }
{
    let mut commission = *known;
    commission.down = known.down.saturating_add(by);
    commission
}
