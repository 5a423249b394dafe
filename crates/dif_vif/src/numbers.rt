//! The numbers that the DIFEs give: storage, tariff and subunit (EN 13757-3, 6.3).

ghost use Rattle.std.specs.Prelude.{◌≡◌, ◌/◌, ◌%◌, ◌^◌, ◌<◌, ◌≤◌, map, length};
ghost use Rattle.dif_vif.specs.Numbers.{low_first, storage_of, tariff_of, subunit_of};

/// The number of which each DIFE has one digit, the first the lowest.
fn number_of(difes: &[u8], lowest: u8, base: u8) -> u64
    requires few { length difes.now ≤ 10 }
    requires lowest { 0 < lowest }
    requires base { 0 < base }
    requires small { base ≤ 16 }
    ensures value { result ≡ low_first base (map (λ dife. dife / lowest % base) difes.now) }
    ensures bound { result < base ^ 10 }
{
    let mut number = 0u64;
    let mut left = difes.len();
    'digits: while left > 0 {
        left -= 1;
        number = number * u64::from(base) + u64::from(difes[left] / lowest % base);
    }
    number
}

/// The storage number that the DIF and its DIFEs name (EN 13757-3, 6.3).
#[tactic(auto, using(crate::proofs::Lowest::lowest))]
pub fn storage_of(dif: u8, difes: &[u8]) -> u64
    requires { length difes.now ≤ 10 }
    ensures { result ≡ storage_of dif difes.now }
{
    u64::from(dif / 64 % 2) + 2 * number_of(difes, 1, 16)
}

/// The tariff that the DIFEs name.
pub fn tariff_of(difes: &[u8]) -> u32
    requires { length difes.now ≤ 10 }
    ensures { result ≡ tariff_of difes.now }
{
    number_of(difes, 16, 4) as u32
}

/// The subunit that the DIFEs name.
pub fn subunit_of(difes: &[u8]) -> u16
    requires { length difes.now ≤ 10 }
    ensures { result ≡ subunit_of difes.now }
{
    number_of(difes, 64, 2) as u16
}
