//! Which input's line comes next.
ghost use Rattle.std.specs.Prelude.{◌≡◌, IfSome, IfNone};
ghost use Rattle.line_merge.specs.Least.{better, HasHead, IsLeast, AreDone, carried};

/// The moment at which a line stands: its own, or that of the line before it in its input.
pub fn moment_of(before: u64, own: Option<u64>) -> u64
    ensures { result ≡ carried before own }
{
    match own {
        Some(at) => at,
        None => before,
    }
}

/// Of the moments of the inputs' next lines, where an input that is at its end has none: the place of the least one, and of equal ones the
/// first, with that moment; none exactly where all are at their ends.
pub fn least(heads: &[Option<u64>]) -> Option<(usize, u64)>
    ensures least { IfSome result (λ found. IsLeast heads.now found.0) }
    ensures at { IfSome result (λ found. HasHead heads.now found.0 found.1) }
    ensures none { IfNone result (AreDone heads.now) }
{
    let mut best = None;
    for (place, head) in heads.iter().enumerate() {
        best = better_of(best, place, *head);
    }
    best
}

// The better of what was found among the places before this one and what it has.
fn better_of(best: Option<(usize, u64)>, place: usize, head: Option<u64>) -> Option<(usize, u64)>
    ensures { result ≡ better best place head }
{
    match (best, head) {
        (best, None) => best,
        (None, Some(at)) => Some((place, at)),
        (Some((first, least)), Some(at)) => {
            if at < least {
                Some((place, at))
            } else {
                Some((first, least))
            }
        }
    }
}
