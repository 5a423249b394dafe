//! The summary of a made session.
ghost use Rattle.std.specs.Prelude.{◌≡◌, ◌≤◌, length};
ghost use Rattle.paper.specs.Puts.{Puts};
ghost use Rattle.made_input.specs.Summary.{of_meters, of_stranger, highest, counts_text, summary_text};

use paper::{Paper, Printed, put_labelled, put_text};

/// How many telegrams are the stranger's: one in each whole round.
fn of_stranger(meters: u32, telegrams: u32) -> u64
    ensures count { result ≡ length (of_stranger meters telegrams) }
    ensures few { result ≤ telegrams }
{
    telegrams as u64 / (meters as u64 + 1)
}

/// How many telegrams are meters', each of which counts its own: so many is also the sum of their last counters.
fn of_meters(meters: u32, telegrams: u32) -> u64
    ensures count { result ≡ length (of_meters meters telegrams) }
    ensures highest { result ≡ highest meters telegrams }
    ensures few { result ≤ telegrams }
{
    telegrams as u64 - of_stranger(meters, telegrams)
}

/// The summary of the session of so many meters and telegrams, as a text.
#[derive(Clone, Copy)]
pub struct Summary {
    /// How many meters.
    pub meters: u32,
    /// How many telegrams, each of which four receivers hear.
    pub telegrams: u32,
}

#[tactic(auto, unfolding(crate::specs::Summary::counts_text), using(paper::proofs::Calls::five_make))]
fn put_counts<P: Paper>(paper: &mut P, summary: Summary)
    ensures { Puts P.takes paper.old (counts_text summary.meters summary.telegrams) paper.new }
{
    let Summary { meters, telegrams } = summary;
    put_labelled(paper, "meters ", meters as u64);
    put_text(paper, " receivers 4");
    put_labelled(paper, " lines ", 4 * telegrams as u64);
    put_labelled(paper, " steps ", 4 * of_meters(meters, telegrams));
    put_labelled(paper, " strangers ", 4 * of_stranger(meters, telegrams));
}

impl Printed for Summary {
    ghost text = { λ s. summary_text s.meters s.telegrams };

    #[tactic(auto, unfolding(crate::specs::Summary::summary_text), using(paper::proofs::Calls::four_make))]
    fn print<P: Paper>(&self, paper: &mut P) {
        put_text(paper, "wmbus-made 1\n");
        put_counts(paper, *self);
        put_labelled(paper, "\nhighest ", of_meters(self.meters, self.telegrams));
        put_text(paper, "\nend\n");
    }
}
