//! The last line: what was counted.
ghost use Rattle.std.specs.Prelude.{◌≡◌, Some};
ghost use Rattle.json.specs.Print.{escape};
ghost use Rattle.serde_json.specs.Read.{read};
ghost use Rattle.serde_json.specs.Written.{compact_text};
ghost use Rattle.paper.specs.Puts.{Puts};
ghost use Rattle.report_text.specs.Report.{ended_text};
ghost use Rattle.step_text.specs.Lines.{counts_tree, counts_line};

use crate::showing::show_number;
use meter_slots::{Counts, Ended};
use paper::{Paper, put_number, put_text};
use report_text::ended_word;

#[tactic(auto, using(crate::proofs::Words::as_text, crate::proofs::Words::ended_plain))]
fn put_ended<P: Paper>(paper: &mut P, ended: Ended)
    ensures { Puts P.takes paper.old (escape (ended_text ended)) paper.new }
{
    put_text(paper, ended_word(ended));
}

fn put_counts<P: Paper>(paper: &mut P, counts: Counts, ended: Ended)
    ensures { Puts P.takes paper.old (compact_text (counts_tree counts ended)) paper.new }
{
    put_text(paper, "{\"bad\":");
    put_number(paper, counts.bad as u64);
    put_text(paper, ",\"end\":\"");
    put_ended(paper, ended);
    put_text(paper, "\",\"kind\":\"counts\",\"lines\":");
    put_number(paper, counts.lines as u64);
    put_text(paper, ",\"own\":");
    put_number(paper, counts.own as u64);
    put_text(paper, ",\"strangers\":");
    put_number(paper, counts.strangers as u64);
    put_text(paper, ",\"unframed\":");
    put_number(paper, counts.unframed as u64);
    put_text(paper, "}");
}

/// Puts the line of the counts: how many lines were taken, how many of each class, and how they ended.
#[tactic(auto, unfolding(crate::specs::Lines::json_line), using(paper::proofs::Calls::two_make, crate::proofs::ShownLines::counts_back))]
pub fn put_counts_line<P: Paper>(paper: &mut P, counts: Counts, ended: Ended)
    ensures puts { Puts P.takes paper.old (counts_line counts ended) paper.new }
    ensures reads_back { let tree = counts_tree counts ended in read (compact_text tree) ≡ Some tree }
{
    show_number(counts.bad);
    show_number(counts.lines);
    show_number(counts.own);
    show_number(counts.strangers);
    show_number(counts.unframed);
    put_counts(paper, counts, ended);
    put_text(paper, "\n");
}
