//! The lines of what says nothing: bytes that are no frame, and lines outside the grammar.
ghost use Rattle.std.specs.Prelude.{◌≡◌, Some};
ghost use Rattle.json.specs.Print.{escape};
ghost use Rattle.serde_json.specs.Data.{object};
ghost use Rattle.serde_json.specs.Read.{read};
ghost use Rattle.serde_json.specs.Written.{compact_text};
ghost use Rattle.paper.specs.Puts.{Puts};
ghost use Rattle.report_text.specs.Readings.{members};
ghost use Rattle.step_text.specs.Lines.{fault_members, unframed_tree, unframed_line, bad_tree, bad_line};
ghost use Rattle.step_text.specs.Numbers.{values_of};

use crate::causes::{Values, bad_cause, frame_cause, put_values, show_values};
use crate::showing::show_number;
use frame_formats::FrameFault;
use line_reader::BadLine;
use paper::{Paper, put_number, put_text};

fn put_fault<P: Paper>(paper: &mut P, kind: &str, line: u32, word: &str, values: Values)
    requires kind { escape kind.now ≡ kind.now }
    requires word { escape word.now ≡ word.now }
    ensures { Puts P.takes paper.old (compact_text (object (members
        (fault_members kind.now line (record { word = word.now; values = values_of values }))))) paper.new }
{
    put_text(paper, "{\"kind\":\"");
    put_text(paper, kind);
    put_text(paper, "\",\"line\":");
    put_number(paper, line as u64);
    put_text(paper, ",\"reason\":\"");
    put_text(paper, word);
    put_text(paper, "\",\"values\":");
    put_values(paper, values);
    put_text(paper, "}");
}

/// Puts the line of bytes that are no frame, and why.
#[tactic(auto, unfolding(crate::specs::Lines::json_line, json::specs::Print::escape_byte), using(paper::proofs::Calls::two_make))]
pub fn put_unframed_line<P: Paper>(paper: &mut P, line: u32, fault: FrameFault)
    ensures puts { Puts P.takes paper.old (unframed_line line fault) paper.new }
    ensures reads_back { let tree = unframed_tree line fault in read (compact_text tree) ≡ Some tree }
{
    let (word, values) = frame_cause(fault);
    show_number(line);
    show_values(values);
    put_fault(paper, "unframed", line, word, values);
    put_text(paper, "\n");
}

/// Puts the line of a line outside the grammar, and why.
#[tactic(auto, unfolding(crate::specs::Lines::json_line, json::specs::Print::escape_byte), using(paper::proofs::Calls::two_make))]
pub fn put_bad_line<P: Paper>(paper: &mut P, line: u32, bad: BadLine)
    ensures puts { Puts P.takes paper.old (bad_line line bad) paper.new }
    ensures reads_back { let tree = bad_tree line bad in read (compact_text tree) ≡ Some tree }
{
    let (word, values) = bad_cause(bad);
    show_number(line);
    show_values(values);
    put_fault(paper, "bad", line, word, values);
    put_text(paper, "\n");
}
