//! The lines of inputs: their moments, and how they are printed.
ghost use Rattle.std.specs.Prelude.{◌≡◌};
ghost use Rattle.paper.specs.Puts.{Puts};
ghost use Rattle.line_merge.specs.Inputs.{moment_in, number_text};

use line_reader::{Line, read_line};
use paper::{Paper, Printed, put_number, put_text};

/// The moment that a line names, given without its end: that at which its frame was heard.
pub fn moment_in(text: &[u8]) -> Option<u64>
    ensures { result ≡ moment_in text.now }
{
    match read_line(text) {
        Ok(Line::Frame { at, .. }) => Some(at),
        _ => None,
    }
}

/// A line of the merge.
#[derive(Drop)]
pub(crate) struct MergedLine<'a> {
    /// Whether its input's number stands in front of it.
    pub numbered: bool,
    /// The number of its input, from 1.
    pub number: u64,
    /// Its bytes, without its end.
    pub bytes: &'a [u8],
}

// Puts an input's number and a blank, where inputs are numbered.
#[tactic(auto, unfolding(crate::specs::Inputs::number_text), using(paper::proofs::Calls::none, paper::proofs::Calls::two_make))]
fn put_number_if<P: Paper>(paper: &mut P, numbered: bool, number: u64)
    ensures { Puts P.takes paper.old (number_text numbered number) paper.new }
{
    if numbered {
        put_number(paper, number);
        put_text(paper, " ");
    }
}

impl Printed for MergedLine<'_> {
    ghost use Rattle.line_merge.specs.Inputs.{line_text};

    ghost text = { λ m. line_text m.numbered m.number m.bytes.now };

    fn print<P: Paper>(&self, paper: &mut P) {
        put_number_if(paper, self.numbered, self.number);
        paper.put(self.bytes);
        put_text(paper, "\n");
    }
}
