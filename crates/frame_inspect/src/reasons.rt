//! Why a message isn't opened, in the words of reports.
ghost use Rattle.paper.specs.Puts.{Puts};
ghost use Rattle.frame_inspect.specs.Below.{refused_line};

use message_check::Reason;
use paper::{Paper, put_text};
use report_text::put_reason;

/// Puts the line that says why a message isn't opened.
#[tactic(auto, unfolding(crate::specs::Below::refused_line), using(paper::proofs::Calls::three_make))]
pub(crate) fn put_refused<P: Paper>(paper: &mut P, reason: Reason)
    ensures { Puts P.takes paper.old (refused_line reason) paper.new }
{
    put_text(paper, "  refused ");
    put_reason(paper, reason);
    put_text(paper, "\n");
}
