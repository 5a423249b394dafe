//! The words of a layer that can't be read.
ghost use Rattle.paper.specs.Puts.{Puts};
ghost use Rattle.layer_text.specs.Faults.{ell_fault_text, afl_fault_text, tpl_fault_text, named_fault_text, layer_fault_text};

use afl_layer::AflFault;
use ell_layer::EllFault;
use message_check::LayerFault;
use paper::{Paper, put_labelled, put_labelled_bytes, put_labelled_two, put_text};
use tpl_headers::TplFault;

fn put_ell_fault<P: Paper>(paper: &mut P, fault: EllFault)
    ensures { Puts P.takes paper.old (ell_fault_text fault) paper.new }
{
    match fault {
        EllFault::Truncated(have) => put_labelled(paper, "ell truncated ", have as u64),
        EllFault::Kind(ci) => put_labelled_bytes(paper, "ell kind ", &[ci]),
    }
}

fn put_afl_fault<P: Paper>(paper: &mut P, fault: AflFault)
    ensures { Puts P.takes paper.old (afl_fault_text fault) paper.new }
{
    match fault {
        AflFault::Truncated(have) => put_labelled(paper, "afl truncated ", have as u64),
        AflFault::AflLength { said, fields } => {
            put_labelled_two(paper, "afl length ", u64::from(said), u64::from(fields))
        }
        AflFault::FieldPlace(fcl) => put_labelled_bytes(paper, "afl place ", &fcl.to_be_bytes()),
        AflFault::FidZero => put_text(paper, "afl fidzero"),
    }
}

fn put_tpl_fault<P: Paper>(paper: &mut P, fault: TplFault)
    ensures { Puts P.takes paper.old (tpl_fault_text fault) paper.new }
{
    match fault {
        TplFault::Truncated(have) => put_labelled(paper, " truncated ", have as u64),
        TplFault::Unbuilt(ci) => put_labelled_bytes(paper, " unbuilt ", &[ci]),
    }
}

/// A name, and behind it why the header of that name can't be read.
#[tactic(auto, unfolding(crate::specs::Faults::named_fault_text), using(paper::proofs::Calls::two_make))]
pub fn put_named_fault<P: Paper>(paper: &mut P, name: &str, fault: TplFault)
    ensures { Puts P.takes paper.old (named_fault_text name.now fault) paper.new }
{
    put_text(paper, name);
    put_tpl_fault(paper, fault);
}

/// Why a layer can't be read.
pub fn put_layer_fault<P: Paper>(paper: &mut P, fault: LayerFault)
    ensures { Puts P.takes paper.old (layer_fault_text fault) paper.new }
{
    match fault {
        LayerFault::Ell(fault) => put_ell_fault(paper, fault),
        LayerFault::Afl(fault) => put_afl_fault(paper, fault),
        LayerFault::Tpl(fault) => put_named_fault(paper, "tpl", fault),
    }
}
