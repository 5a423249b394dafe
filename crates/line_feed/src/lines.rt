//! A line of a receiver, by its format.
ghost use Rattle.line_feed.specs.Heard.{Means};
ghost use Rattle.line_feed.specs.Lines.{heard_of};

use crate::cul::read_cul;
use crate::heard::{Reception, Unheard, said};
use crate::hex_lines::read_hex;
use crate::printings::Printing;
use crate::reasons::NotTaken;
use crate::rtl_433::read_rtl_433;
use crate::rtl_wmbus::read_rtl_wmbus;
use std::alloc::Global;

/// The most bytes of a line that is looked at, without its end.
pub const LINE_MAX: usize = 4_096;

/// What a line in this format gives, which is given without its end.
pub fn read_line(alloc: Global, printing: Printing, line: &[u8]) -> Result<Reception, Unheard>
    ensures { Means result (heard_of printing line.now) }
{
    if line.len() > LINE_MAX {
        return Err(Unheard::Refused(NotTaken::TooLong));
    }
    match printing {
        Printing::Cul => said(read_cul(line)),
        Printing::RtlWmbus => said(read_rtl_wmbus(line)),
        Printing::Rtl433 => read_rtl_433(alloc, line),
        Printing::Hex => read_hex(alloc, line),
    }
}
