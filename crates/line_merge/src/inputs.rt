//! The next line of an input.
ghost use Rattle.std.specs.Prelude.{◌≡◌, ◌≤◌, IsTrue, IfOk, IfErr};
ghost use Rattle.line_merge.specs.Readers.{IsReading, HasGiven};
ghost use Rattle.line_merge.specs.Run.{HasFault, bytes_of, input_shown};

use crate::choice::moment_of;
use crate::lines::moment_in;
use crate::status::InputFault;
use line_reader::{NextText, TextReader};
use outer_io::Source;

/// The most bytes of a line that is passed on, without its end.
pub const LINE_LONGEST: usize = 15_359;

// Takes an input's next line, behind one that stands at the moment `before`. Answers the moment at which it stands, or none at the
// input's end.
pub(crate) fn next_head<S: Source>(
    input: &mut TextReader<S>,
    before: u64,
) -> Result<Option<u64>, InputFault>
    requires reading { IsReading S.Source input.old }
    ensures given { IfOk result (λ head. HasGiven S.Source before input.old input.new head) }
    ensures fault { IfErr result (λ fault. HasFault S.tells fault (input_shown S.Source input.old input.new)) }
    ensures later { S.faults input.old.reader.source ≤ S.faults input.new.reader.source }
    ensures bytes { IsTrue S.tells → bytes_of S.Source input.new ≡ bytes_of S.Source input.old }
{
    match input.next() {
        Ok(NextText::Line) => Ok(Some(moment_of(before, moment_in(input.text())))),
        Ok(NextText::TooLong) => Err(InputFault::Long),
        Ok(NextText::End) => Ok(None),
        Ok(NextText::Cut) => Err(InputFault::Cut),
        Err(_) => Err(InputFault::Read),
    }
}
