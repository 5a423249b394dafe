//! Hearing the deliveries of a source.
ghost use Rattle.std.specs.Prelude.{◌≡◌, ◌≤◌, ◌+◌, ◌++◌, [], false, Err, IsTrue, OnOk, OnErr, IfOk, IfErr};
ghost use Rattle.aes_block.specs.Block.{IsBlock};
ghost use Rattle.line_reader.specs.Reader.{given};
ghost use Rattle.outer_io.specs.Faults.{Rose};
ghost use Rattle.outer_io.specs.Shown.{ReadFailed, LosesNothing, source_change};
ghost use Rattle.meter_side_main.specs.declared.session.DeliveriesEnd.{DeliveriesEnd};
ghost use Rattle.meter_side_main.specs.Lines.{last_by};
ghost use Rattle.meter_side_main.specs.Session.{EndsSo, HearsNext, HasAnswered};

use crate::lines::{Answer, hear_line};
use crate::listener::Listener;
use crate::text::Last;
use line_reader::{NextText, TextReader};
use meter_address::{Address, Commission};
use outer_io::Source;
use paper::{Paper, Printed};

/// How a source of deliveries ended.
#[derive(Clone, Copy)]
pub enum DeliveriesEnd {
    /// At its end.
    End,
    /// It goes on behind the most lines or bytes.
    Cut,
    /// A read failed.
    Fault,
}

// Hears the next line and answers what is answered to it, or how the lines end.
fn hear_next<S: Source>(
    tx: &mut TextReader<S>,
    listener: &mut Listener,
) -> Result<Answer, DeliveriesEnd>
    requires goes_on { tx.old.reader.done ≡ false }
    requires longest { tx.old.longest ≡ 582 }
    ensures longest { tx.new.longest ≡ 582 }
    ensures next { OnOk result ((tx.new.reader.done ≡ false) × (tx.new.reader.line ≡ tx.old.reader.line + 1)) }
    ensures few { tx.new.reader.line ≤ 131072 }
    ensures heard { IfOk result (λ answer. IsTrue S.tells →
        HearsNext listener.old (given S.taken tx.old.reader) (given S.taken tx.new.reader) answer) }
    ensures after { IfOk result (λ answer. listener.new ≡ record listener.old { last = last_by listener.old.last answer }) }
    ensures kept { OnErr result (listener.new ≡ listener.old) }
    ensures no_line { OnErr result (IsTrue S.tells → given S.taken tx.new.reader ≡ given S.taken tx.old.reader) }
    ensures ends { IfErr result (λ ended. IsTrue S.tells →
        EndsSo ended (S.taken tx.new.reader.source) (S.left tx.new.reader.source) (given S.taken tx.new.reader)) }
    ensures failed { result ≡ Err DeliveriesEnd.Fault → Rose (S.faults tx.old.reader.source) (S.faults tx.new.reader.source) }
    ensures later { S.faults tx.old.reader.source ≤ S.faults tx.new.reader.source }
    ensures bytes { IsTrue S.tells → S.taken tx.new.reader.source ++ S.left tx.new.reader.source
        ≡ S.taken tx.old.reader.source ++ S.left tx.old.reader.source }
{
    match tx.next() {
        Ok(NextText::Line) => Ok(hear_line(listener, tx.text())),
        Ok(NextText::TooLong) => Ok(Answer::Bad),
        Ok(NextText::End) => Err(DeliveriesEnd::End),
        Ok(NextText::Cut) => Err(DeliveriesEnd::Cut),
        Err(_) => Err(DeliveriesEnd::Fault),
    }
}

// Hears the deliveries of a source for one meter, puts what is answered on a paper, and answers how the source ended.
pub(crate) fn hear_source<S: Source, P: Paper>(
    own: Address,
    commission: Commission,
    tx: &mut TextReader<S>,
    paper: &mut P,
) -> DeliveriesEnd
    requires fresh { tx.old.reader.line ≡ 0 }
    requires goes_on { tx.old.reader.done ≡ false }
    requires longest { tx.old.longest ≡ 582 }
    ensures told { HasAnswered P.takes S.tells own commission paper.old (given S.taken tx.new.reader) paper.new }
    ensures ends { IsTrue S.tells →
        EndsSo result (S.taken tx.new.reader.source) (S.left tx.new.reader.source) (given S.taken tx.new.reader) }
    ensures failed { result ≡ DeliveriesEnd.Fault → ReadFailed (source_change S.Source tx.old.reader.source tx.new.reader.source) }
    ensures key { IsBlock commission.key }
    ensures no_loss { IsTrue S.tells → LosesNothing (source_change S.Source tx.old.reader.source tx.new.reader.source) }
{
    let mut listener = Listener::new(own, commission);
    'lines: loop {
        match hear_next(tx, &mut listener) {
            Ok(answer) => answer.print(paper),
            Err(ended) => {
                Last(listener.last()).print(paper);
                return ended;
            }
        }
    }
}
