//! A line that is answered, below those before it.
ghost use Rattle.std.specs.Prelude.{◌≡◌};
ghost use Rattle.paper.specs.Puts.{Puts};

use crate::delivery::read_delivery;
use crate::senders::Senders;
use crate::texts::put_answer;
use line_teller::{Sheet, Teller};
use outer_io::Memory;
use paper::put_text;
use std::alloc::Global;
use std::marker::Model;

/// The senders between two lines.
#[derive(Drop)]
pub(crate) struct Accepting {
    pub(crate) senders: Senders,
}

impl Model for Accepting {
    ghost use Rattle.std.specs.Prelude.{List};
    ghost use Rattle.line_accept.specs.Senders.{Sender};

    ghost Value = { List Sender };

    ghost view = { λ a. a.senders };
}

impl Teller for Accepting {
    ghost use Rattle.line_accept.specs.Answers.{AcceptsLine};

    ghost longest = { 96 };

    ghost tells = { AcceptsLine };

    fn tell(
        &mut self,
        _alloc: Global,
        _number: u32,
        line: &[u8],
        text: &mut Sheet,
        _note: &mut Sheet,
    ) -> Result<(), Memory> {
        match read_delivery(line) {
            Some(delivery) => {
                let answer = self.senders.accept(delivery.name, &delivery.message);
                put_answer(text, answer);
                Ok(())
            }
            None => {
                put_text(text, "bad\n");
                Ok(())
            }
        }
    }

    fn tell_long(&mut self, _number: u32, text: &mut Sheet, _note: &mut Sheet) {
        put_text(text, "bad\n");
    }
}
