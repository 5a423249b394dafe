//! What a person most often did wrong, though each line by itself may be right.
ghost use Rattle.std.specs.Prelude.{◌≡◌, ◌≤◌, ◌++◌, Err, IsTrue, OnOk, OnErr};
ghost use Rattle.paper.specs.Puts.{Puts};
ghost use Rattle.outer_io.specs.Bytes.{AppendsFront};
ghost use Rattle.outer_io.specs.Shown.{WriteFailed, sink_change};
ghost use Rattle.input_check.specs.declared.states.Stop.{Stop};
ghost use Rattle.meter_label.specs.Label.{label_of};
ghost use Rattle.input_check.specs.Hints.{turned_text, shared_text, hint_text, name_text, name_text_if, note_text, notes_text};

use crate::pieces::put_between;
use crate::states::Stop;
use meter_address::Address;
use meter_label::{Label, device_type_word, put_label};
use outer_io::Sink;
use paper::{Paper, Printed, put_hex, put_text, write};

/// What is to be said of a meter.
#[derive(Clone, Copy)]
pub enum Hint {
    /// Its key is sixteen equal bytes.
    EqualBytes,
    /// This other meter has its key.
    SharedKey(Address),
    /// It was not heard.
    Unheard,
    /// It was not heard, but this address was, or another meter has it: its own bytes turned round.
    Turned(Address),
    /// It is not in the roster, and was heard so often.
    Stranger(u64),
}

/// A meter and what is to be said of it.
#[derive(Clone, Copy)]
pub struct Note {
    /// The meter.
    pub address: Address,
    /// What is to be said of it.
    pub hint: Hint,
}

#[tactic(auto, unfolding(crate::specs::Hints::turned_text), using(paper::proofs::Calls::three_make))]
fn put_turned<P: Paper>(paper: &mut P, turned: Address)
    ensures { Puts P.takes paper.old (turned_text turned) paper.new }
{
    put_text(
        paper,
        "it was not heard, but with its bytes turned round it is ",
    );
    put_hex(paper, &turned.to_bytes());
    put_text(
        paper,
        ", which was heard or stands in the roster: write that in its place?",
    );
}

#[tactic(auto, unfolding(crate::specs::Hints::shared_text), using(paper::proofs::Calls::three_make))]
fn put_shared<P: Paper>(paper: &mut P, other: Address)
    ensures { Puts P.takes paper.old (shared_text other) paper.new }
{
    put_text(paper, "it has the same key as meter ");
    put_hex(paper, &other.to_bytes());
    put_text(paper, ": one of the two may have been copied wrongly");
}

fn put_hint<P: Paper>(paper: &mut P, hint: Hint)
    ensures { Puts P.takes paper.old (hint_text hint) paper.new }
{
    match hint {
        Hint::EqualBytes => put_text(
            paper,
            "its key is sixteen equal bytes: ask the maker for the right one",
        ),
        Hint::SharedKey(other) => put_shared(paper, other),
        Hint::Unheard => put_text(
            paper,
            "it was not heard: is it in reach, and is its address that of the label (meter_name)?",
        ),
        Hint::Turned(turned) => put_turned(paper, turned),
        Hint::Stranger(count) => put_between(
            paper,
            "it is not in the roster, and was heard ",
            count,
            " times",
        ),
    }
}

#[tactic(auto, unfolding(crate::specs::Hints::name_text), using(paper::proofs::Calls::five_make))]
fn put_name<P: Paper>(paper: &mut P, label: &Label)
    ensures { Puts P.takes paper.old (name_text label.now) paper.new }
{
    put_text(paper, " (");
    put_label(paper, label);
    put_text(paper, " ");
    put_text(paper, device_type_word(label.kind));
    put_text(paper, ")");
}

// Puts what stands on a meter's label, where the address has one.
#[tactic(auto, using(paper::proofs::Calls::none))]
fn put_name_if<P: Paper>(paper: &mut P, label: Option<Label>)
    ensures { Puts P.takes paper.old (name_text_if label) paper.new }
{
    match label {
        None => {}
        Some(label) => put_name(paper, &label),
    }
}

#[tactic(auto, unfolding(crate::specs::Hints::note_text), using(paper::proofs::Calls::six_make))]
fn put_note<P: Paper>(paper: &mut P, note: &Note)
    ensures { Puts P.takes paper.old (note_text note.now) paper.new }
{
    put_text(paper, "meter ");
    put_hex(paper, &note.address.to_bytes());
    put_name_if(paper, Label::of_address(note.address));
    put_text(paper, ": ");
    put_hint(paper, note.hint);
    put_text(paper, "\n");
}

#[tactic(auto, using(paper::proofs::Calls::none))]
fn put_notes<P: Paper>(paper: &mut P, notes: &[Note])
    ensures { Puts P.takes paper.old (notes_text notes.now) paper.new }
{
    for note in notes {
        put_note(paper, note);
    }
}

// Notes, to be printed.
#[derive(Drop)]
struct Notes<'a> {
    notes: &'a [Note],
}

impl Printed for Notes<'_> {
    ghost text = { λ n. notes_text n.notes.now };

    fn print<P: Paper>(&self, paper: &mut P) {
        put_notes(paper, self.notes);
    }
}

/// Prints notes, a line each. `Write` comes only where a write failed, and leaves a front of them.
pub fn print_notes<K: Sink>(notes: &[Note], out: &mut K) -> Result<(), Stop>
    ensures printed { OnOk result (IsTrue K.tells → K.written out.new ≡ K.written out.old ++ notes_text notes.now) }
    ensures write { (stop : Stop) → result ≡ Err stop → (stop ≡ Stop.Write) × WriteFailed (sink_change K.Sink out.old out.new) }
    ensures front { OnErr result (IsTrue K.tells → AppendsFront (notes_text notes.now) (K.written out.old) (K.written out.new)) }
    ensures later { K.faults out.old ≤ K.faults out.new }
{
    match write(out, &Notes { notes }) {
        Ok(()) => Ok(()),
        Err(_) => Err(Stop::Write),
    }
}
