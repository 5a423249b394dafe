//! What a receiver heard.
ghost use Rattle.std.specs.Prelude.{◌≡◌, map, length, IfOk};
ghost use Rattle.std.specs.Str.Lines.{lines};
ghost use Rattle.line_reader.specs.Lines.{is_over};
ghost use Rattle.receivers.specs.Told.{told_of};

use crate::kept::ToldLines;
use crate::whose::Whose;
use line_reader::{BYTES_MAX, LINES_MAX};
use outer_io::Memory;
use plain_text::TextLines;
use receivers::Told;
use std::alloc::Global;
use std::marker::Model;
use std::snapshot::Snapshot;

/// The bytes that a receiver heard: what each of their lines told is held, and not the bytes.
#[derive(Drop)]
pub struct Input {
    text: Snapshot<Vec<u8>>,
    over: bool,
    told: ToldLines,
}

// A contract sees the bytes.
impl Model for Input {
    ghost use Rattle.std.specs.Prelude.{List, ℕ};
    ghost use Rattle.audit_check_main.specs.Taken.{IsTakenIn};

    ghost Value = { List ℕ };

    ghost view = { λ i. i.text.value.items };

    ghost invariant = { λ i. IsTakenIn i.text.value.items i.over i.told };
}

// How many lines a text has.
fn count_of(text: &[u8]) -> usize
    ensures { result ≡ length (lines text.now) }
{
    TextLines::of_text(text).count()
}

// Whether a text with so many lines goes past the limits of a receiver.
#[tactic(auto, unfolding(line_reader::specs::Lines::is_over))]
fn is_over(text: &[u8], count: usize) -> bool
    requires { count ≡ length (lines text.now) }
    ensures { result ≡ is_over text.now }
{
    text.len() > BYTES_MAX || count > LINES_MAX as usize
}

// What the lines of a text tell, which are so many, but that is no more than a hint. All but a short one tell at most half of their bytes.
fn told_lines(alloc: Global, text: &[u8], count: usize) -> Result<ToldLines, Memory>
    ensures { IfOk result (λ told. told ≡ map told_of (lines text.now)) }
{
    let mut told = ToldLines::with_room(alloc, count, text.len() / 2)?;
    let mut texts = TextLines::of_text(text);
    'lines: while let Some(line) = texts.next() {
        told.add_text(line)?;
    }
    Ok(told)
}

impl Input {
    ghost use Rattle.std.specs.Prelude.{◌≡◌, false, length, slice_get, IfOk};
    ghost use Rattle.std.specs.Str.Lines.{lines};
    ghost use Rattle.line_reader.specs.Lines.{is_over};
    ghost use Rattle.audit_check_main.specs.Hearing.{told_by_text, whose_told};

    /// The input of these bytes.
    pub fn new(alloc: Global, bytes: Vec<u8>) -> Result<Input, Memory>
        ensures { IfOk result (λ input. input ≡ bytes.items) }
    {
        Input::of(alloc, &bytes)
    }

    /// The input of these bytes, which are lent.
    pub(crate) fn of(alloc: Global, bytes: &Vec<u8>) -> Result<Input, Memory>
        ensures { IfOk result (λ input. input ≡ bytes.now.items) }
    {
        let text = Snapshot::of(bytes);
        let count = count_of(bytes.as_slice());
        let over = is_over(bytes.as_slice(), count);
        let told = if over {
            ToldLines::with_room(alloc, 0, 0)?
        } else {
            told_lines(alloc, bytes.as_slice(), count)?
        };
        Ok(Input { text, over, told })
    }

    /// Whether it goes past the limits of a receiver.
    pub(crate) fn is_over(&self) -> bool
        ensures { result ≡ is_over self.now }
    {
        self.over
    }

    /// How many lines it has, within the limits.
    pub(crate) fn line_count(&self) -> usize
        requires { is_over self.now ≡ false }
        ensures { result ≡ length (lines self.now) }
    {
        self.told.count()
    }

    /// Whose the line at a place is, within the limits; places are counted from 0.
    pub(crate) fn whose_at(&self, place: usize) -> Whose
        requires { is_over self.now ≡ false }
        ensures { result ≡ whose_told (told_by_text (slice_get (lines self.now) place)) }
    {
        self.told.whose(place).unwrap_or(Whose::Bad)
    }

    /// What the line at a place tells, within the limits; places are counted from 0.
    pub(crate) fn told_at(&self, place: usize) -> Told
        requires { is_over self.now ≡ false }
        ensures { result ≡ told_by_text (slice_get (lines self.now) place) }
    {
        self.told.at(place).unwrap_or(Told::Bad)
    }
}
