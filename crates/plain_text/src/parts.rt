//! A text in parts: its lines, and the fields of a line.
ghost use Rattle.std.specs.Prelude.{◌≡◌, ◌==◌, position, MatchOption};
ghost use Rattle.std.specs.Str.Lines.{strip_carriage_return};
ghost use Rattle.std.specs.Iterator.{YieldsFirstBy, item_count};
ghost use Rattle.plain_text.specs.Cuts.{IsLastPart, IsNextPart};

use memchr::memchr;
use std::marker::Model;

/// The place of the first separator, counted in bytes from 0; none where the text has none.
#[tactic(auto, using(crate::proofs::Cuts::place_of_first))]
pub fn first_place(text: &[u8], separator: u8) -> Option<usize>
    ensures { result ≡ position (λ b. b == separator) text.now }
{
    memchr(separator, text)
}

// The part before the first separator and what stands behind it, or the whole text where there is no separator.
fn cut(text: &[u8], separator: u8) -> (&[u8], Option<&[u8]>)
    ensures { MatchOption result.1
        (IsLastPart separator text.now result.0.now)
        (λ rest. IsNextPart separator text.now result.0.now rest.now) }
{
    let Some(place) = first_place(text, separator) else {
        return (text, None);
    };
    let (part, rest) = text.split_at(place);
    let (_, after) = rest.split_at(1);
    (part, Some(after))
}

/// The fields of a line that are still to come; between two of them stands exactly one space.
#[derive(Drop)]
pub struct Fields<'a> {
    rest: Option<&'a [u8]>,
}

impl<'a> Model for Fields<'a> {
    ghost use Rattle.std.specs.Prelude.{List, ℕ};
    ghost use Rattle.plain_text.specs.Parts.{fields_left};

    ghost Value = { List (List ℕ) };

    ghost view = { λ f. fields_left f.rest };
}

impl<'a> Fields<'a> {
    ghost use Rattle.std.specs.Prelude.{◌≡◌, ◌≤◌, length};
    ghost use Rattle.std.specs.List.{AllByRecursion};
    ghost use Rattle.plain_text.specs.Parts.{fields_of};

    /// The fields of a line: one more than it has spaces, so that some may be empty.
    pub fn of_line(line: &'a [u8]) -> Self
        ensures fields { result ≡ fields_of line.now }
        ensures within { AllByRecursion (λ field. length field ≤ length line.now) result }
    {
        Fields { rest: Some(line) }
    }
}

impl<'a> Iterator for Fields<'a> {
    type Item = &'a [u8];

    ghost next_gives = { YieldsFirstBy (λ x. x.now) (λ f. f) };

    ghost remaining = { item_count (λ f. f) };

    fn next(&mut self) -> Option<&'a [u8]> {
        let line = self.rest?;
        let (field, rest) = cut(line, b' ');
        self.rest = rest;
        Some(field)
    }
}

/// The lines of a text that are still to come.
///
/// A line ends with a newline, or at the end of the text if it isn't empty there. One carriage return before the newline is
/// dropped.
#[derive(Drop)]
pub struct TextLines<'a> {
    rest: &'a [u8],
}

impl<'a> Model for TextLines<'a> {
    ghost use Rattle.std.specs.Prelude.{List, ℕ};
    ghost use Rattle.std.specs.Str.Lines.{lines};

    ghost Value = { List (List ℕ) };

    ghost view = { λ t. lines t.rest.now };
}

impl<'a> TextLines<'a> {
    ghost use Rattle.std.specs.Prelude.{◌≡◌, ◌+◌, ◌≤◌, length};
    ghost use Rattle.std.specs.Str.Lines.{lines};

    /// The lines of a text.
    pub fn of_text(text: &'a [u8]) -> Self
        ensures lines { result ≡ lines text.now }
        ensures few { length result ≤ length text.now + 1 }
    {
        TextLines { rest: text }
    }
}

// A line without the one carriage return at its end, if it has one.
fn without_return(line: &[u8]) -> &[u8]
    ensures { result.now ≡ strip_carriage_return line.now }
{
    match line {
        [front @ .., b'\r'] => front,
        _ => line,
    }
}

impl<'a> Iterator for TextLines<'a> {
    type Item = &'a [u8];

    ghost next_gives = { YieldsFirstBy (λ x. x.now) (λ t. t) };

    ghost remaining = { item_count (λ t. t) };

    fn next(&mut self) -> Option<&'a [u8]> {
        let text = self.rest;
        if text.is_empty() {
            return None;
        }
        let (line, rest) = cut(text, b'\n');
        match rest {
            None => {
                self.rest = &[];
                Some(line)
            }
            Some(rest) => {
                self.rest = rest;
                Some(without_return(line))
            }
        }
    }
}
