//! The lines of a report.
ghost use Rattle.std.specs.Prelude.{◌≡◌, ◌==◌, ◌∷◌, position, [], MatchOption};
ghost use Rattle.std.specs.Iterator.{YieldsFirstBy, item_count};
ghost use Rattle.report_text.specs.Orders.{lines_in};

use memchr::memchr;
use std::marker::Model;

/// The place of the first newline.
#[tactic(auto, using(plain_text::proofs::Cuts::place_of_first))]
pub(crate) fn first_newline(text: &[u8]) -> Option<usize>
    ensures { result ≡ position (λ b. b == 10) text.now }
{
    memchr(b'\n', text)
}

// The bytes before the first newline and those behind it, or all bytes where there is no newline.
fn cut(text: &[u8]) -> (&[u8], Option<&[u8]>)
    ensures { MatchOption result.1
        (lines_in text.now ≡ result.0.now ∷ [])
        (λ rest. lines_in text.now ≡ result.0.now ∷ lines_in rest.now) }
{
    let Some(place) = first_newline(text) else {
        return (text, None);
    };
    let (line, rest) = text.split_at(place);
    let (_, below) = rest.split_at(1);
    (line, Some(below))
}

/// The lines of a report that are still to come: what stands between its newlines, a carriage return too.
#[derive(Drop)]
pub(crate) struct ReportLines<'a> {
    rest: Option<&'a [u8]>,
}

impl<'a> Model for ReportLines<'a> {
    ghost use Rattle.std.specs.Prelude.{List, ℕ};
    ghost use Rattle.audit_check_main.specs.Reading.{lines_left};

    ghost Value = { List (List ℕ) };

    ghost view = { λ l. lines_left l.rest };
}

impl<'a> ReportLines<'a> {
    ghost use Rattle.std.specs.Prelude.{◌≡◌};
    ghost use Rattle.report_text.specs.Orders.{lines_in};

    /// The lines of a text.
    pub(crate) fn of_text(text: &'a [u8]) -> Self
        ensures { result ≡ lines_in text.now }
    {
        ReportLines { rest: Some(text) }
    }
}

impl<'a> Iterator for ReportLines<'a> {
    type Item = &'a [u8];

    ghost next_gives = { YieldsFirstBy (λ x. x.now) (λ l. l) };

    ghost remaining = { item_count (λ l. l) };

    fn next(&mut self) -> Option<&'a [u8]> {
        let text = self.rest?;
        let (line, rest) = cut(text);
        self.rest = rest;
        Some(line)
    }
}
