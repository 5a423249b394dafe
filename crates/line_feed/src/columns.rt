//! The columns of a line.
ghost use Rattle.std.specs.Prelude.{◌≡◌, MatchOption};
ghost use Rattle.std.specs.Iterator.{YieldsFirstBy, item_count};
ghost use Rattle.plain_text.specs.Cuts.{IsLastPart, IsNextPart};

use plain_text::first_place;
use std::marker::Model;

// The column in front of the first semicolon and what stands behind that, or the whole text where there is no semicolon.
fn first_column(text: &[u8]) -> (&[u8], Option<&[u8]>)
    ensures { MatchOption result.1
        (IsLastPart 59 text.now result.0.now)
        (λ rest. IsNextPart 59 text.now result.0.now rest.now) }
{
    let Some(place) = first_place(text, b';') else {
        return (text, None);
    };
    let (column, rest) = text.split_at(place);
    let (_, behind) = rest.split_at(1);
    (column, Some(behind))
}

/// The columns of a line that are still to come; between two of them stands a semicolon.
#[derive(Drop)]
pub(crate) struct Columns<'a> {
    rest: Option<&'a [u8]>,
}

impl<'a> Model for Columns<'a> {
    ghost use Rattle.std.specs.Prelude.{List, ℕ};
    ghost use Rattle.line_feed.specs.Columns.{columns_left};

    ghost Value = { List (List ℕ) };

    ghost view = { λ c. columns_left c.rest };
}

impl<'a> Columns<'a> {
    ghost use Rattle.std.specs.Prelude.{◌≡◌};
    ghost use Rattle.line_feed.specs.Columns.{columns_of};

    /// The columns of a line.
    pub(crate) fn of_line(line: &'a [u8]) -> Self
        ensures { result ≡ columns_of line.now }
    {
        Columns { rest: Some(line) }
    }
}

impl<'a> Iterator for Columns<'a> {
    type Item = &'a [u8];

    ghost next_gives = { YieldsFirstBy (λ x. x.now) (λ c. c) };

    ghost remaining = { item_count (λ c. c) };

    fn next(&mut self) -> Option<&'a [u8]> {
        let line = self.rest?;
        let (column, rest) = first_column(line);
        self.rest = rest;
        Some(column)
    }
}
