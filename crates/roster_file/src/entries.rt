//! The lines of a roster that count: neither empty nor comments.
ghost use Rattle.std.specs.Prelude.{◌≡◌};
ghost use Rattle.roster_file.specs.Roster.{is_passed_over};

use plain_text::TextLines;
use std::marker::Model;

/// A line that counts, with its number.
#[derive(Clone, Copy)]
pub struct Entry<'a> {
    /// Its number.
    pub line: u32,
    /// Its bytes.
    pub text: &'a [u8],
}

/// The lines that are still to come.
#[derive(Drop)]
pub struct Entries<'a> {
    lines: TextLines<'a>,
    line: u32,
}

impl<'a> Model for Entries<'a> {
    ghost use Rattle.std.specs.Prelude.{◌+◌, ◌<◌, ◌^◌, length};
    ghost use Rattle.roster_file.specs.Roster.{Unread, entries_from};

    ghost Value = { Unread };

    ghost view = { λ e. record { entries = entries_from (e.line + 1) e.lines; end = e.line + length e.lines + 1 } };

    ghost invariant = { λ e. e.line + length e.lines + 1 < 2 ^ 32 };
}

impl<'a> Entries<'a> {
    ghost use Rattle.std.specs.Prelude.{◌≡◌, ◌∷◌, ◌+◌, ◌≤◌, ◌^◌, [], length, MatchResult};
    ghost use Rattle.std.specs.Str.Lines.{lines};
    ghost use Rattle.roster_file.specs.Roster.{entries_from};

    /// The lines of a text that count.
    pub fn of_text(text: &'a [u8]) -> Self
        requires { length text.now ≤ 2 ^ 27 }
        ensures { result ≡ record { entries = entries_from 1 (lines text.now); end = length (lines text.now) + 1 } }
    {
        Entries {
            lines: TextLines::of_text(text),
            line: 0,
        }
    }

    /// The next line that counts, or the number after that of the text's last line.
    pub fn next(&mut self) -> Result<Entry<'a>, u32>
        ensures entry { MatchResult result
            (λ e. self.old.entries ≡ (e.line, e.text.now) ∷ self.new.entries)
            (λ end. (self.old.entries ≡ []) × (end ≡ self.old.end)) }
        ensures end { self.new.end ≡ self.old.end }
    {
        while let Some(text) = self.lines.next() {
            self.line += 1;
            if !is_comment_or_empty(text) {
                return Ok(Entry {
                    line: self.line,
                    text,
                });
            }
        }
        Err(self.line + 1)
    }
}

fn is_comment_or_empty(text: &[u8]) -> bool
    ensures { result ≡ is_passed_over text.now }
{
    match text {
        [] => true,
        [first, ..] => *first == b'#',
    }
}
