//! A text that is compared with another one while it is printed.
ghost use Rattle.std.specs.Prelude.{◌≡◌, ◌≤◌, [], false, true, length, take, drop, slice_get};
ghost use Rattle.audit_check_main.specs.Comparing.{Compared, IsCommon, line_len};

use crate::report_lines::first_newline;
use paper::Paper;
use std::marker::Model;

// How many first bytes of two texts are the same.
fn common(text: &[u8], other: &[u8]) -> usize
    ensures { IsCommon result text.now other.now }
{
    let mut count = 0;
    'bytes: while count < text.len() && count < other.len() {
        if text[count] != other[count] {
            return count;
        }
        count += 1;
    }
    count
}

// How many bytes the first line has, with its newline: all, where there is no newline.
fn line_len(text: &[u8]) -> usize
    ensures len { result ≡ line_len text.now }
    ensures within { result ≤ length text.now }
{
    match first_newline(text) {
        None => text.len(),
        Some(place) => place + 1,
    }
}

/// A paper that keeps nothing of what is put on it but how far it is a given text.
#[derive(Drop)]
pub(crate) struct Comparing<'a> {
    text: &'a [u8],
    place: usize,
    differs: bool,
}

impl<'a> Model for Comparing<'a> {
    ghost use Rattle.std.specs.Prelude.{◌≤◌, length};
    ghost use Rattle.audit_check_main.specs.Comparing.{Compared};

    ghost Value = { Compared };

    ghost view = { λ c. record { text = c.text.now; place = c.place; differs = c.differs } };

    ghost invariant = { λ c. c.place ≤ length c.text.now };
}

impl<'a> Comparing<'a> {
    ghost use Rattle.std.specs.Prelude.{◌≡◌, ℕ, List, false, IfSome};
    ghost use Rattle.audit_check_main.specs.Auditing.{IsDifference};
    ghost use Rattle.audit_check_main.specs.Comparing.{IsSoFar, line_passed, settled};
    ghost use Rattle.audit_check_main.specs.Leaving.{line_at};

    /// Nothing is put yet.
    pub(crate) fn new(text: &'a [u8]) -> Comparing<'a>
        ensures { result ≡ record { text = text.now; place = 0; differs = false } }
    {
        Comparing {
            text,
            place: 0,
            differs: false,
        }
    }

    /// Passes over a line of the text, with which nothing is compared yet. What is put goes on behind it; the paper that is answered is for
    /// that line.
    pub(crate) fn pass_line(&mut self) -> Comparing<'a>
        ensures line { result ≡ self.old }
        ensures passed { self.new ≡ line_passed self.old }
    {
        let (_, rest) = self.text.split_at(self.place);
        let line = Comparing {
            text: self.text,
            place: self.place,
            differs: self.differs,
        };
        self.place += line_len(rest);
        line
    }

    /// Takes in what the line came to that was passed over, once it is put on its own paper: where it differs, that comes first.
    pub(crate) fn settle(&mut self, line: Comparing<'a>)
        ensures { self.new ≡ settled line.entry self.old }
    {
        if line.differs {
            *self = line;
        }
    }

    /// Whether the text differs from what was put, so that nothing that is put yet changes what is found.
    pub(crate) fn differs(&self) -> bool
        ensures { result ≡ self.now.differs }
    {
        self.differs
    }

    /// The first byte, from 0, at which the text differs from all that was put, if it does.
    pub(crate) fn difference(&self) -> Option<usize>
        ensures found { (put : List ℕ) → IsSoFar self.now put → IsDifference self.now.text put result }
        ensures place { IfSome result (λ place. place ≡ self.now.place) }
    {
        if self.differs {
            return Some(self.place);
        }
        if self.place < self.text.len() {
            return Some(self.place);
        }
        None
    }

    /// The line, from 1, of the byte up to which the text was found.
    pub(crate) fn line(&self) -> usize
        ensures { result ≡ line_at self.now.place self.now.text }
    {
        let (before, _) = self.text.split_at(self.place);
        before.iter().filter(|byte| **byte == b'\n').count() + 1
    }
}

impl<'a> Paper for Comparing<'a> {
    ghost use Rattle.audit_check_main.specs.Comparing.{Compares};

    ghost takes = { Compares };

    fn put(&mut self, bytes: &[u8]) {
        if self.differs {
            return;
        }
        let (_, rest) = self.text.split_at(self.place);
        let count = common(rest, bytes);
        self.place += count;
        self.differs = count < bytes.len();
    }
}
