//! The texts of a program's own: its help and its version.
ghost use Rattle.std.specs.Prelude.{◌≡◌, map};
ghost use Rattle.std.specs.String.{string_bytes};
ghost use Rattle.std.specs.Process.{exit_status};
ghost use Rattle.program_words.specs.OwnTexts.{own_text, IsTold};

use crate::end;
use std::fmt::Display;
use std::process::ExitCode;

/// A text of a program's own.
#[derive(Clone, Copy)]
pub enum OwnText {
    /// What the program does, its words and its exit statuses.
    Help,
    /// The program's name and version.
    Version,
}

impl OwnText {
    ghost use Rattle.program_words.specs.OwnTexts.{text_of};

    /// The one of the two texts that this asks for.
    pub fn text<'a>(self, help: &'a str, version: &'a str) -> &'a str
        ensures { result.now ≡ text_of self help.now version.now }
    {
        match self {
            OwnText::Help => help,
            OwnText::Version => version,
        }
    }
}

/// The text of the program's own that the words behind the program's name ask for, where they ask for one: `--help` or
/// `--version` as the only word.
pub fn own_text(command: &[String]) -> Option<OwnText>
    ensures { result ≡ own_text (map string_bytes command.now) }
{
    let [word] = command else {
        return None;
    };
    if word.as_str() == "--help" {
        return Some(OwnText::Help);
    }
    if word.as_str() == "--version" {
        return Some(OwnText::Version);
    }
    None
}

/// Prints a text on the standard output and ends with status 0, or, where it can't be written, with the status `unwritten`,
/// after saying so.
pub fn tell<R: Print + Eprint, D: Display + Drop>(
    rt: &R,
    text: &str,
    unwritten: u8,
    said: D,
) -> ExitCode
    ensures { IsTold unwritten (exit_status result) }
{
    match rt.print(text) {
        Ok(()) => ExitCode::SUCCESS,
        Err(_) => end(rt, unwritten, said),
    }
}
