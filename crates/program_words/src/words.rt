//! The words of the command line.

use std::env::{self, Env};
use std::io::{self, ErrorKind};

/// Why the words can't be had.
#[derive(Clone, Copy)]
pub enum NoWords {
    /// There is no memory for them.
    Memory,
    /// One of them isn't UTF-8.
    NotText,
}

// What the error means of the words.
fn reason(error: &io::Error) -> NoWords {
    if error.kind() == ErrorKind::OutOfMemory {
        NoWords::Memory
    } else {
        NoWords::NotText
    }
}

/// The words behind the program's name. No contract knows what the operating system says that they are.
pub fn command_words<R: Env + AllocGlobal>(rt: &R) -> Result<Vec<String>, NoWords> {
    let args = match env::args(rt) {
        Ok(args) => args,
        Err(error) => return Err(reason(&error)),
    };
    match args.skip(1).collect::<Vec<String>>(rt.alloc()) {
        Ok(command) => Ok(command),
        Err(_) => Err(NoWords::Memory),
    }
}
