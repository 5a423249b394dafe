//! The standard error as a sink.
#![tactic(auto)]

ghost use Rattle.std.specs.Prelude.{◌≡◌, ◌<◌, ◌≤◌, false, [], length, IfOk, OnErr};
ghost use Rattle.outer_io.specs.Faults.{Rose};

use outer_io::{Failed, Sink};
use std::io::{ErrorKind, Stderr, Write};

/// The standard error. A write that a signal interrupts is made again; each other error counts as a fault, and so does a write
/// that takes nothing. What it really takes is trusted, and shown by tests alone.
#[derive(Drop)]
pub struct ErrorSink {
    stderr: Stderr,
    faults: u64,
}

impl ErrorSink {
    /// A sink over the standard error.
    pub fn new(stderr: Stderr) -> ErrorSink {
        ErrorSink { stderr, faults: 0 }
    }
}

// How many bytes were written, none where the write failed.
fn write_once(stderr: &mut Stderr, bytes: &[u8]) -> usize
    ensures { result ≤ length bytes.now }
{
    for _ in 0..u64::MAX {
        match stderr.write(bytes) {
            Ok(count) => return count,
            Err(error) => {
                if error.kind() != ErrorKind::Interrupted {
                    return 0;
                }
            }
        }
    }
    0
}

impl Sink for ErrorSink {
    ghost tells = { false };

    ghost written = { λ _. [] };

    ghost faults = { λ s. s.faults };

    fn write(&mut self, bytes: &[u8]) -> Result<usize, Failed>
        requires { 0 < length bytes.now }
        ensures some { IfOk result (λ n. (0 < n) × (n ≤ length bytes.now)) }
        ensures later { self.old.faults ≤ self.new.faults }
        ensures cause { OnErr result (Rose self.old.faults self.new.faults) }
    {
        let count = write_once(&mut self.stderr, bytes);
        if count == 0 {
            self.faults = self.faults.saturating_add(1);
            return Err(Failed);
        }
        Ok(count)
    }
}
