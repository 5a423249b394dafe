//! Sources and sinks over std's readers and writers: thin adapters that count the errors and tell no bytes. What a file, the
//! standard input or the standard output really gives and takes is trusted, and shown by tests alone.
ghost use Rattle.std.specs.Prelude.{◌≡◌, ◌<◌, ◌≤◌, ℕ, false, [], length, Ok, Some, IfSome, IfOk, OnOk, OnErr};
ghost use Rattle.outer_io.specs.Faults.{Rose, next_count};
ghost use Rattle.outer_io.specs.Standard.{OverNothing, input_stream, output_stream};

use crate::retrying::{read_retrying, write_retrying};
use crate::{Failed, Sink, Source};
use std::fs::File;
use std::io::{Stdin, Stdout};
use std::marker::Model;

#[derive(Drop)]
enum Input {
    File(File),
    Standard(Stdin),
    Nothing,
}

// How many bytes were read, or none where the read failed.
fn read_once(input: &mut Input, into: &mut [u8]) -> Option<usize>
    ensures count { IfSome result (λ n. n ≤ length into.old) }
    ensures nothing { input_stream input.old ≡ OverNothing → result ≡ Some 0 }
    ensures same_stream { input_stream input.new ≡ input_stream input.old }
{
    match input {
        Input::File(file) => read_retrying(file, into),
        Input::Standard(stdin) => read_retrying(stdin, into),
        Input::Nothing => Some(0),
    }
}

/// A file or the standard input, or nothing, which is at its end from the start. A read that a signal interrupts is made
/// again; each other error counts as a fault.
#[derive(Drop)]
pub struct StdSource {
    input: Input,
    faults: u64,
}

impl Model for StdSource {
    ghost use Rattle.outer_io.specs.Standard.{StreamState, input_stream};

    ghost Value = { StreamState };

    ghost view = { λ s. record { stream = input_stream s.input; faults = s.faults } };
}

impl StdSource {
    ghost use Rattle.outer_io.specs.Standard.{OverFile, OverStandard, OverNothing};

    /// The bytes of a file that is open for reading.
    pub fn file(file: File) -> StdSource
        ensures { result ≡ record { stream = OverFile; faults = 0 } }
    {
        StdSource {
            input: Input::File(file),
            faults: 0,
        }
    }

    /// The standard input.
    pub fn standard(stdin: Stdin) -> StdSource
        ensures { result ≡ record { stream = OverStandard; faults = 0 } }
    {
        StdSource {
            input: Input::Standard(stdin),
            faults: 0,
        }
    }

    /// No byte at all.
    pub fn nothing() -> StdSource
        ensures { result ≡ record { stream = OverNothing; faults = 0 } }
    {
        StdSource {
            input: Input::Nothing,
            faults: 0,
        }
    }
}

impl Source for StdSource {
    ghost use Rattle.outer_io.specs.Standard.{OverNothing};

    ghost tells = { false };

    ghost taken = { λ _. [] };

    ghost left = { λ _. [] };

    ghost faults = { λ s. s.faults };

    fn read(&mut self, into: &mut [u8]) -> Result<usize, Failed>
        requires { 0 < length into.old }

        // As every source does.
        ensures room { IfOk result (λ n. n ≤ length into.old) }
        ensures later { self.old.faults ≤ self.new.faults }
        ensures cause { OnErr result (Rose self.old.faults self.new.faults) }

        // Each error counts, and nothing is at its end.
        ensures nothing { self.old.stream ≡ OverNothing → result ≡ Ok 0 }
        ensures same_stream { self.new.stream ≡ self.old.stream }
        ensures faultless { OnOk result (self.new.faults ≡ self.old.faults) }
        ensures one_fault { OnErr result (self.new.faults ≡ next_count self.old.faults) }
    {
        match read_once(&mut self.input, into) {
            Some(count) => Ok(count),
            None => {
                self.faults = self.faults.saturating_add(1);
                Err(Failed)
            }
        }
    }
}

#[derive(Drop)]
enum Output {
    File(File),
    Standard(Stdout),
    Nothing,
}

// How many bytes were written, none where the write failed.
fn write_once(output: &mut Output, bytes: &[u8]) -> usize
    ensures count { result ≤ length bytes.now }
    ensures nothing { output_stream output.old ≡ OverNothing → result ≡ length bytes.now }
    ensures same_stream { output_stream output.new ≡ output_stream output.old }
{
    match output {
        Output::File(file) => write_retrying(file, bytes),
        Output::Standard(stdout) => write_retrying(stdout, bytes),
        Output::Nothing => bytes.len(),
    }
}

/// A file or the standard output, or nothing, which takes all bytes and keeps none. A write that a signal interrupts is
/// made again; each other error counts as a fault, and so does a write that takes nothing.
#[derive(Drop)]
pub struct StdSink {
    output: Output,
    faults: u64,
}

impl Model for StdSink {
    ghost use Rattle.outer_io.specs.Standard.{StreamState, output_stream};

    ghost Value = { StreamState };

    ghost view = { λ s. record { stream = output_stream s.output; faults = s.faults } };
}

impl StdSink {
    ghost use Rattle.outer_io.specs.Standard.{OverFile, OverStandard, OverNothing};

    /// A file that is open for writing.
    pub fn file(file: File) -> StdSink
        ensures { result ≡ record { stream = OverFile; faults = 0 } }
    {
        StdSink {
            output: Output::File(file),
            faults: 0,
        }
    }

    /// The standard output.
    pub fn standard(stdout: Stdout) -> StdSink
        ensures { result ≡ record { stream = OverStandard; faults = 0 } }
    {
        StdSink {
            output: Output::Standard(stdout),
            faults: 0,
        }
    }

    /// A sink that takes all bytes and keeps none.
    pub fn nothing() -> StdSink
        ensures { result ≡ record { stream = OverNothing; faults = 0 } }
    {
        StdSink {
            output: Output::Nothing,
            faults: 0,
        }
    }
}

impl Sink for StdSink {
    ghost use Rattle.outer_io.specs.Standard.{OverNothing};

    ghost tells = { false };

    ghost written = { λ _. [] };

    ghost faults = { λ s. s.faults };

    fn write(&mut self, bytes: &[u8]) -> Result<usize, Failed>
        requires { 0 < length bytes.now }

        // As every sink does.
        ensures some { IfOk result (λ n. (0 < n) × (n ≤ length bytes.now)) }
        ensures later { self.old.faults ≤ self.new.faults }
        ensures cause { OnErr result (Rose self.old.faults self.new.faults) }

        // Each error counts, a write that takes nothing among them, and nothing takes all.
        ensures nothing { self.old.stream ≡ OverNothing → result ≡ Ok (length bytes.now) }
        ensures same_stream { self.new.stream ≡ self.old.stream }
        ensures faultless { OnOk result (self.new.faults ≡ self.old.faults) }
        ensures one_fault { OnErr result (self.new.faults ≡ next_count self.old.faults) }
    {
        let count = write_once(&mut self.output, bytes);
        if count == 0 {
            self.faults = self.faults.saturating_add(1);
            return Err(Failed);
        }
        Ok(count)
    }
}
