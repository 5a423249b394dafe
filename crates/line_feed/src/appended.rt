//! A file that is appended to.
ghost use Rattle.std.specs.Prelude.{◌<◌, ◌≤◌, false, [], length, IfSome, IfErr, ◌≡◌};
ghost use Rattle.std.specs.Process.{exit_status};
ghost use Rattle.outer_io.specs.Faults.{Rose};

use crate::line_file::LineFile;
use outer_io::{Failed, Sink};
use program_words::{cannot_open, taken_streams};
use std::fs::{File, Files, OpenOptions, TryLockError};
use std::io::{ErrorKind, Write};
use std::os::unix::fs::FileExt;
use std::process::ExitCode;

/// A file that is open for appending and for reading. What it really has and takes is trusted, and shown by tests alone.
#[derive(Drop)]
pub(crate) struct AppendedFile {
    file: File,
    faults: u64,
}

// How many bytes were written, none where the write failed. A write that a signal interrupts is made again.
fn write_once(file: &mut File, bytes: &[u8]) -> usize
    ensures { result ≤ length bytes.now }
{
    for _ in 0..u64::MAX {
        match file.write(bytes) {
            Ok(count) => return count,
            Err(error) => {
                if error.kind() != ErrorKind::Interrupted {
                    return 0;
                }
            }
        }
    }
    0
}

// Reads the last bytes of a file, at most as many as there is room for.
fn read_last(file: &File, into: &mut [u8]) -> Option<usize>
    ensures room { IfSome result (λ n. n ≤ length into.old) }
    ensures length { length into.new ≡ length into.old }
{
    let Ok(metadata) = file.metadata() else {
        return None;
    };
    let len = metadata.len();
    let place = len.saturating_sub(into.len() as u64);
    let count = (len - place) as usize;
    let count = count.min(into.len());
    match file.read_exact_at(&mut into[..count], place) {
        Ok(()) => Some(count),
        Err(_) => None,
    }
}

// Takes bytes away from the end of a file, and answers whether they are gone.
fn shorten(file: &File, count: usize) -> bool {
    let Ok(metadata) = file.metadata() else {
        return false;
    };
    file.set_len(metadata.len().saturating_sub(count as u64))
        .is_ok()
}

impl AppendedFile {
    // Counts a fault, and answers it.
    fn fault(&mut self) -> Failed
        ensures cause { Rose self.old.faults self.new.faults }
        ensures later { self.old.faults ≤ self.new.faults }
    {
        self.faults = self.faults.saturating_add(1);
        Failed
    }
}

impl Sink for AppendedFile {
    ghost tells = { false };

    ghost written = { λ _. [] };

    ghost faults = { λ s. s.faults };

    fn write(&mut self, bytes: &[u8]) -> Result<usize, Failed> {
        let count = write_once(&mut self.file, bytes);
        if count == 0 {
            return Err(self.fault());
        }
        Ok(count)
    }
}

impl LineFile for AppendedFile {
    fn last(&mut self, into: &mut [u8]) -> Result<usize, Failed> {
        match read_last(&self.file, into) {
            Some(count) => Ok(count),
            None => Err(self.fault()),
        }
    }

    fn cut(&mut self, count: usize) -> Result<(), Failed> {
        if shorten(&self.file, count) {
            return Ok(());
        }
        Err(self.fault())
    }
}

// Whether another program has the file locked. A file system without locks has none.
fn is_taken(file: &File) -> bool {
    match file.try_lock() {
        Ok(()) => false,
        Err(TryLockError::WouldBlock) => true,
        Err(TryLockError::Error(_)) => false,
    }
}

/// Opens a file for appending, and makes it where there is none; or ends with status 11. One that another program appends to isn't opened.
pub(crate) fn open_appended<R: Eprint + Files<File = File>>(
    rt: &R,
    name: &str,
) -> Result<AppendedFile, ExitCode>
    ensures { IfErr result (λ ended. exit_status ended ≡ 11) }
{
    let _streams = taken_streams(rt);
    match OpenOptions::new()
        .read(true)
        .append(true)
        .create(true)
        .open(rt, name)
    {
        Ok(file) => {
            if is_taken(&file) {
                let _ = eprintln!(rt; "line_feed: another program appends to {name}");
                return Err(ExitCode::from(11));
            }
            Ok(AppendedFile { file, faults: 0 })
        }
        Err(_) => Err(cannot_open(rt, "line_feed", name)),
    }
}
