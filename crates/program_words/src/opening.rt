//! The files that the words name.
ghost use Rattle.std.specs.Prelude.{◌≡◌, IfErr};
ghost use Rattle.std.specs.Process.{exit_status};

use crate::cannot_open;
use outer_io::{StdSink, StdSource};
use std::fs::{File, Files};
use std::os::unix::fs::OpenOptionsExt;
use std::process::ExitCode;

/// The file of this name, to be read; or status 11, after naming the file.
pub fn open_to_read<R: Eprint + Files<File = File>>(
    rt: &R,
    program: &str,
    name: &str,
) -> Result<StdSource, ExitCode>
    ensures { IfErr result (λ ended. exit_status ended ≡ 11) }
{
    match File::open(rt, name) {
        Ok(file) => Ok(StdSource::file(file)),
        Err(_unopened) => Err(cannot_open(rt, program, name)),
    }
}

/// The file of this name, made empty, to be written, where it is new with these permissions; or status 11, after naming the file.
pub fn open_to_write<R: Eprint + Files<File = File>>(
    rt: &R,
    program: &str,
    name: &str,
    permissions: u32,
) -> Result<StdSink, ExitCode>
    ensures { IfErr result (λ ended. exit_status ended ≡ 11) }
{
    let mut options = File::options();
    options
        .write(true)
        .create(true)
        .truncate(true)
        .mode(permissions);
    match options.open(rt, name) {
        Ok(file) => Ok(StdSink::file(file)),
        Err(_unmade) => Err(cannot_open(rt, program, name)),
    }
}
