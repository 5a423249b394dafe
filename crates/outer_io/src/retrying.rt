//! Reads and writes of std that are made again where a signal interrupts them, as std's own helpers do.
ghost use Rattle.std.specs.Prelude.{◌≤◌, length, IfSome};

use std::io::{ErrorKind, Read, Write};

// How many bytes were read, or none where the read failed.
pub(crate) fn read_retrying<R: Read>(reader: &mut R, into: &mut [u8]) -> Option<usize>
    ensures { IfSome result (λ n. n ≤ length into.old) }
{
    for _ in 0..u64::MAX {
        match reader.read(into) {
            Ok(count) => return Some(count),
            Err(error) => {
                if error.kind() != ErrorKind::Interrupted {
                    return None;
                }
            }
        }
    }
    None
}

// How many bytes were written, none where the write failed.
pub(crate) fn write_retrying<W: Write>(writer: &mut W, bytes: &[u8]) -> usize
    ensures { result ≤ length bytes.now }
{
    for _ in 0..u64::MAX {
        match writer.write(bytes) {
            Ok(count) => return count,
            Err(error) => {
                if error.kind() != ErrorKind::Interrupted {
                    return 0;
                }
            }
        }
    }
    0
}
