//! All bytes of a source.
ghost use Rattle.std.specs.Prelude.{◌≡◌, ◌<◌, ◌≤◌, length, vec_len, IsTrue, IfOk, IsErrOf};
ghost use Rattle.outer_io.specs.Shown.{IsReadOut, LosesNothing, ReadFailed, source_change};
ghost use Rattle.outer_io.specs.declared.all_bytes.ReadError.TheVariants.{Memory};

use crate::Source;
use std::alloc::{AllocError, Global};

/// Why the bytes of a source were not read to their end.
#[derive(Clone, Copy)]
pub enum ReadError {
    /// Memory ran out.
    Memory,
    /// A read failed, and the source's count of faults says so.
    Failed,
    /// There are more bytes than were to be read.
    TooMany,
}

impl From<AllocError> for ReadError {
    ghost from_gives = { λ _ e. e ≡ Memory };

    fn from(_: AllocError) -> ReadError {
        ReadError::Memory
    }
}

/// All bytes that a source has left, at most `most`. `TooMany` comes only where there are more, `Failed` only where the
/// source's count of faults rose.
pub fn read_all<S: Source>(alloc: Global, source: &mut S, most: usize) -> Result<Vec<u8>, ReadError>
    ensures bytes { IfOk result (λ bytes. IsTrue S.tells → bytes.items ≡ S.left source.old) }
    ensures read { IfOk result (λ _. IsTrue S.tells → IsReadOut (source_change S.Source source.old source.new)) }
    ensures few { IfOk result (λ bytes. vec_len bytes ≤ most) }
    ensures failed { IsErrOf result ReadError.Failed → ReadFailed (source_change S.Source source.old source.new) }
    ensures many { IsErrOf result ReadError.TooMany → IsTrue S.tells → most < length (S.left source.old) }
    ensures no_loss { IsTrue S.tells → LosesNothing (source_change S.Source source.old source.new) }
    ensures later { S.faults source.old ≤ S.faults source.new }
{
    let mut bytes = Vec::new(alloc);
    let mut buffer = [0u8; 4096];
    'reads: while bytes.len() <= most {
        let Ok(count) = source.read(&mut buffer) else {
            return Err(ReadError::Failed);
        };
        if count == 0 {
            return Ok(bytes);
        }
        bytes.extend_from_slice(&buffer[..count])?;
    }
    Err(ReadError::TooMany)
}
