//! A file of lines that ends in the middle of one.
ghost use Rattle.std.specs.Prelude.{◌≡◌, ◌≤◌, length, Err, IsTrue, IfOk, OnOk, OnErr};
ghost use Rattle.outer_io.specs.Faults.{Rose};
ghost use Rattle.line_feed.specs.Files.{IsHalf, EndsInHalf, IsWholePart, HasNoNewline};

use crate::line_file::LineFile;
use crate::streaming::next_place;
use outer_io::Failed;

/// The most bytes that a line may lack its newline with: more than any line that is appended has.
pub const HALF_MAX: usize = 1_024;

/// Why a file can't be appended to.
#[derive(Clone, Copy)]
pub enum Unfit {
    /// Its end can't be read, or not be cut off.
    Failed,
    /// Its last 1,024 bytes have no newline: it isn't a file of lines.
    NoLines,
}

// How many bytes at the end are a line that has no newline yet.
fn half_len(bytes: &[u8]) -> usize
    ensures { IsHalf bytes.now result }
{
    let mut at = 0;
    'lines: loop {
        let Some(place) = next_place(bytes, at) else {
            return bytes.len() - at;
        };
        at += place + 1;
    }
}

// How many bytes at the end of a file are a line that has no newline yet, where these are fewer than there is room for.
fn last_half<F: LineFile>(file: &mut F, buffer: &mut [u8]) -> Result<usize, Failed>
    requires { length buffer.old ≡ HALF_MAX }
    ensures half { IfOk result (λ half. IsTrue F.tells → EndsInHalf (F.written file.old) half) }
    ensures same { IsTrue F.tells → F.written file.new ≡ F.written file.old }
    ensures later { F.faults file.old ≤ F.faults file.new }
    ensures cause { OnErr result (Rose (F.faults file.old) (F.faults file.new)) }
{
    let Ok(count) = file.last(buffer) else {
        return Err(Failed);
    };
    let (shown, _) = buffer.split_at(count);
    Ok(half_len(shown))
}

/// Has a file end behind its last newline: the line that has none, which a program left that was killed, is cut off. Whatever has no newline in
/// its last 1,024 bytes is left as it is.
pub fn cut_half_line<F: LineFile>(file: &mut F) -> Result<(), Unfit>
    ensures whole { OnOk result (IsTrue F.tells → IsWholePart (F.written file.old) (F.written file.new)) }
    ensures same { OnErr result (IsTrue F.tells → F.written file.new ≡ F.written file.old) }
    ensures failed { result ≡ Err Unfit.Failed → Rose (F.faults file.old) (F.faults file.new) }
    ensures no_lines { result ≡ Err Unfit.NoLines → IsTrue F.tells → HasNoNewline (F.written file.old) 1024 }
    ensures later { F.faults file.old ≤ F.faults file.new }
{
    let mut buffer = [0u8; HALF_MAX];
    let Ok(half) = last_half(file, &mut buffer) else {
        return Err(Unfit::Failed);
    };
    if half >= HALF_MAX {
        return Err(Unfit::NoLines);
    }
    if half == 0 {
        return Ok(());
    }
    match file.cut(half) {
        Ok(()) => Ok(()),
        Err(_) => Err(Unfit::Failed),
    }
}
