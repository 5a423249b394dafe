//! Lines that are telegrams in hexadecimal.
ghost use Rattle.std.specs.Prelude.{◌≡◌, IfOk, IfErr};
ghost use Rattle.line_feed.specs.Hex.{is_mark, unmarked, digits_heard, hex_heard};
ghost use Rattle.line_feed.specs.Heard.{Means};

use crate::digits::read_telegram;
use crate::heard::{Reception, Unheard, said};
use crate::reasons::NotTaken;
use std::alloc::Global;

// Whether a byte only sets digits apart.
fn is_mark(byte: u8) -> bool
    ensures { result ≡ is_mark byte }
{
    byte == b'|' || byte == b'_'
}

// The bytes of a line that set no digits apart.
fn unmarked(alloc: Global, line: &[u8]) -> Result<Vec<u8>, Unheard>
    ensures ok { IfOk result (λ digits. digits.items ≡ unmarked line.now) }
    ensures err { IfErr result (λ why. why ≡ Unheard.Memory) }
{
    match line
        .iter()
        .copied()
        .filter(|byte| !is_mark(*byte))
        .collect(alloc)
    {
        Ok(digits) => Ok(digits),
        Err(_) => Err(Unheard::Memory),
    }
}

// A telegram in digits.
fn read_digits(digits: &[u8]) -> Result<Reception, NotTaken>
    ensures { result ≡ digits_heard digits.now }
{
    let telegram = read_telegram(digits)?;
    Ok(Reception {
        telegram,
        moment: None,
    })
}

/// What a line gives that is a telegram in hexadecimal.
pub(crate) fn read_hex(alloc: Global, line: &[u8]) -> Result<Reception, Unheard>
    ensures { Means result (hex_heard line.now) }
{
    let digits = unmarked(alloc, line)?;
    said(read_digits(&digits))
}
