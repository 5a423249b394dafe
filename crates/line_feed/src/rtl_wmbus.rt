//! Lines of rtl_wmbus.
ghost use Rattle.std.specs.Prelude.{◌≡◌, Ok, Err, MatchResult};
ghost use Rattle.line_feed.specs.RtlWmbus.{known_mode, checked, prefixed, columns_heard, rtl_wmbus_heard};

use crate::columns::Columns;
use crate::digits::read_telegram;
use crate::heard::Reception;
use crate::moments::read_moment;
use crate::reasons::NotTaken;

fn known_mode(mode: &[u8]) -> Result<(), NotTaken>
    ensures { result ≡ known_mode mode.now }
{
    match mode {
        b"T1" => Ok(()),
        b"C1" => Ok(()),
        b"S1" => Ok(()),
        _ => Err(NotTaken::Mode),
    }
}

// Whether the receiver says that the CRCs were right.
fn checked(flag: &[u8]) -> Result<(), NotTaken>
    ensures { result ≡ checked flag.now }
{
    match flag {
        b"1" => Ok(()),
        _ => Err(NotTaken::Unchecked),
    }
}

// The digits behind `0x`.
fn prefixed(text: &[u8]) -> Result<&[u8], NotTaken>
    ensures { MatchResult result (λ digits. prefixed text.now ≡ Ok digits.now) (λ e. prefixed text.now ≡ Err e) }
{
    match text {
        [b'0', b'x', digits @ ..] => Ok(digits),
        _ => Err(NotTaken::Prefix),
    }
}

#[tactic(auto, unfolding(crate::specs::RtlWmbus::columns_heard))]
fn read_columns(mut columns: Columns<'_>) -> Result<Reception, NotTaken>
    ensures { result ≡ columns_heard columns.entry }
{
    let (Some(mode), Some(right), Some(_), Some(time)) = (
        columns.next(),
        columns.next(),
        columns.next(),
        columns.next(),
    ) else {
        return Err(NotTaken::Columns);
    };
    let (Some(_), Some(_), Some(_), Some(text), None) = (
        columns.next(),
        columns.next(),
        columns.next(),
        columns.next(),
        columns.next(),
    ) else {
        return Err(NotTaken::Columns);
    };
    known_mode(mode)?;
    checked(right)?;
    let moment = read_moment(time)?;
    let digits = prefixed(text)?;
    let telegram = read_telegram(digits)?;
    Ok(Reception {
        telegram,
        moment: Some(moment),
    })
}

/// What a line of rtl_wmbus gives.
pub(crate) fn read_rtl_wmbus(line: &[u8]) -> Result<Reception, NotTaken>
    ensures { result ≡ rtl_wmbus_heard line.now }
{
    read_columns(Columns::of_line(line))
}
