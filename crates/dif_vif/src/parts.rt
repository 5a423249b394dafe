//! The parts of a record, each read from the front of the bytes that are left.

ghost use Rattle.std.specs.Prelude.{◌≡◌, ◌≤◌, length, IfOk};
ghost use Rattle.dif_vif.specs.Spelling.{field_width, lvar_width, data_width};
ghost use Rattle.dif_vif.specs.Reading.{Gives, byte_at, bytes_at, chain_len, chain_at, dif_at, dib_at};
ghost use Rattle.dif_vif.specs.Reading.{text_at, vib_at, lvar_at, contents_at, record_at};
ghost use Rattle.dif_vif.specs.Views.{dib, vib, contents, data_record};

use crate::fault::RecordFault;

/// How many DIFEs, and how many VIFEs, a record may have (EN 13757-3, 6.3 and 6.4).
const MOST_EXTENSIONS: usize = 10;

/// The code of a VIF behind which a plain text unit stands (EN 13757-3, 6.4).
const PLAIN_TEXT: u8 = 0x7c;

/// The data field for which an LVAR says how many bytes of data there are (EN 13757-3, 6.3).
const BY_LVAR: u8 = 13;

#[tactic(auto, unfolding(crate::specs::Reading::byte_at))]
fn byte_of(start: usize, bytes: &[u8]) -> Result<(u8, &[u8]), RecordFault>
    ensures { Gives (λ x. (x.0, x.1.now)) result (byte_at start bytes.now) }
{
    match bytes {
        [] => Err(RecordFault::Truncated(start)),
        [byte, rest @ ..] => Ok((*byte, rest)),
    }
}

#[tactic(auto, unfolding(crate::specs::Reading::bytes_at))]
fn bytes_of(start: usize, count: usize, bytes: &[u8]) -> Result<(&[u8], &[u8]), RecordFault>
    ensures { Gives (λ x. (x.0.now, x.1.now)) result (bytes_at start count bytes.now) }
{
    if bytes.len() < count {
        return Err(RecordFault::Truncated(start));
    }
    Ok(bytes.split_at(count))
}

fn chain_len_of(start: usize, first: u8, bytes: &[u8]) -> Result<usize, RecordFault>
    ensures exact { result ≡ chain_len start 10 first bytes.now }
    ensures within { IfOk result (λ count. count ≤ length bytes.now) }
{
    let mut last = first;
    for (count, next) in bytes.iter().enumerate() {
        if last < 0x80 {
            return Ok(count);
        }
        if count == MOST_EXTENSIONS {
            return Err(RecordFault::TooManyExtensions(start));
        }
        last = *next;
    }
    if last < 0x80 {
        Ok(bytes.len())
    } else {
        Err(RecordFault::Truncated(start))
    }
}

#[tactic(auto, unfolding(crate::specs::Reading::chain_at))]
fn chain_of(start: usize, first: u8, bytes: &[u8]) -> Result<(&[u8], &[u8]), RecordFault>
    ensures { Gives (λ x. (x.0.now, x.1.now)) result (chain_at start first bytes.now) }
{
    let count = chain_len_of(start, first, bytes)?;
    Ok(bytes.split_at(count))
}

#[tactic(auto, unfolding(crate::specs::Reading::dif_at))]
fn dif_of(start: usize, bytes: &[u8]) -> Result<(u8, &[u8]), RecordFault>
    ensures { Gives (λ x. (x.0, x.1.now)) result (dif_at start bytes.now) }
{
    let (dif, rest) = byte_of(start, bytes)?;
    match dif % 16 {
        15 => Err(RecordFault::Special(dif)),
        8 => Err(RecordFault::Selection(start)),
        _ => Ok((dif, rest)),
    }
}

/// The data information block: the DIF and its DIFEs.
#[derive(Clone, Copy)]
pub struct DataInformation<'a> {
    pub dif: u8,
    pub difes: &'a [u8],
}

#[tactic(auto, unfolding(crate::specs::Reading::dib_at))]
fn dib_of(start: usize, bytes: &[u8]) -> Result<(DataInformation<'_>, &[u8]), RecordFault>
    ensures { Gives (λ x. (dib x.0, x.1.now)) result (dib_at start bytes.now) }
{
    let (dif, rest) = dif_of(start, bytes)?;
    let (difes, rest) = chain_of(start, dif, rest)?;
    Ok((DataInformation { dif, difes }, rest))
}

/// The value information block: the VIF, the plain text unit with the length before it, and the VIFEs.
#[derive(Clone, Copy)]
pub struct ValueInformation<'a> {
    pub vif: u8,
    pub text: &'a [u8],
    pub vifes: &'a [u8],
}

#[tactic(auto, unfolding(crate::specs::Reading::text_at, crate::specs::Reading::byte_at, crate::specs::Reading::bytes_at))]
fn text_of(start: usize, vif: u8, bytes: &[u8]) -> Result<(&[u8], &[u8]), RecordFault>
    ensures { Gives (λ x. (x.0.now, x.1.now)) result (text_at start vif bytes.now) }
{
    if vif % 128 != PLAIN_TEXT {
        return Ok(bytes.split_at(0));
    }
    let [count, letters @ ..] = bytes else {
        return Err(RecordFault::Truncated(start));
    };
    let count = usize::from(*count);
    if letters.len() < count {
        return Err(RecordFault::Truncated(start));
    }
    Ok(bytes.split_at(count + 1))
}

#[tactic(auto, unfolding(crate::specs::Reading::vib_at))]
fn vib_of(start: usize, bytes: &[u8]) -> Result<(ValueInformation<'_>, &[u8]), RecordFault>
    ensures { Gives (λ x. (vib x.0, x.1.now)) result (vib_at start bytes.now) }
{
    let (vif, rest) = byte_of(start, bytes)?;
    let (text, rest) = text_of(start, vif, rest)?;
    let (vifes, rest) = chain_of(start, vif, rest)?;
    Ok((ValueInformation { vif, text, vifes }, rest))
}

fn field_width(field: u8) -> Option<usize>
    ensures { result ≡ field_width field }
{
    match field {
        0..=4 => Some(usize::from(field)),
        5 => Some(4),
        6 => Some(6),
        7 => Some(8),
        9..=12 => Some(usize::from(field - 8)),
        14 => Some(6),
        _ => None,
    }
}

fn lvar_width(lvar: u8) -> Option<usize>
    ensures { result ≡ lvar_width lvar }
{
    match lvar {
        0x00..=0xbf => Some(usize::from(lvar)),
        0xc0..=0xc9 => Some(usize::from(lvar - 0xc0)),
        0xd0..=0xd9 => Some(usize::from(lvar - 0xd0)),
        0xe0..=0xef => Some(usize::from(lvar - 0xe0)),
        _ => None,
    }
}

fn data_width(dif: u8, lvar: Option<u8>) -> Option<usize>
    ensures { result ≡ data_width dif lvar }
{
    match lvar {
        None => field_width(dif % 16),
        Some(lvar) if dif % 16 == BY_LVAR => lvar_width(lvar),
        Some(_) => None,
    }
}

#[tactic(auto, unfolding(crate::specs::Reading::lvar_at))]
fn lvar_of(start: usize, dif: u8, bytes: &[u8]) -> Result<(Option<u8>, &[u8]), RecordFault>
    ensures { Gives (λ x. (x.0, x.1.now)) result (lvar_at start dif bytes.now) }
{
    if dif % 16 != BY_LVAR {
        return Ok((None, bytes));
    }
    let (lvar, rest) = byte_of(start, bytes)?;
    if lvar_width(lvar).is_none() {
        return Err(RecordFault::Lvar(lvar));
    }
    Ok((Some(lvar), rest))
}

/// The data as they are sent, with the LVAR before them where the data field is D.
#[derive(Clone, Copy)]
pub struct DataContents<'a> {
    pub lvar: Option<u8>,
    pub sent: &'a [u8],
}

#[tactic(auto, unfolding(crate::specs::Reading::contents_at))]
fn contents_of(
    start: usize,
    dif: u8,
    bytes: &[u8],
) -> Result<(DataContents<'_>, &[u8]), RecordFault>
    ensures { Gives (λ x. (contents x.0, x.1.now)) result (contents_at start dif bytes.now) }
{
    let (lvar, rest) = lvar_of(start, dif, bytes)?;
    let (sent, rest) = bytes_of(start, data_width(dif, lvar).unwrap_or(0), rest)?;
    Ok((DataContents { lvar, sent }, rest))
}

/// A record, part by part.
#[derive(Clone, Copy)]
pub struct RecordParts<'a> {
    pub dib: DataInformation<'a>,
    pub vib: ValueInformation<'a>,
    pub contents: DataContents<'a>,
}

/// The record at the front of the bytes, and the bytes after it.
#[tactic(auto, unfolding(crate::specs::Reading::record_at))]
pub fn record_of(start: usize, bytes: &[u8]) -> Result<(RecordParts<'_>, &[u8]), RecordFault>
    ensures { Gives (λ x. (data_record x.0, x.1.now)) result (record_at start bytes.now) }
{
    let (dib, rest) = dib_of(start, bytes)?;
    let (vib, rest) = vib_of(start, rest)?;
    let (contents, rest) = contents_of(start, dib.dif, rest)?;
    Ok((RecordParts { dib, vib, contents }, rest))
}
