//! What one line asks for.
ghost use Rattle.std.specs.Prelude.{◌≡◌};
ghost use Rattle.usage_totals.specs.Requests.{Means, payload_of, place_of, request_read};
ghost use Rattle.usage_totals.specs.Requests.{addition_in, replacement_in, removal_in, question_in, by_sign, request_of};
ghost use Rattle.meter_address.specs.Address.{address_of};

use hex::FromHexError;
use meter_address::Address;
use plain_text::{Fields, read_number};
use std::alloc::Global;

/// The most digits of a payload, two for each byte.
const DIGITS_MAX: usize = 7_744;

/// An edit that a line asks for.
#[derive(Drop)]
pub(crate) enum EditRead {
    /// A payload's row at the end of an address's rows.
    Add(Address, Vec<u8>),
    /// A payload's row in the place of another one.
    Replace(Address, u32, Vec<u8>),
    /// The row at a place taken away.
    Remove(Address, u32),
}

/// The most bytes of a line that asks for anything, without its end: a sign, an address, a place of ten digits and a
/// payload, with a space between each two.
pub const LINE_MAX: usize = 7_774;

/// What a line asks for.
#[derive(Drop)]
pub(crate) enum RequestRead {
    /// An edit.
    Edits(EditRead),
    /// The usages of a meter.
    Usages(Address),
    /// The totals of all meters.
    Totals,
}

/// Why nothing was read.
#[derive(Clone, Copy)]
pub(crate) enum Unread {
    /// The line asks for nothing.
    Bad,
    /// Memory ran out.
    Memory,
}

fn read_address(text: &[u8]) -> Result<Address, Unread>
    ensures { Means (λ a. a) result (address_of text.now) }
{
    match Address::read_text(text) {
        Ok(address) => Ok(address),
        Err(_) => Err(Unread::Bad),
    }
}

fn read_place(text: &[u8]) -> Result<u32, Unread>
    ensures { Means (λ n. n) result (place_of text.now) }
{
    match read_number(text, u64::from(u32::MAX)) {
        Some(place) => Ok(place as u32),
        None => Err(Unread::Bad),
    }
}

fn read_payload(alloc: Global, digits: &[u8]) -> Result<Vec<u8>, Unread>
    ensures { Means (λ bytes. bytes.items) result (payload_of digits.now) }
{
    if digits.len() > DIGITS_MAX {
        return Err(Unread::Bad);
    }
    match hex::decode(alloc, digits) {
        Ok(bytes) => Ok(bytes),
        Err(FromHexError::OutOfMemory) => Err(Unread::Memory),
        Err(_) => Err(Unread::Bad),
    }
}

#[tactic(auto, unfolding(crate::specs::Requests::addition_in))]
fn read_addition(alloc: Global, mut fields: Fields<'_>) -> Result<RequestRead, Unread>
    ensures { Means request_read result (addition_in fields.entry) }
{
    let (Some(text), Some(digits), None) = (fields.next(), fields.next(), fields.next()) else {
        return Err(Unread::Bad);
    };
    let address = read_address(text)?;
    let payload = read_payload(alloc, digits)?;
    Ok(RequestRead::Edits(EditRead::Add(address, payload)))
}

#[tactic(auto, unfolding(crate::specs::Requests::replacement_in))]
fn read_replacement(alloc: Global, mut fields: Fields<'_>) -> Result<RequestRead, Unread>
    ensures { Means request_read result (replacement_in fields.entry) }
{
    let (Some(text), Some(number), Some(digits), None) = (
        fields.next(),
        fields.next(),
        fields.next(),
        fields.next(),
    ) else {
        return Err(Unread::Bad);
    };
    let address = read_address(text)?;
    let place = read_place(number)?;
    let payload = read_payload(alloc, digits)?;
    Ok(RequestRead::Edits(EditRead::Replace(address, place, payload)))
}

#[tactic(auto, unfolding(crate::specs::Requests::removal_in))]
fn read_removal(mut fields: Fields<'_>) -> Result<RequestRead, Unread>
    ensures { Means request_read result (removal_in fields.entry) }
{
    let (Some(text), Some(number), None) = (fields.next(), fields.next(), fields.next()) else {
        return Err(Unread::Bad);
    };
    let address = read_address(text)?;
    let place = read_place(number)?;
    Ok(RequestRead::Edits(EditRead::Remove(address, place)))
}

#[tactic(auto, unfolding(crate::specs::Requests::question_in))]
fn read_question(mut fields: Fields<'_>) -> Result<RequestRead, Unread>
    ensures { Means request_read result (question_in fields.entry) }
{
    let Some(text) = fields.next() else {
        return Ok(RequestRead::Totals);
    };
    if fields.next().is_some() {
        return Err(Unread::Bad);
    }
    let address = read_address(text)?;
    Ok(RequestRead::Usages(address))
}

#[tactic(auto, unfolding(crate::specs::Requests::by_sign))]
fn read_by_sign(alloc: Global, mut fields: Fields<'_>) -> Result<RequestRead, Unread>
    ensures { Means request_read result (by_sign fields.entry) }
{
    let Some(sign) = fields.next() else {
        return Err(Unread::Bad);
    };
    match sign {
        b"+" => read_addition(alloc, fields),
        b"=" => read_replacement(alloc, fields),
        b"-" => read_removal(fields),
        b"?" => read_question(fields),
        _ => Err(Unread::Bad),
    }
}

/// What a line asks for, given without its end.
#[tactic(auto, unfolding(crate::specs::Requests::request_of))]
pub(crate) fn read_request(alloc: Global, line: &[u8]) -> Result<RequestRead, Unread>
    ensures { Means request_read result (request_of line.now) }
{
    if line.len() > LINE_MAX {
        return Err(Unread::Bad);
    }
    read_by_sign(alloc, Fields::of_line(line))
}
