//! What a line of a report says to a list of its readings.
ghost use Rattle.std.specs.Prelude.{◌≡◌};
ghost use Rattle.std.specs.Option.{ok_or};
ghost use Rattle.plain_text.specs.Parts.{is_word};
ghost use Rattle.meter_address.specs.Address.{address_of};
ghost use Rattle.reading_list.specs.Said.{Means, Said, number_in, moment_in, payload_in, said_read};
ghost use Rattle.reading_list.specs.Said.{stored_line, step_line, meter_line, head_line, is_below_steps};
ghost use Rattle.reading_list.specs.Said.{is_outside, is_other, by_word, said_of};

use hex::FromHexError;
use meter_address::Address;
use plain_text::{Fields, read_number};
use std::alloc::Global;

/// The most bytes of a line that is looked at, without its end.
pub const LINE_MAX: usize = 8_192;

// The most digits of a payload, two for each byte.
const DIGITS_MAX: usize = 7_744;

/// Why a line of a report can't be read: the first of these that applies.
#[derive(Clone, Copy)]
pub enum LineFault {
    /// It has more than 8,192 bytes.
    TooLong,
    /// Its first word is none of a report's.
    Word,
    /// It is the head of a report of another version.
    Version,
    /// The meter's address isn't sixteen hexadecimal digits.
    Address,
    /// A step without its receiver, its line or its answer, or a stored one without counter, moment or payload.
    Fields,
    /// A number that isn't plain, or is above its range.
    Number,
    /// The payload isn't an even number of hexadecimal digits, or has more than 3,872 bytes.
    Payload,
}

/// A step that stored a message.
#[derive(Drop)]
pub struct StepRead {
    /// The receiver that heard it.
    pub receiver: u32,
    /// The line of that receiver.
    pub line: u32,
    /// The counter (mode 7) or the access number (mode 5).
    pub counter: u32,
    /// The moment, in the receiver's own unit.
    pub moment: u64,
    /// The decrypted payload.
    pub payload: Vec<u8>,
}

/// What a line says.
#[derive(Drop)]
pub enum SaidRead {
    /// The part of this meter begins.
    Meter(Address),
    /// A message was stored.
    Stored(StepRead),
    /// The report ends.
    Finished,
    /// Another line of a report.
    Other,
}

/// Why nothing was read.
#[derive(Clone, Copy)]
pub enum Unread {
    /// The line can't be read.
    Faulty(LineFault),
    /// Memory ran out.
    Memory,
}

// Whether a text is this word.
fn is_word(text: &[u8], word: &str) -> bool
    ensures { result ≡ is_word text.now word.now }
{
    text == word.as_bytes()
}

fn read_u32(text: &[u8]) -> Result<u32, Unread>
    ensures { Means (λ n. n) result (number_in text.now) }
{
    match read_number(text, u64::from(u32::MAX)) {
        Some(number) => Ok(number as u32),
        None => Err(Unread::Faulty(LineFault::Number)),
    }
}

fn read_moment(text: &[u8]) -> Result<u64, Unread>
    ensures { Means (λ n. n) result (moment_in text.now) }
{
    match read_number(text, u64::MAX) {
        Some(number) => Ok(number),
        None => Err(Unread::Faulty(LineFault::Number)),
    }
}

fn read_address(text: &[u8]) -> Result<Address, Unread>
    ensures { Means (λ a. a) result (ok_or (address_of text.now) LineFault.Address) }
{
    match Address::read_text(text) {
        Ok(address) => Ok(address),
        Err(_) => Err(Unread::Faulty(LineFault::Address)),
    }
}

fn read_payload(alloc: Global, digits: &[u8]) -> Result<Vec<u8>, Unread>
    ensures { Means (λ bytes. bytes.items) result (payload_in digits.now) }
{
    match digits {
        b"-" => return Ok(Vec::new(alloc)),
        _ => {}
    }
    if digits.len() > DIGITS_MAX {
        return Err(Unread::Faulty(LineFault::Payload));
    }
    match hex::decode(alloc, digits) {
        Ok(bytes) => Ok(bytes),
        Err(FromHexError::OutOfMemory) => Err(Unread::Memory),
        Err(_) => Err(Unread::Faulty(LineFault::Payload)),
    }
}

#[tactic(auto, unfolding(crate::specs::Said::stored_line))]
fn read_stored(
    alloc: Global,
    receiver: u32,
    line: u32,
    mut fields: Fields<'_>,
) -> Result<SaidRead, Unread>
    ensures { Means said_read result (stored_line receiver line fields.entry) }
{
    let (Some(text), Some(at), Some(digits)) = (fields.next(), fields.next(), fields.next()) else {
        return Err(Unread::Faulty(LineFault::Fields));
    };
    let counter = read_u32(text)?;
    let moment = read_moment(at)?;
    let payload = read_payload(alloc, digits)?;
    Ok(SaidRead::Stored(StepRead {
        receiver,
        line,
        counter,
        moment,
        payload,
    }))
}

#[tactic(auto, unfolding(crate::specs::Said::step_line))]
fn read_step(alloc: Global, mut fields: Fields<'_>) -> Result<SaidRead, Unread>
    ensures { Means said_read result (step_line fields.entry) }
{
    let (Some(heard), Some(at), Some(answer)) = (fields.next(), fields.next(), fields.next()) else {
        return Err(Unread::Faulty(LineFault::Fields));
    };
    let receiver = read_u32(heard)?;
    let line = read_u32(at)?;
    match answer {
        b"stored" => read_stored(alloc, receiver, line, fields),
        _ => Ok(SaidRead::Other),
    }
}

#[tactic(auto, unfolding(crate::specs::Said::meter_line))]
fn read_meter(mut fields: Fields<'_>) -> Result<SaidRead, Unread>
    ensures { Means said_read result (meter_line fields.entry) }
{
    let Some(text) = fields.next() else {
        return Err(Unread::Faulty(LineFault::Address));
    };
    let address = read_address(text)?;
    Ok(SaidRead::Meter(address))
}

#[tactic(auto, unfolding(crate::specs::Said::head_line))]
fn read_head(mut fields: Fields<'_>) -> Result<SaidRead, Unread>
    ensures { Means said_read result (head_line fields.entry) }
{
    let Some(version) = fields.next() else {
        return Err(Unread::Faulty(LineFault::Version));
    };
    match version {
        b"1" => Ok(SaidRead::Other),
        _ => Err(Unread::Faulty(LineFault::Version)),
    }
}

// Whether a line that begins with this word stands below a meter's steps.
fn is_below_steps(word: &[u8]) -> bool
    ensures { result ≡ is_below_steps word.now }
{
    if is_word(word, "record") {
        return true;
    }
    if is_word(word, "maker") {
        return true;
    }
    if is_word(word, "fault") {
        return true;
    }
    if is_word(word, "more") {
        return true;
    }
    is_word(word, "pending")
}

// Whether a line that begins with this word stands outside the meters' parts.
fn is_outside(word: &[u8]) -> bool
    ensures { result ≡ is_outside word.now }
{
    if is_word(word, "receiver") {
        return true;
    }
    if is_word(word, "strangers") {
        return true;
    }
    if is_word(word, "stranger") {
        return true;
    }
    is_word(word, "ring")
}

// Whether a line that begins with this word tells of no reading.
fn is_other(word: &[u8]) -> bool
    ensures { result ≡ is_other word.now }
{
    is_below_steps(word) || is_outside(word)
}

#[tactic(auto, unfolding(crate::specs::Said::by_word))]
fn read_by_word(alloc: Global, mut fields: Fields<'_>) -> Result<SaidRead, Unread>
    ensures { Means said_read result (by_word fields.entry) }
{
    let Some(word) = fields.next() else {
        return Err(Unread::Faulty(LineFault::Word));
    };
    if is_word(word, "step") {
        return read_step(alloc, fields);
    }
    if is_word(word, "meter") {
        return read_meter(fields);
    }
    if is_word(word, "end") {
        return Ok(SaidRead::Finished);
    }
    if is_word(word, "wmbus-report") {
        return read_head(fields);
    }
    if is_other(word) {
        return Ok(SaidRead::Other);
    }
    Err(Unread::Faulty(LineFault::Word))
}

/// Reads a line of a report, which is given without its end.
#[tactic(auto, unfolding(crate::specs::Said::said_of))]
pub fn read_line(alloc: Global, line: &[u8]) -> Result<SaidRead, Unread>
    ensures { Means said_read result (said_of line.now) }
{
    if line.len() > LINE_MAX {
        return Err(Unread::Faulty(LineFault::TooLong));
    }
    read_by_word(alloc, Fields::of_line(line))
}
