//! The grammar of a line.
ghost use Rattle.std.specs.Prelude.{◌≡◌, ◌≤◌, length};
ghost use Rattle.std.specs.List.{AllByRecursion};
ghost use Rattle.line_reader.specs.Grammar.{IsLineText, frame_line, tick_line, put_line, payload_of};
ghost use Rattle.line_reader.specs.Grammar.{cancel_line, key_line, by_word, line_of};

use crate::frame::FrameBytes;
use crate::line::{BadLine, Line};
use frame_formats::Format;
use meter_address::{Address, Payload, read_key};
use plain_text::{Fields, read_number};

/// The most bytes of a line, without its end.
pub const LINE_MAX: usize = 1_024;

#[tactic(auto, unfolding(crate::specs::Grammar::frame_line))]
fn read_frame_line(format: Format, mut fields: Fields<'_>) -> Result<Line, BadLine>
    requires { AllByRecursion IsLineText fields }
    ensures { result ≡ frame_line format fields.entry }
{
    let (Some(moment), Some(digits), None) = (fields.next(), fields.next(), fields.next()) else {
        return Err(BadLine::Fields);
    };
    let at = read_number(moment, u64::MAX).ok_or(BadLine::Number)?;
    let mut bytes = FrameBytes::empty();
    bytes.read_hex(digits).ok_or(BadLine::Hex)?;
    Ok(Line::Frame { format, at, bytes })
}

#[tactic(auto, unfolding(crate::specs::Grammar::tick_line))]
fn read_tick_line(mut fields: Fields<'_>) -> Result<Line, BadLine>
    ensures { result ≡ tick_line fields.entry }
{
    let (Some(text), None) = (fields.next(), fields.next()) else {
        return Err(BadLine::Fields);
    };
    match Address::read_text(text) {
        Ok(address) => Ok(Line::Tick(address)),
        Err(_) => Err(BadLine::Address),
    }
}

fn read_payload(bytes: &[u8]) -> Result<Payload, BadLine>
    ensures { result ≡ payload_of bytes.now }
{
    match Payload::new(bytes) {
        Some(payload) => Ok(payload),
        None => Err(BadLine::Payload(bytes.len())),
    }
}

#[tactic(auto, unfolding(crate::specs::Grammar::put_line))]
fn read_put_line(mut fields: Fields<'_>) -> Result<Line, BadLine>
    requires { AllByRecursion IsLineText fields }
    ensures { result ≡ put_line fields.entry }
{
    let (Some(text), Some(digits), None) = (fields.next(), fields.next(), fields.next()) else {
        return Err(BadLine::Fields);
    };
    let Ok(address) = Address::read_text(text) else {
        return Err(BadLine::Address);
    };
    let bytes = FrameBytes::from_hex(digits).ok_or(BadLine::Hex)?;
    let payload = read_payload(bytes.bytes())?;
    Ok(Line::Put(address, payload))
}

#[tactic(auto, unfolding(crate::specs::Grammar::cancel_line))]
fn read_cancel_line(mut fields: Fields<'_>) -> Result<Line, BadLine>
    ensures { result ≡ cancel_line fields.entry }
{
    let (Some(text), Some(number), None) = (fields.next(), fields.next(), fields.next()) else {
        return Err(BadLine::Fields);
    };
    let id = read_number(number, u64::from(u32::MAX)).ok_or(BadLine::Number)?;
    match Address::read_text(text) {
        Ok(address) => Ok(Line::Cancel(address, id as u32)),
        Err(_) => Err(BadLine::Address),
    }
}

#[tactic(auto, unfolding(crate::specs::Grammar::key_line))]
fn read_key_line(mut fields: Fields<'_>) -> Result<Line, BadLine>
    ensures { result ≡ key_line fields.entry }
{
    let (Some(text), Some(digits), None) = (fields.next(), fields.next(), fields.next()) else {
        return Err(BadLine::Fields);
    };
    let Ok(address) = Address::read_text(text) else {
        return Err(BadLine::Address);
    };
    let key = read_key(digits).ok_or(BadLine::Key)?;
    Ok(Line::Key(address, key))
}

#[tactic(auto, unfolding(crate::specs::Grammar::by_word))]
fn read_by_word(mut fields: Fields<'_>) -> Result<Line, BadLine>
    requires { AllByRecursion IsLineText fields }
    ensures { result ≡ by_word fields.entry }
{
    let Some(word) = fields.next() else {
        return Err(BadLine::Word);
    };
    match word {
        b"A" => read_frame_line(Format::A, fields),
        b"B" => read_frame_line(Format::B, fields),
        b"T" => read_tick_line(fields),
        b"Q" => read_put_line(fields),
        b"X" => read_cancel_line(fields),
        b"K" => read_key_line(fields),
        _ => Err(BadLine::Word),
    }
}

/// What a line says, given without its end, or its first fault.
#[tactic(auto, unfolding(crate::specs::Grammar::line_of))]
pub fn read_line(text: &[u8]) -> Result<Line, BadLine>
    ensures { result ≡ line_of text.now }
{
    if text.len() > LINE_MAX {
        return Err(BadLine::TooLong);
    }
    read_by_word(Fields::of_line(text))
}
