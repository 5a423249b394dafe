//! What the lines of an input told, in few bytes.
ghost use Rattle.std.specs.Prelude.{◌≡◌, ◌≤◌, ◌<◌, ◌+◌, ◌^◌, length, Ok};
ghost use Rattle.frame_formats.specs.Frames.{IsTelegram};
ghost use Rattle.meter_slots.specs.Telling.{heard_in};
ghost use Rattle.receivers.specs.Told.{told_by_event};
ghost use Rattle.audit_check_main.specs.Hearing.{whose_told};
ghost use Rattle.audit_check_main.specs.Kept.{FitsKind, IsKept, part_of, number_in, bytes_in, told_again};

use crate::whose::Whose;
use byteorder::{BigEndian, ByteOrder};
use frame_formats::{Format, Telegram, decode};
use line_reader::{Line, read_line};
use message_check::target;
use meter_address::{Address, Payload};
use meter_slots::Event;
use outer_io::Memory;
use receivers::Told;
use std::alloc::Global;
use std::marker::Model;

// What a line told, without its number and its bytes.
#[derive(Clone, Copy)]
enum Kind {
    // A telegram of format A or B. The number is the moment at which it was heard, and the bytes are its own.
    HearA,
    HearB,
    // The number of this and of those below is the meter's address.
    Tick,
    // The bytes are the payload.
    Put,
    // The bytes are the id, the highest first.
    Cancel,
    // The bytes are the key.
    Rekey,
    Unframed,
    Bad,
}

// A line, with the place where its number, the highest byte first, and its bytes stand among those of all lines.
#[derive(Clone, Copy)]
struct KeptLine {
    start: u32,
    // Of so many bytes the number takes the first `width`.
    len: u16,
    width: u8,
    kind: Kind,
}

/// What the lines of an input told: 8 bytes for a line, those of its number, as few as it takes, and those of its telegram, payload or
/// key.
#[derive(Drop)]
pub(crate) struct ToldLines {
    lines: Vec<KeptLine>,
    bytes: Vec<u8>,
}

// A contract sees what each line told.
impl Model for ToldLines {
    ghost use Rattle.std.specs.Prelude.{List, map};
    ghost use Rattle.lists.specs.Each.{Each};
    ghost use Rattle.receivers.specs.declared.told.Told.{Told};

    ghost Value = { List Told };

    ghost use Rattle.audit_check_main.specs.Kept.{told_kept, IsKept};

    ghost view = { λ t. map (told_kept t.bytes.items) t.lines.items };

    ghost invariant = { λ t. Each (IsKept t.bytes.items) t.lines.items };
}

// The part of all bytes that is a line's.
fn part_of_line<'a>(bytes: &'a [u8], line: &KeptLine) -> &'a [u8]
    requires { IsKept bytes.now line.now }
    ensures { result.now ≡ part_of bytes.now line.now.start line.now.len }
{
    let (_, behind) = bytes.split_at(line.start as usize);
    let (part, _) = behind.split_at(line.len as usize);
    part
}

// The number of a line.
fn number_of(part: &[u8], width: u8) -> u64
    requires least { 1 ≤ width }
    requires most { width ≤ 8 }
    requires within { width ≤ length part.now }
    ensures { result ≡ number_in width part.now }
{
    BigEndian::read_uint(part, width as usize)
}

// The bytes of a line, behind its number.
fn bytes_of(part: &[u8], width: u8) -> &[u8]
    requires { width ≤ length part.now }
    ensures { result.now ≡ bytes_in width part.now }
{
    let (_, bytes) = part.split_at(width as usize);
    bytes
}

// How many bytes a number takes; at least one.
fn width_of(number: u64) -> usize
    ensures least { 1 ≤ result }
    ensures most { result ≤ 8 }
    ensures fits { number < 256 ^ result }
{
    match number {
        0..=0xff => 1,
        0x100..=0xffff => 2,
        0x1_0000..=0xff_ffff => 3,
        0x100_0000..=0xffff_ffff => 4,
        0x1_0000_0000..=0xff_ffff_ffff => 5,
        0x100_0000_0000..=0xffff_ffff_ffff => 6,
        0x1_0000_0000_0000..=0xff_ffff_ffff_ffff => 7,
        _ => 8,
    }
}

// The telegram with these bytes.
fn telegram_of(bytes: &[u8]) -> Telegram
    requires { IsTelegram bytes.now }
    ensures { result ≡ bytes.now }
{
    Telegram::from_bytes(bytes).unwrap()
}

// A telegram that was heard at a moment.
fn hear_again(format: Format, at: u64, bytes: &[u8]) -> Told
    requires { IsTelegram bytes.now }
    ensures { result ≡ told_by_event (heard_in format at (Ok bytes.now)) }
{
    let telegram = telegram_of(bytes);
    let address = target(&telegram);
    let event = Event::Hear {
        format,
        at,
        telegram,
    };
    Told::Event(address, event)
}

// The key in these bytes.
fn key_of(bytes: &[u8]) -> [u8; 16]
    requires { length bytes.now ≡ 16 }
    ensures { result ≡ bytes.now }
{
    let mut key = [0; 16];
    key.copy_from_slice(bytes);
    key
}

// What was told, by its kind, its number and its bytes.
fn told_again(kind: Kind, number: u64, bytes: &[u8]) -> Told
    requires { FitsKind kind bytes.now }
    ensures { result ≡ told_again kind number bytes.now }
{
    let meter = Address(number);
    match kind {
        Kind::HearA => hear_again(Format::A, number, bytes),
        Kind::HearB => hear_again(Format::B, number, bytes),
        Kind::Tick => Told::Event(meter, Event::Tick),
        Kind::Put => Told::Event(meter, Event::Put(Payload::new(bytes).unwrap())),
        Kind::Cancel => Told::Event(meter, Event::Cancel(BigEndian::read_u32(bytes))),
        Kind::Rekey => Told::Event(meter, Event::Rekey(key_of(bytes))),
        Kind::Unframed => Told::Unframed,
        Kind::Bad => Told::Bad,
    }
}

// Whose line it is, by its kind, its number and its bytes.
fn whose_again(kind: Kind, number: u64, bytes: &[u8]) -> Whose
    requires { FitsKind kind bytes.now }
    ensures { result ≡ whose_told (told_again kind number bytes.now) }
{
    match kind {
        Kind::HearA | Kind::HearB => Whose::Meter(target(&telegram_of(bytes))),
        Kind::Tick | Kind::Put | Kind::Cancel | Kind::Rekey => Whose::Meter(Address(number)),
        Kind::Unframed => Whose::Unframed,
        Kind::Bad => Whose::Bad,
    }
}

impl ToldLines {
    ghost use Rattle.std.specs.Prelude.{◌≡◌, ◌≤◌, [], ◌∷◌, ◌++◌, length, slice_get, option_map, Ok, IfOk, OnOk};
    ghost use Rattle.frame_formats.specs.Decoding.{decoded};
    ghost use Rattle.meter_slots.specs.Telling.{heard_in};
    ghost use Rattle.receivers.specs.Told.{told_by, told_by_event, told_of};

    /// No line, with room for so many lines and bytes.
    pub(crate) fn with_room(alloc: Global, lines: usize, bytes: usize) -> Result<ToldLines, Memory>
        ensures { IfOk result (λ told. told ≡ []) }
    {
        let lines = Vec::with_capacity(alloc, lines)?;
        let bytes = Vec::with_capacity(alloc, bytes)?;
        Ok(ToldLines { lines, bytes })
    }

    // Adds what is told by a kind, a number and bytes. There is no room behind more bytes than 32 bits count.
    fn add(&mut self, kind: Kind, number: u64, bytes: &[u8]) -> Result<(), Memory>
        requires fits { FitsKind kind bytes.now }
        requires few { length bytes.now ≤ 256 }
        ensures { OnOk result (self.new ≡ self.old ++ told_again kind number bytes.now ∷ []) }
    {
        let start = self.bytes.len();
        if start > u32::MAX as usize {
            return Err(Memory);
        }
        let width = width_of(number);
        let mut number_bytes = [0; 8];
        BigEndian::write_uint(&mut number_bytes, number, width);
        self.bytes.extend_from_slice(&number_bytes[..width])?;
        self.bytes.extend_from_slice(bytes)?;
        self.lines.push(KeptLine {
            start: start as u32,
            len: (width + bytes.len()) as u16,
            width: width as u8,
            kind,
        })?;
        Ok(())
    }

    // Adds a telegram that was heard at a moment.
    fn add_telegram(&mut self, format: Format, at: u64, telegram: &Telegram) -> Result<(), Memory>
        ensures { OnOk result (self.new ≡ self.old ++ told_by_event (heard_in format at (Ok telegram.now)) ∷ []) }
    {
        match format {
            Format::A => self.add(Kind::HearA, at, telegram.bytes()),
            Format::B => self.add(Kind::HearB, at, telegram.bytes()),
        }
    }

    // Adds what a frame tells that was heard at a moment.
    fn add_frame(&mut self, format: Format, at: u64, frame: &[u8]) -> Result<(), Memory>
        ensures { OnOk result (self.new ≡ self.old ++ told_by_event (heard_in format at (decoded format frame.now)) ∷ []) }
    {
        let mut telegram = Telegram::shortest();
        match decode(format, frame, &mut telegram) {
            Ok(()) => self.add_telegram(format, at, &telegram),
            Err(_) => self.add(Kind::Unframed, 0, &[]),
        }
    }

    // Adds what a line of the grammar tells.
    fn add_line(&mut self, line: &Line) -> Result<(), Memory>
        ensures { OnOk result (self.new ≡ self.old ++ told_by line.now ∷ []) }
    {
        match line {
            Line::Frame { format, at, bytes } => self.add_frame(*format, *at, bytes.bytes()),
            Line::Tick(address) => self.add(Kind::Tick, address.0, &[]),
            Line::Put(address, payload) => self.add(Kind::Put, address.0, payload.bytes()),
            Line::Cancel(address, id) => self.add(Kind::Cancel, address.0, &id.to_be_bytes()),
            Line::Key(address, key) => self.add(Kind::Rekey, address.0, key),
        }
    }

    /// Adds what a line's text tells.
    #[tactic(auto, unfolding(receivers::specs::Told::told_of))]
    pub(crate) fn add_text(&mut self, text: &[u8]) -> Result<(), Memory>
        ensures { OnOk result (self.new ≡ self.old ++ told_of text.now ∷ []) }
    {
        match read_line(text) {
            Ok(line) => self.add_line(&line),
            Err(_) => self.add(Kind::Bad, 0, &[]),
        }
    }

    /// How many lines there are.
    pub(crate) fn count(&self) -> usize
        ensures { result ≡ length self.now }
    {
        self.lines.len()
    }

    /// Whose the line at a place is; places are counted from 0.
    pub(crate) fn whose(&self, place: usize) -> Option<Whose>
        ensures { result ≡ option_map whose_told (slice_get self.now place) }
    {
        match self.lines.get(place) {
            None => None,
            Some(line) => {
                let part = part_of_line(self.bytes.as_slice(), line);
                let number = number_of(part, line.width);
                Some(whose_again(line.kind, number, bytes_of(part, line.width)))
            }
        }
    }

    /// What the line at a place told; places are counted from 0.
    pub(crate) fn at(&self, place: usize) -> Option<Told>
        ensures { result ≡ slice_get self.now place }
    {
        match self.lines.get(place) {
            None => None,
            Some(line) => {
                let part = part_of_line(self.bytes.as_slice(), line);
                let number = number_of(part, line.width);
                Some(told_again(line.kind, number, bytes_of(part, line.width)))
            }
        }
    }
}
