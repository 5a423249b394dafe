//! The lines of a made session, and what each receiver hears of them.
ghost use Rattle.std.specs.Prelude.{◌≡◌, ℕ, ◌+◌, ◌<◌, ◌≤◌, ◌++◌, ◌^◌, List, length, map, IfOk, OnOk};
ghost use Rattle.std.specs.List.{concat};
ghost use Rattle.paper.specs.Puts.{Puts};
ghost use Rattle.frame_lines.specs.Lines.{frame_line};
ghost use Rattle.made_input.specs.Lines.{telegram_of, line_at, rotated};
ghost use Rattle.made_input.specs.Runs.{lines_behind};

use crate::line_paper::written_line;
use crate::senders::Sender;
use crate::uplinks::{stranger, uplink};
use frame_formats::Telegram;
use frame_lines::put_frame_line;
use outer_io::Memory;
use paper::{Paper, Printed};
use std::alloc::Global;

// The telegram with this number: the meters and a stranger take turns.
fn telegram(meters: &[Sender], number: u32) -> Telegram
    requires few { length meters.now ≤ 1024 }
    requires counted { (0 < number) × (number < 2 ^ 31) }
    ensures { result ≡ telegram_of meters.now number }
{
    let turns = meters.len() as u32 + 1;
    let turn = (number - 1) % turns;
    let round = 1 + (number - 1) / turns;
    match meters.get(turn as usize) {
        Some(meter) => uplink(meter, round),
        None => stranger(number),
    }
}

// The line of a telegram, whose number is its moment.
#[derive(Drop)]
struct FrameLine<'a> {
    number: u32,
    telegram: &'a Telegram,
}

impl Printed for FrameLine<'_> {
    ghost text = { λ l. frame_line l.number l.telegram.now };

    fn print<P: Paper>(&self, paper: &mut P) {
        put_frame_line(paper, u64::from(self.number), self.telegram);
    }
}

fn line(alloc: Global, meters: &[Sender], number: u32) -> Result<Vec<u8>, Memory>
    requires few { length meters.now ≤ 1024 }
    requires counted { (0 < number) × (number < 2 ^ 31) }
    ensures { IfOk result (λ line. line.items ≡ line_at meters.now number) }
{
    let telegram = telegram(meters, number);
    written_line(
        alloc,
        &FrameLine {
            number,
            telegram: &telegram,
        },
    )
}

/// The lines of so many telegrams behind those before them.
pub(crate) fn lines(
    alloc: Global,
    meters: &[Sender],
    before: u32,
    count: u32,
) -> Result<Vec<Vec<u8>>, Memory>
    requires few { length meters.now ≤ 1024 }
    requires counted { before + count ≤ 16384 }
    ensures { IfOk result (λ lines. map (λ l. l.items) lines.items ≡ lines_behind meters.now before count) }
{
    let mut lines = Vec::with_capacity(alloc, count as usize)?;
    for place in 0..count {
        lines.push(line(alloc, meters, before + place + 1)?)?;
    }
    Ok(lines)
}

// Appends lines to a text.
fn append(text: &mut Vec<u8>, lines: &[Vec<u8>]) -> Result<(), Memory>
    ensures { OnOk result (text.new.items ≡ text.old.items ++ concat (map (λ l. l.items) lines.now)) }
{
    for line in lines {
        text.extend_from_slice(line)?;
    }
    Ok(())
}

/// Appends a group of lines, of which the one at a later place comes first.
pub(crate) fn append_rotated(text: &mut Vec<u8>, group: &[Vec<u8>], by: usize) -> Result<(), Memory>
    requires { 0 < length group.now }
    ensures { OnOk result (text.new.items ≡ text.old.items ++ concat (rotated by (map (λ l. l.items) group.now))) }
{
    let (before, from) = group.split_at(by % group.len());
    append(text, from)?;
    append(text, before)
}
