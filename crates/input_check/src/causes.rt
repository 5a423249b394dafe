//! What is wrong, in words, and what to do.
ghost use Rattle.std.specs.Prelude.{◌≡◌};
ghost use Rattle.paper.specs.Puts.{Puts};
ghost use Rattle.input_check.specs.Causes.{roster_words, meter_words, state_words, bad_words, frame_words, line_words};

use crate::faulty::LineFault;
use crate::pieces::{put_between, put_between_two};
use frame_formats::FrameFault;
use line_reader::BadLine;
use paper::{Paper, put_text};
use roster_file::LineCause;
use state_file::{FileCause, StateCause};

/// What is wrong with a line of a roster.
pub(crate) fn roster_words(cause: LineCause) -> &'static str
    ensures { result.now ≡ roster_words cause }
{
    match cause {
        LineCause::TooLong => "the roster has more than 1,048,576 bytes: split it",
        LineCause::Head =>
            "the first line is neither `wmbus-roster 2` nor `wmbus-roster 1`: write the former in its place, or in a state `wmbus-state 1`",
        LineCause::Own =>
            "this isn't `own` and an address: write the line `own ADDRESS` behind the first one",
        LineCause::Kind => "the line doesn't begin with `meter`: a comment begins with #",
        LineCause::Fields =>
            "the line hasn't the fields of the head's version, eight in version 2, with just one space between two of them",
        LineCause::Address =>
            "the address isn't sixteen hexadecimal digits: meter_name makes it of what the label says",
        LineCause::Mode => "the security mode is neither 5 nor 7",
        LineCause::Key => "the key isn't 32 hexadecimal digits",
        LineCause::Other =>
            "the second key is neither - nor 32 hexadecimal digits, or the mode is 5, which has none",
        LineCause::Last =>
            "the last counter is neither - nor a plain number, below 256 in mode 5 and below 4294967296 in mode 7",
        LineCause::Down => "the last downlink counter isn't a plain number below 4294967296",
        LineCause::Ids => "the last command id isn't a plain number below 4294967296",
        LineCause::Same => "an earlier line has this address: keep one of the two",
        LineCause::TooMany => "there are 4,096 meters before it: split the roster",
        LineCause::Missing => "the head or the line `own ADDRESS` is missing",
    }
}

// What is wrong with a line below a meter's line.
fn meter_words(cause: StateCause) -> &'static str
    ensures { result.now ≡ meter_words cause }
{
    match cause {
        StateCause::Kind =>
            "the line begins with none of `meter`, `reading`, `part`, `tick`, `waits` and `command`, and isn't `end` alone: a comment begins with #",
        StateCause::Fields =>
            "the line hasn't the fields that its first one asks for, with just one space between two of them",
        StateCause::Twice => "the meter has a reading above it: keep the later one",
        StateCause::At => "the moment isn't a plain number below 18446744073709551616",
        StateCause::Counter => "the counter isn't a plain number below 4294967296",
        StateCause::Payload =>
            "the payload isn't hexadecimal digits of at most 4,096 bytes in a reading, or of 1 to 94 bytes in a command",
        StateCause::Part =>
            "the bytes are no fragment of a message: take the line away, since the meter sends its message again",
        StateCause::Id => "the id isn't a plain number below 4294967296",
        StateCause::Tries => "how often the command was sent isn't 0, 1, 2 or 3",
        StateCause::Command =>
            "the command can't stand here: eight wait at most, their ids rise up to that of the meter's line, and the oldest alone was sent",
    }
}

/// What is wrong with a line of a state.
pub(crate) fn state_words(cause: FileCause) -> &'static str
    ensures { result.now ≡ state_words cause }
{
    match cause {
        FileCause::Roster(LineCause::Fields) =>
            "the line hasn't eight fields with just one space between two of them",
        FileCause::Roster(LineCause::Same) =>
            "an earlier meter has this address: keep one of the two, with the lines below it",
        FileCause::Roster(LineCause::TooMany) =>
            "there are 4,096 meters before it: split the state",
        FileCause::Roster(LineCause::Missing) =>
            "the line `own ADDRESS` or the line `end` is missing: the state was cut short, so take the last one that is whole",
        FileCause::Roster(cause) => roster_words(cause),
        FileCause::Meter(cause) => meter_words(cause),
        FileCause::Place =>
            "no `meter` line that is right stands above it: mend that one, or put this one below its meter's",
        FileCause::Behind => "it stands behind the `end`: put it in front of it, or take it away",
    }
}

// Puts why a receiver's line says nothing.
fn put_bad_words<P: Paper>(paper: &mut P, bad: BadLine)
    ensures { Puts P.takes paper.old (bad_words bad) paper.new }
{
    match bad {
        BadLine::TooLong => put_text(paper, "the line has more than 1,024 bytes"),
        BadLine::Word => put_text(
            paper,
            "the line begins with none of A, B, T, Q, X and K and a space: a tab is no space, \
             a byte order mark in front of the first line is none either, \
             and a receiver's own output has to be turned into such lines first",
        ),
        BadLine::Fields => put_text(
            paper,
            "the line hasn't as many fields as its first one asks for, with just one space between two of them",
        ),
        BadLine::Number => put_text(
            paper,
            "the moment or the id is no plain decimal number of its range",
        ),
        BadLine::Address => put_text(
            paper,
            "the address isn't sixteen hexadecimal digits: meter_name makes it of what the label says",
        ),
        BadLine::Hex => put_text(
            paper,
            "the bytes aren't an even number of hexadecimal digits: the line is cut short, or has other letters in it",
        ),
        BadLine::Payload(count) => put_between(
            paper,
            "the command has a payload of ",
            count as u64,
            " bytes, where it has 1 to 94",
        ),
        BadLine::Key => put_text(paper, "the key isn't 32 hexadecimal digits"),
    }
}

// Puts why bytes are no frame.
fn put_frame_words<P: Paper>(paper: &mut P, fault: FrameFault)
    ensures { Puts P.takes paper.old (frame_words fault) paper.new }
{
    match fault {
        FrameFault::Empty => put_text(paper, "the frame has no bytes"),
        FrameFault::Short(l) => put_between(
            paper,
            "the first byte of the frame, L, is ",
            l as u64,
            ", below the least of its format: the bytes are no frame, or their beginning is missing",
        ),
        FrameFault::Gap(l) => put_between(
            paper,
            "the first byte of the frame, L, is ",
            l as u64,
            ", which format B leaves out: the bytes are no frame, or one of format A",
        ),
        FrameFault::Length { want, have } => put_between_two(
            paper,
            "the frame has to have ",
            want as u64,
            " bytes by its L, and has ",
            have as u64,
            ": it is cut short, of the other format, or without its CRCs",
        ),
        FrameFault::Crc(block) => put_between(
            paper,
            "the CRC of block ",
            block as u64,
            " differs: the frame was heard wrongly, or has no CRCs any more",
        ),
    }
}

/// Puts what is wrong with a receiver's line.
pub(crate) fn put_line_words<P: Paper>(paper: &mut P, fault: LineFault)
    ensures { Puts P.takes paper.old (line_words fault) paper.new }
{
    match fault {
        LineFault::Bad(bad) => put_bad_words(paper, bad),
        LineFault::Unframed(fault) => put_frame_words(paper, fault),
    }
}
