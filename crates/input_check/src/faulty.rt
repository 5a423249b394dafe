//! The faulty ones of a receiver's lines.
ghost use Rattle.std.specs.Prelude.{◌≡◌, Ok};
ghost use Rattle.frame_formats.specs.Decoding.{decoded};
ghost use Rattle.input_check.specs.Faulty.{looked_at_frame, looked_at};

use frame_formats::{Format, FrameFault, Telegram, decode};
use line_reader::{BadLine, Line};
use message_check::target;
use meter_address::Address;
use outer_io::Memory;
use std::alloc::Global;

/// How many faulty lines of a receiver are shown.
pub const MOST_SHOWN: usize = 100;

/// What is wrong with a line.
#[derive(Clone, Copy)]
pub enum LineFault {
    /// It says nothing, and why.
    Bad(BadLine),
    /// Its bytes are no frame, and why.
    Unframed(FrameFault),
}

/// A faulty line.
#[derive(Clone, Copy)]
pub struct FaultyLine {
    /// Its number, from 1.
    pub line: u32,
    /// What is wrong with it: the first fault that applies.
    pub fault: LineFault,
}

// The meter that a frame is for, or why its bytes are none.
fn look_at_frame(format: Format, bytes: &[u8]) -> Result<Option<Address>, LineFault>
    ensures { result ≡ looked_at_frame (decoded format bytes.now) }
{
    let mut telegram = Telegram::shortest();
    match decode(format, bytes, &mut telegram) {
        Ok(()) => Ok(Some(target(&telegram))),
        Err(fault) => Err(LineFault::Unframed(fault)),
    }
}

/// The meter that the frame of a line that says this is for, if it has a frame, or why its frame is none.
pub(crate) fn look_at_line(line: &Line) -> Result<Option<Address>, LineFault>
    ensures { result ≡ looked_at (Ok line.now) }
{
    match line {
        Line::Frame { format, bytes, .. } => look_at_frame(*format, bytes.bytes()),
        _ => Ok(None),
    }
}

/// What the lines of a receiver come to.
#[derive(Drop)]
pub struct FaultyLines {
    /// The first `MOST_SHOWN` faulty lines, in order.
    pub first: Vec<FaultyLine>,
    /// How many lines are faulty.
    pub count: u32,
    /// The meters that the frames of the others are for, one for each frame.
    pub heard: Vec<Address>,
}

impl FaultyLines {
    ghost use Rattle.std.specs.Prelude.{◌≡◌, ◌++◌, ◌+◌, ◌≤◌, [], List, IfOk};
    ghost use Rattle.meter_address.specs.declared.address.Address.{Address};
    ghost use Rattle.input_check.specs.Faulty.{numbered, heard_of};
    ghost use Rattle.input_check.specs.Finding.{Holds};
    ghost use Rattle.input_check.specs.declared.faulty.FaultyLine.{FaultyLine};

    /// No lines.
    pub(crate) fn none(alloc: Global) -> FaultyLines
        ensures { Holds [] [] result }
    {
        FaultyLines {
            first: Vec::new(alloc),
            count: 0,
            heard: Vec::new(alloc),
        }
    }

    /// Adds a line.
    pub(crate) fn add(
        &mut self,
        line: u32,
        looked: Result<Option<Address>, LineFault>,
    ) -> Result<(), Memory>
        requires { self.old.count ≤ 131072 }
        ensures holds { IfOk result (λ _. (faults : List FaultyLine) (addresses : List Address) → Holds faults addresses self.old →
            Holds (faults ++ numbered line looked) (addresses ++ heard_of looked) self.new) }
        ensures few { self.new.count ≤ self.old.count + 1 }
    {
        let fault = match looked {
            Ok(None) => return Ok(()),
            Ok(Some(address)) => {
                self.heard.push(address)?;
                return Ok(());
            }
            Err(fault) => fault,
        };
        if self.first.len() >= MOST_SHOWN {
            self.count += 1;
            return Ok(());
        }
        self.first.push(FaultyLine { line, fault })?;
        self.count += 1;
        Ok(())
    }
}
