//! What is told of a line.
ghost use Rattle.std.specs.Prelude.{IfOk};
ghost use Rattle.steps_main.specs.Telling.{PutsEvent, PutsSaid};

use crate::counting::{counted, no_counts};
use line_reader::BadLine;
use line_teller::{Sheet, Teller};
use meter_address::Address;
use meter_slots::{Event, MeterStart};
use meter_worlds::PassingWorld;
use outer_io::Memory;
use receivers::{Class, Counts};
use std::alloc::Global;
use step_text::{Said, put_bad_line, put_step_line, put_stranger_line, put_unframed_line, said_of};

/// The most bytes of a line, without its end, that is looked at: a longer one is outside the grammar.
pub const LINE_MAX: usize = line_reader::LINE_MAX;

// An event for a meter: what its slot answers, or that there is none, and which class its line has.
fn tell_event(
    world: &mut PassingWorld,
    number: u32,
    address: Address,
    event: &Event,
    text: &mut Sheet,
) -> Result<Class, Memory>
    ensures { IfOk result (λ class. PutsEvent number address event.now world.old world.new class text.old text.new) }
{
    let answer = world.step(address, event)?;
    match answer {
        None => {
            put_stranger_line(text, number, address, event);
            Ok(Class::Strange)
        }
        Some((place, served)) => {
            put_step_line(text, number, address, event, &served);
            world.keep(place, served.reading);
            Ok(Class::Own)
        }
    }
}

// What a line says, and which class it has.
fn tell_said(
    world: &mut PassingWorld,
    number: u32,
    said: &Said,
    text: &mut Sheet,
) -> Result<Class, Memory>
    ensures { IfOk result (λ class. PutsSaid number said.now world.old world.new class text.old text.new) }
{
    match said {
        Said::Event(address, event) => {
            let class = tell_event(world, number, *address, event, text)?;
            Ok(class)
        }
        Said::Unframed(fault) => {
            put_unframed_line(text, number, *fault);
            Ok(Class::Unframed)
        }
        Said::Bad(bad) => {
            put_bad_line(text, number, *bad);
            Ok(Class::Bad)
        }
    }
}

/// Tells a receiver's lines: what each says, and what its meter answers.
#[derive(Drop)]
pub(crate) struct Stepper {
    /// The meters' slots.
    pub(crate) world: PassingWorld,
    /// How many lines were told, and how many of each class.
    pub(crate) counts: Counts,
}

impl Stepper {
    ghost use Rattle.std.specs.Prelude.{◌<◌, ◌^◌, length, map, IfOk};
    ghost use Rattle.meter_address.specs.Address.{AreApart};
    ghost use Rattle.steps_main.specs.Telling.{IsFresh};

    /// No line yet, of the meters of which this is known. Their addresses differ.
    pub(crate) fn new(
        alloc: Global,
        own: Address,
        starts: Vec<MeterStart>,
    ) -> Result<Stepper, Memory>
        requires apart { AreApart (map (λ c. c.address) starts.items) }
        requires few { length starts.items < 2 ^ 32 }
        ensures { IfOk result (λ stepper. IsFresh own starts.items stepper) }
    {
        Ok(Stepper {
            world: PassingWorld::new(alloc, own, starts)?,
            counts: no_counts(),
        })
    }
}

impl Teller for Stepper {
    ghost use Rattle.steps_main.specs.Telling.{TellsLine};

    ghost longest = { 1024 };

    ghost tells = { TellsLine };

    fn tell(
        &mut self,
        _alloc: Global,
        number: u32,
        line: &[u8],
        text: &mut Sheet,
        _note: &mut Sheet,
    ) -> Result<(), Memory> {
        let class = tell_said(&mut self.world, number, &said_of(line), text)?;
        self.counts = counted(self.counts, class);
        Ok(())
    }

    fn tell_long(&mut self, number: u32, text: &mut Sheet, _note: &mut Sheet) {
        put_bad_line(text, number, BadLine::TooLong);
        self.counts = counted(self.counts, Class::Bad);
    }
}
