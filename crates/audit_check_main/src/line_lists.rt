//! Reading the lists of a report.
ghost use Rattle.std.specs.Prelude.{◌≡◌, ◌<◌, ◌≤◌, ◌^◌, [], ◌∷◌, ◌++◌, List, ℕ, false, true};
ghost use Rattle.std.specs.Prelude.{length, reverse, Err, IfOk, IfErr, OnOk, OnErr};
ghost use Rattle.report_text.specs.Orders.{lines_in, orders};
ghost use Rattle.audit_check_main.specs.Lists.{is_meter, is_strangers, is_step, is_stranger, AreInForm, IsFirstFaulty, lists_printed};
ghost use Rattle.audit_check_main.specs.Reading.{onto_last};

use crate::printed::{Order, read_pair};
use crate::report_lines::ReportLines;
use outer_io::Memory;
use std::alloc::Global;
use std::marker::Model;

/// Which list the latest heading opens.
#[derive(Clone, Copy)]
pub enum Open {
    /// None: no heading stands above.
    Nothing,
    /// The last one of a meter.
    Meter,
    /// That of the strangers.
    Strangers,
}

/// Why a report gives no lists.
#[derive(Clone, Copy)]
pub(crate) enum ListsFault {
    /// The first line that is out of form, from 1.
    Form(u32),
    /// There is no memory for the lists.
    Memory,
}

// Why a line isn't taken.
#[derive(Clone, Copy)]
enum Stop {
    Form,
    Memory,
}

fn is_meter(line: &[u8]) -> bool
    ensures { result ≡ is_meter line.now }
{
    line.starts_with(b"meter ")
}

fn is_strangers(line: &[u8]) -> bool
    ensures { result ≡ is_strangers line.now }
{
    line.starts_with(b"strangers ")
}

fn is_step(line: &[u8]) -> bool
    ensures { result ≡ is_step line.now }
{
    line.starts_with(b"step ")
}

fn is_stranger(line: &[u8]) -> bool
    ensures { result ≡ is_stranger line.now }
{
    line.starts_with(b"stranger ")
}

// The lists of the lines that were read.
#[derive(Drop)]
struct Lists {
    meters: Vec<Order>,
    strangers: Order,
    opened: Open,
}

impl Model for Lists {
    ghost use Rattle.audit_check_main.specs.Reading.{ListsRead};

    ghost Value = { ListsRead };

    ghost view = { λ l. record { meters = l.meters.items; strangers = l.strangers; open_list = l.opened } };
}

// Adds a pair to the last one of some lists. For want of memory nothing changes.
fn add_to_last(lists: &mut Vec<Order>, pair: (u32, u32)) -> Result<(), Memory>
    ensures ok { OnOk result (lists.new.items ≡ onto_last lists.old.items (pair ∷ [])) }
{
    let count = lists.len();
    if count == 0 {
        return Ok(());
    }
    let last = &mut lists[count - 1];
    last.push(pair)
}

impl Lists {
    ghost use Rattle.std.specs.Prelude.{◌≡◌, ◌≤◌, ◌<◌, ◌&&◌, false, true, [], ◌∷◌, ◌++◌, List, ℕ, length, Err, Some, is_some, OnOk, IfOk};
    ghost use Rattle.audit_check_main.specs.Lists.{is_faulty, as_many, is_meters, is_of_strangers, pair_of};
    ghost use Rattle.audit_check_main.specs.Reading.{onto_last, StandsFor, TakesStep, TakesStranger};

    // Nothing was read yet.
    fn new(alloc: Global) -> Lists
        ensures { result ≡ record { meters = []; strangers = []; open_list = Open.Nothing } }
    {
        Lists {
            meters: Vec::new(alloc),
            strangers: Order::new(alloc),
            opened: Open::Nothing,
        }
    }

    // Takes the heading of one more meter, where there are more than stand above.
    fn open_meter(&mut self, alloc: Global, most: usize) -> Result<(), Stop>
        ensures room { OnOk result (length self.old.meters < most) }
        ensures ok { OnOk result (self.new ≡ record self.old { meters = self.old.meters ++ [] ∷ []; open_list = Open.Meter }) }
        ensures form { result ≡ Err Stop.Form → most ≤ length self.old.meters }
    {
        if self.meters.len() >= most {
            return Err(Stop::Form);
        }
        if self.meters.push(Order::new(alloc)).is_err() {
            return Err(Stop::Memory);
        }
        self.opened = Open::Meter;
        Ok(())
    }

    // Takes the heading of the strangers.
    fn open_strangers(&mut self)
        ensures { self.new ≡ record self.old { open_list = Open.Strangers } }
    {
        self.opened = Open::Strangers;
    }

    // Takes a step of the open meter.
    fn add_step(&mut self, line: &[u8]) -> Result<(), Stop>
        ensures ok { OnOk result (TakesStep line.now self.old self.new) }
        ensures form { result ≡ Err Stop.Form → (is_meters self.old.open_list && is_some (pair_of line.now)) ≡ false }
    {
        let (Open::Meter, Some(pair)) = (self.opened, read_pair(line)) else {
            return Err(Stop::Form);
        };
        if add_to_last(&mut self.meters, pair).is_err() {
            return Err(Stop::Memory);
        }
        Ok(())
    }

    // Takes a stranger's line.
    fn add_stranger(&mut self, line: &[u8]) -> Result<(), Stop>
        ensures ok { OnOk result (TakesStranger line.now self.old self.new) }
        ensures form { result ≡ Err Stop.Form → (is_of_strangers self.old.open_list && is_some (pair_of line.now)) ≡ false }
    {
        let (Open::Strangers, Some(pair)) = (self.opened, read_pair(line)) else {
            return Err(Stop::Form);
        };
        if self.strangers.push(pair).is_err() {
            return Err(Stop::Memory);
        }
        Ok(())
    }

    // Takes a line.
    fn take_line(&mut self, alloc: Global, most: usize, line: &[u8]) -> Result<(), Stop>
        ensures in_form { OnOk result ((above : List (List ℕ)) → StandsFor above self.old → is_faulty most above line.now ≡ false) }
        ensures taken { OnOk result ((above : List (List ℕ)) → StandsFor above self.old → StandsFor (line.now ∷ above) self.new) }
        ensures form { result ≡ Err Stop.Form → (above : List (List ℕ)) → StandsFor above self.old → is_faulty most above line.now ≡ true }
    {
        if is_meter(line) {
            return self.open_meter(alloc, most);
        }
        if is_strangers(line) {
            self.open_strangers();
            return Ok(());
        }
        if is_step(line) {
            return self.add_step(line);
        }
        if is_stranger(line) {
            return self.add_stranger(line);
        }
        Ok(())
    }

    // All lists: as many as there are meters, and that of the strangers.
    fn into_all(self, alloc: Global, meters: usize) -> Result<Vec<Order>, Memory>
        requires { length self.meters ≤ meters }
        ensures { IfOk result (λ all. all.items ≡ as_many meters self.meters ++ self.strangers ∷ []) }
    {
        let Lists {
            meters: mut all,
            strangers,
            opened: _,
        } = self;
        'lists: while all.len() < meters {
            all.push(Order::new(alloc))?;
        }
        all.push(strangers)?;
        Ok(all)
    }
}

/// The lists of a report for so many meters, and behind them that of the strangers, or its first line that is out of form.
pub(crate) fn read_lists(
    alloc: Global,
    report: &[u8],
    meters: usize,
) -> Result<Vec<Order>, ListsFault>
    requires { length (lines_in report.now) < 2 ^ 32 }
    ensures in_form { OnOk result (AreInForm meters (reverse (lines_in report.now))) }
    ensures lists { IfOk result (λ lists. lists.items ≡ lists_printed meters (orders report.now)) }
    ensures form { (number : ℕ) → result ≡ Err (ListsFault.Form number) → IsFirstFaulty meters (lines_in report.now) number }
{
    let mut lists = Lists::new(alloc);
    let mut number = 0u32;
    let mut lines = ReportLines::of_text(report);
    'lines: while let Some(line) = lines.next() {
        number += 1;
        match lists.take_line(alloc, meters, line) {
            Ok(()) => {}
            Err(Stop::Form) => return Err(ListsFault::Form(number)),
            Err(Stop::Memory) => return Err(ListsFault::Memory),
        }
    }
    match lists.into_all(alloc, meters) {
        Ok(all) => Ok(all),
        Err(_) => Err(ListsFault::Memory),
    }
}
