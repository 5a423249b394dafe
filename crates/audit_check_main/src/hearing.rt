//! What an input tells.
ghost use Rattle.std.specs.Prelude.{◌≡◌, ◌≤◌, ◌<◌, ◌^◌, ◌+◌, ◌==◌, [], ◌∷◌, ◌++◌, false, count_by};
ghost use Rattle.std.specs.Prelude.{length, map, vec_len, slice_set, slice_index_or, IfOk, OnOk};
ghost use Rattle.std.specs.List.{position_or_len};
ghost use Rattle.line_reader.specs.Lines.{is_over};
ghost use Rattle.meter_address.specs.Address.{AreApart};
ghost use Rattle.lists.specs.Each.{Each};
ghost use Rattle.receivers.specs.Classes.{is_own, is_strange, is_unframed, is_bad};
ghost use Rattle.audit_check_main.specs.Hearing.{class_in, counts_in, heard_input, list_in, noted, sort_by};

use crate::input::Input;
use crate::whose::Whose;
use meter_address::Address;
use meter_directory::Directory;
use meter_slots::{Counts, MeterStart};
use outer_io::Memory;
use receivers::{Class, Told};
use std::alloc::Global;
use std::marker::Model;

/// The numbers of some lines, in their order.
#[derive(Drop)]
pub(crate) struct LineNumbers {
    numbers: Vec<u32>,
}

impl Model for LineNumbers {
    ghost use Rattle.std.specs.Prelude.{List, ℕ};

    ghost Value = { List ℕ };

    ghost view = { λ n. n.numbers.items };
}

impl LineNumbers {
    ghost use Rattle.std.specs.Prelude.{◌≡◌, [], ◌∷◌, ◌++◌, slice_get, OnOk, OnErr};

    fn new(alloc: Global) -> LineNumbers
        ensures { result ≡ [] }
    {
        LineNumbers {
            numbers: Vec::new(alloc),
        }
    }

    // Adds a number. For want of memory nothing changes.
    fn push(&mut self, number: u32) -> Result<(), Memory>
        ensures ok { OnOk result (self.new ≡ self.old ++ number ∷ []) }
        ensures err { OnErr result (self.new ≡ self.old) }
    {
        self.numbers.push(number)?;
        Ok(())
    }

    /// The numbers.
    pub(crate) fn numbers(&self) -> &[u32]
        ensures { result.now ≡ self.now }
    {
        self.numbers.as_slice()
    }
}

/// What a line of an input is.
#[derive(Clone, Copy)]
pub enum Sort {
    /// One of the list with this number: that of a meter, or the strangers' behind those of all meters.
    Listed(usize),
    /// Bytes that are no frame.
    Unframed,
    /// One outside the grammar.
    Bad,
}

/// An input within the limits, the numbers of its lines for each list, and its counts.
#[derive(Drop)]
pub(crate) struct Hearing<'a> {
    input: &'a Input,
    lists: Vec<LineNumbers>,
    counts: Counts,
}

// A contract sees the lines in place of the input.
impl<'a> Model for Hearing<'a> {
    ghost use Rattle.std.specs.Prelude.{◌≡◌, false};
    ghost use Rattle.std.specs.Str.Lines.{lines};
    ghost use Rattle.line_reader.specs.Lines.{is_over};
    ghost use Rattle.audit_check_main.specs.Hearing.{HeardInput};

    ghost Value = { HeardInput };

    ghost view = { λ h. record { lines = lines h.input.now; lists = h.lists.items; counts = h.counts } };

    ghost invariant = { λ h. is_over h.input.now ≡ false };
}

impl<'a> Hearing<'a> {
    ghost use Rattle.std.specs.Prelude.{◌≡◌, ◌-◌, [], length, slice_get, slice_index_or};
    ghost use Rattle.audit_check_main.specs.Hearing.{told_by_text};

    /// How many lines it has.
    pub(crate) fn counts(&self) -> Counts
        ensures { result ≡ self.now.counts }
    {
        self.counts
    }

    /// The numbers of its lines for a list: none where there is no such list.
    pub(crate) fn numbers(&self, list: usize) -> &[u32]
        ensures { result.now ≡ slice_index_or self.now.lists list [] }
    {
        match self.lists.get(list) {
            None => &[],
            Some(numbers) => numbers.numbers(),
        }
    }

    /// What a line tells; lines are numbered from 1.
    pub(crate) fn told_at(&self, line: u32) -> Told
        ensures { result ≡ told_by_text (slice_get self.now.lines (line - 1)) }
    {
        self.input.told_at(line.saturating_sub(1) as usize)
    }
}

// Adds a number to the list at a place. For want of memory nothing changes.
fn add_at(lists: &mut Vec<LineNumbers>, place: usize, number: u32) -> Result<(), Memory>
    requires { place < vec_len lists.old }
    ensures { OnOk result (lists.new.items
        ≡ slice_set lists.old.items place (slice_index_or lists.old.items place [] ++ number ∷ [])) }
{
    let list = &mut lists[place];
    list.push(number)
}

// An empty list for each meter.
fn empty_lists_of(alloc: Global, meters: &[MeterStart]) -> Result<Vec<LineNumbers>, Memory>
    ensures { IfOk result (λ lists. lists.items ≡ map (λ c. []) meters.now) }
{
    let lists = meters
        .iter()
        .map(|_| LineNumbers::new(alloc))
        .collect(alloc)?;
    Ok(lists)
}

// An empty list for each meter, and one for the strangers.
fn empty_lists(alloc: Global, meters: &[MeterStart]) -> Result<Vec<LineNumbers>, Memory>
    ensures { IfOk result (λ lists. lists.items ≡ map (λ c. []) meters.now ++ [] ∷ []) }
{
    let mut lists = empty_lists_of(alloc, meters)?;
    lists.push(LineNumbers::new(alloc))?;
    Ok(lists)
}

/// The list of an address: that of the meter with this address, or the strangers' behind those of all meters.
pub(crate) fn list_of(meters: &[MeterStart], directory: &Directory, address: Address) -> usize
    requires { directory.now ≡ map (λ c. c.address) meters.now }
    ensures { result ≡ position_or_len (λ a. a.0 == address.0) directory.now }
{
    match directory.find(address) {
        Some(place) => place as usize,
        None => meters.len(),
    }
}

// What a line is by whose it is.
fn sort_of(meters: &[MeterStart], directory: &Directory, whose: Whose) -> Sort
    requires { directory.now ≡ map (λ c. c.address) meters.now }
    ensures { result ≡ sort_by directory.now whose }
{
    match whose {
        Whose::Meter(address) => Sort::Listed(list_of(meters, directory, address)),
        Whose::Unframed => Sort::Unframed,
        Whose::Bad => Sort::Bad,
    }
}

// The class of the lines of a list.
fn class_of_list(meters: &[MeterStart], list: usize) -> Class
    ensures { result ≡ class_in (length meters.now) (Sort.Listed list) }
{
    if list < meters.len() {
        Class::Own
    } else {
        Class::Strange
    }
}

// Notes a line of a sort in the lists, and answers its class.
fn note(
    meters: &[MeterStart],
    lists: &mut Vec<LineNumbers>,
    line: u32,
    sort: Sort,
) -> Result<Class, Memory>
    requires within { list_in sort ≤ length meters.now }
    requires lists { vec_len lists.old ≡ length meters.now + 1 }
    ensures class { IfOk result (λ class. class ≡ class_in (length meters.now) sort) }
    ensures lists { OnOk result (lists.new.items ≡ noted sort line lists.old.items) }
{
    match sort {
        Sort::Listed(list) => {
            add_at(lists, list, line)?;
            Ok(class_of_list(meters, list))
        }
        Sort::Unframed => Ok(Class::Unframed),
        Sort::Bad => Ok(Class::Bad),
    }
}

fn count_own(classes: &[Class]) -> usize
    ensures value { result ≡ count_by is_own classes.now }
    ensures few { result ≤ length classes.now }
{
    classes.iter().filter(|c| matches!(c, Class::Own)).count()
}

fn count_strange(classes: &[Class]) -> usize
    ensures value { result ≡ count_by is_strange classes.now }
    ensures few { result ≤ length classes.now }
{
    classes
        .iter()
        .filter(|c| matches!(c, Class::Strange))
        .count()
}

fn count_unframed(classes: &[Class]) -> usize
    ensures value { result ≡ count_by is_unframed classes.now }
    ensures few { result ≤ length classes.now }
{
    classes
        .iter()
        .filter(|c| matches!(c, Class::Unframed))
        .count()
}

fn count_bad(classes: &[Class]) -> usize
    ensures value { result ≡ count_by is_bad classes.now }
    ensures few { result ≤ length classes.now }
{
    classes.iter().filter(|c| matches!(c, Class::Bad)).count()
}

// How many of some lines are in each class.
fn counts_of(classes: &[Class]) -> Counts
    requires { length classes.now < 2 ^ 32 }
    ensures { result ≡ counts_in classes.now }
{
    Counts {
        lines: classes.len() as u32,
        own: count_own(classes) as u32,
        strangers: count_strange(classes) as u32,
        unframed: count_unframed(classes) as u32,
        bad: count_bad(classes) as u32,
    }
}

// What an input within the limits is heard to be.
fn hear<'a>(
    alloc: Global,
    meters: &[MeterStart],
    directory: &Directory,
    input: &'a Input,
) -> Result<Hearing<'a>, Memory>
    requires directory { directory.now ≡ map (λ c. c.address) meters.now }
    requires apart { AreApart directory.now }
    requires within { is_over input.now ≡ false }
    ensures { IfOk result (λ h. h ≡ heard_input meters.now input.now) }
{
    let mut lists = empty_lists(alloc, meters)?;
    let mut classes = Vec::new(alloc);
    for place in 0..input.line_count() {
        let sort = sort_of(meters, directory, input.whose_at(place));
        classes.push(note(meters, &mut lists, place as u32 + 1, sort)?)?;
    }
    Ok(Hearing {
        input,
        lists,
        counts: counts_of(classes.as_slice()),
    })
}

/// What all inputs are heard to be.
pub(crate) fn hear_all<'a>(
    alloc: Global,
    meters: &[MeterStart],
    directory: &Directory,
    inputs: &'a [Input],
) -> Result<Vec<Hearing<'a>>, Memory>
    requires directory { directory.now ≡ map (λ c. c.address) meters.now }
    requires apart { AreApart directory.now }
    requires within { Each (λ input. is_over input ≡ false) inputs.now }
    ensures { IfOk result (λ heard. heard.items ≡ map (heard_input meters.now) inputs.now) }
{
    let mut heard = Vec::new(alloc);
    for input in inputs {
        heard.push(hear(alloc, meters, directory, input)?)?;
    }
    Ok(heard)
}
