//! The answer to one line.
ghost use Rattle.std.specs.Prelude.{◌≡◌, Bool, Some, OnOk, codes};
ghost use Rattle.paper.specs.Puts.{Puts};
ghost use Rattle.usage_totals.specs.Requests.{edits, usages, totals, edit_read, request_read};
ghost use Rattle.usage_totals.specs.Texts.{meter_of};
ghost use Rattle.usage_totals.specs.Answering.{DoesEdit, Settles, PutsAnswer};

use crate::fault::TotalsFault;
use crate::request::{EditRead, RequestRead, Unread, read_request};
use crate::texts::{named_if, put_edit_answer, put_totals_answer, put_usages_answer};
use crate::totals::Totals;
use line_teller::{Sheet, Teller};
use meter_address::Address;
use outer_io::Memory;
use paper::{Paper, put_text};
use std::alloc::Global;

// Why the rows refuse an edit, if they do.
fn settled(answer: Result<(), TotalsFault>) -> Result<Option<TotalsFault>, Memory>
    ensures { Settles answer result }
{
    match answer {
        Ok(()) => Ok(None),
        Err(TotalsFault::Memory) => Err(Memory),
        Err(fault) => Ok(Some(fault)),
    }
}

// Does an edit, and answers why the rows refuse it, if they do.
fn do_edit(totals: &mut Totals, edit: &EditRead) -> Result<Option<TotalsFault>, Memory>
    ensures { DoesEdit (edit_read edit.now) totals.old result totals.new }
{
    match edit {
        EditRead::Add(address, payload) => settled(totals.add(*address, payload.as_slice())),
        EditRead::Replace(address, place, payload) => {
            settled(totals.replace(*address, *place, payload.as_slice()))
        }
        EditRead::Remove(address, place) => settled(totals.remove(*address, *place)),
    }
}

// The meter of an edit.
fn meter_of(edit: &EditRead) -> Address
    ensures { result ≡ meter_of (edit_read edit.now) }
{
    match edit {
        EditRead::Add(address, _) => *address,
        EditRead::Replace(address, _, _) => *address,
        EditRead::Remove(address, _) => *address,
    }
}

// Does an edit and puts its answer.
fn answer_edit(
    totals: &mut Totals,
    addressed: bool,
    edit: &EditRead,
    text: &mut Sheet,
) -> Result<(), Memory>
    ensures { OnOk result (PutsAnswer addressed (Some (edits (edit_read edit.now))) totals.old totals.new text.old text.new) }
{
    let fault = do_edit(totals, edit)?;
    put_edit_answer(text, named_if(addressed, meter_of(edit)), fault);
    Ok(())
}

// Puts the usages of a meter.
fn answer_usages(
    totals: &Totals,
    addressed: bool,
    address: Address,
    text: &mut Sheet,
) -> Result<(), Memory>
    ensures { OnOk result (PutsAnswer addressed (Some (usages address)) totals.now totals.now text.old text.new) }
{
    let keys = totals.keys()?;
    put_usages_answer(
        text,
        named_if(addressed, address),
        totals,
        address,
        keys.as_slice(),
    );
    Ok(())
}

// Puts the totals of all meters, whose answer names none.
fn answer_totals(rows: &Totals, text: &mut Sheet) -> Result<(), Memory>
    ensures { OnOk result ((addressed : Bool) → PutsAnswer addressed (Some totals) rows.now rows.now text.old text.new) }
{
    let keys = rows.keys()?;
    put_totals_answer(text, rows, keys.as_slice());
    Ok(())
}

// Does what a line asks for and puts the answer.
fn answer_request(
    totals: &mut Totals,
    addressed: bool,
    request: &RequestRead,
    text: &mut Sheet,
) -> Result<(), Memory>
    ensures { OnOk result (PutsAnswer addressed (Some (request_read request.now)) totals.old totals.new text.old text.new) }
{
    match request {
        RequestRead::Edits(edit) => answer_edit(totals, addressed, edit, text),
        RequestRead::Usages(address) => answer_usages(totals, addressed, *address, text),
        RequestRead::Totals => answer_totals(totals, text),
    }
}

// Puts that a line asks for nothing.
fn put_bad<P: Paper>(paper: &mut P)
    ensures { Puts P.takes paper.old (codes "bad\n") paper.new }
{
    put_text(paper, "bad\n");
}

/// Answers lines over the rows that those before them left.
#[derive(Drop)]
pub(crate) struct Answerer {
    /// The rows.
    pub(crate) totals: Totals,
    /// Whether each answer has the address of its meter in it.
    pub(crate) addressed: bool,
}

impl Teller for Answerer {
    ghost use Rattle.usage_totals.specs.Answering.{AnswersLine};

    ghost longest = { 7774 };

    ghost tells = { AnswersLine };

    fn tell(
        &mut self,
        alloc: Global,
        _number: u32,
        line: &[u8],
        text: &mut Sheet,
        _note: &mut Sheet,
    ) -> Result<(), Memory> {
        match read_request(alloc, line) {
            Ok(request) => answer_request(&mut self.totals, self.addressed, &request, text),
            Err(Unread::Bad) => {
                put_bad(text);
                Ok(())
            }
            Err(Unread::Memory) => Err(Memory),
        }
    }

    fn tell_long(&mut self, _number: u32, text: &mut Sheet, _note: &mut Sheet) {
        put_bad(text);
    }
}
