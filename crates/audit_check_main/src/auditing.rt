//! The audit.
ghost use Rattle.std.specs.Prelude.{◌≡◌, ◌<◌, ◌≤◌, ◌+◌, ◌^◌, List, ℕ, false, true, length, map, Ok, Err, IfOk, MatchOption, option_copied};
ghost use Rattle.lists.specs.Each.{Each, IsFirst};
ghost use Rattle.line_reader.specs.Lines.{is_over};
ghost use Rattle.report_text.specs.Orders.{lines_in};
ghost use Rattle.audit_check_main.specs.Audit.{IsVerdict};
ghost use Rattle.meter_address.specs.Address.{AreApart};
ghost use Rattle.audit_check_main.specs.Auditing.{AreListsRead, IsCompared, IsNextSoFar, IsStepped, IsVerdictBy};
ghost use Rattle.audit_check_main.specs.Comparing.{IsSoFar};
ghost use Rattle.audit_check_main.specs.Stepping.{AreOrders};
ghost use Rattle.audit_check_main.specs.declared.verdict.Verdict.{Verdict};

use crate::comparing::Comparing;
use crate::hearing::{Hearing, hear_all};
use crate::input::Input;
use crate::leaving::{next_paper, next_verdict};
use crate::line_lists::{ListsFault, read_lists};
use crate::orders::first_wrong;
use crate::printed::Order;
use crate::printing::put_session;
use crate::stepping::Unmade;
use crate::verdict::{Cause, Verdict};
use meter_address::Address;
use meter_directory::Directory;
use meter_slots::{MeterStart, addresses_of};
use outer_io::Memory;
use state_file::{StateFault, read_state};
use std::alloc::Global;

// The first input, from 1, that goes past the limits.
fn first_over(inputs: &[Input]) -> Option<u32>
    requires { length inputs.now < 2 ^ 32 }
    ensures { MatchOption result (Each (λ input. is_over input ≡ false) inputs.now)
        (λ w. IsFirst (λ input. is_over input ≡ false) (λ input. is_over input ≡ true) w inputs.now) }
{
    for (place, input) in inputs.iter().enumerate() {
        if input.is_over() {
            return Some(place as u32 + 1);
        }
    }
    None
}

// The directory of the meters.
fn directory_of(alloc: Global, meters: &[MeterStart]) -> Result<Directory, Memory>
    requires apart { AreApart (map (λ c. c.address) meters.now) }
    requires few { length meters.now < 2 ^ 32 }
    ensures { IfOk result (λ directory. directory ≡ map (λ c. c.address) meters.now) }
{
    let addresses = addresses_of(alloc, meters)?;
    Directory::new(alloc, addresses.as_slice())
}

// The verdict by the papers of the report, and of the state that is judged, if one is.
fn found_verdict(paper: &Comparing<'_>, next: Option<&[u8]>, left: &Comparing<'_>) -> Verdict
    ensures { (text next_text : List ℕ) → IsSoFar paper.now text → IsNextSoFar left.now (option_copied next.entry) next_text
        → IsCompared paper.now.text text (option_copied next.entry) next_text result }
{
    match paper.difference() {
        Some(place) => Verdict::No(Cause::Text(place)),
        None => next_verdict(next, left),
    }
}

// Compares a report with the text of the session of the printed orders, and the state that is judged, if one is, with the one that it
// leaves.
fn audit_orders(
    alloc: Global,
    own: Address,
    meters: Vec<MeterStart>,
    directory: &Directory,
    next: Option<&[u8]>,
    report: &[u8],
    heard: &[Hearing<'_>],
    lists: &[Order],
) -> Result<Verdict, Unmade>
    requires few { length meters.items ≤ 4096 }
    requires directory { directory.now ≡ map (λ c. c.address) meters.items }
    requires apart { AreApart directory.now }
    requires long { length lists.now ≡ length meters.items + 1 }
    ensures stepped { IfOk result (λ verdict. AreOrders meters.items heard.now lists.now
        → IsStepped own meters.items heard.now lists.now report.now (option_copied next.entry) verdict) }
    ensures stray { result ≡ Err Unmade.Stray → AreOrders meters.items heard.now lists.now → ⊥ }
{
    let mut paper = Comparing::new(report);
    let mut left = next_paper(next);
    put_session(
        alloc, own, meters, directory, heard, lists, &mut paper, &mut left,
    )?;
    Ok(found_verdict(&paper, next, &left))
}

// The verdict where no line is a stray.
fn told_verdict(found: Result<Verdict, Unmade>) -> Result<Verdict, Memory>
    requires { found ≡ Err Unmade.Stray → ⊥ }
    ensures { (verdict : Verdict) → result ≡ Ok verdict → found ≡ Ok verdict }
{
    match found {
        Ok(verdict) => Ok(verdict),
        Err(Unmade::Memory) => Err(Memory),
        Err(Unmade::Stray) => unreachable!(),
    }
}

// Audits a report whose lists were read.
fn audit_lists(
    alloc: Global,
    own: Address,
    meters: Vec<MeterStart>,
    next: Option<&[u8]>,
    report: &[u8],
    inputs: &[Input],
    lists: &[Order],
) -> Result<Verdict, Memory>
    requires { AreListsRead (record { own = own; starts = meters.items }) report.now inputs.now lists.now }
    ensures { IfOk result
        (IsVerdictBy (record { own = own; starts = meters.items }) (option_copied next.entry) report.now inputs.now) }
{
    let starts = meters.as_slice();
    let directory = directory_of(alloc, starts)?;
    let heard = hear_all(alloc, starts, &directory, inputs)?;
    match first_wrong(alloc, heard.as_slice(), lists)? {
        Some((list, place)) => Ok(Verdict::No(Cause::Order {
            list: list as u32,
            place: place as u32,
        })),
        None => told_verdict(audit_orders(
            alloc,
            own,
            meters,
            &directory,
            next,
            report,
            heard.as_slice(),
            lists,
        )),
    }
}

// Audits a report where this is known of the meters and no input goes past the limits.
fn audit_readable(
    alloc: Global,
    own: Address,
    meters: Vec<MeterStart>,
    next: Option<&[u8]>,
    report: &[u8],
    inputs: &[Input],
) -> Result<Verdict, Memory>
    requires apart { AreApart (map (λ c. c.address) meters.items) }
    requires few { length meters.items ≤ 4096 }
    requires within { Each (λ input. is_over input ≡ false) inputs.now }
    requires lines { length (lines_in report.now) < 2 ^ 32 }
    ensures { IfOk result
        (IsVerdictBy (record { own = own; starts = meters.items }) (option_copied next.entry) report.now inputs.now) }
{
    match read_lists(alloc, report, meters.len()) {
        Ok(lists) => audit_lists(alloc, own, meters, next, report, inputs, lists.as_slice()),
        Err(ListsFault::Form(line)) => Ok(Verdict::No(Cause::Form(line))),
        Err(ListsFault::Memory) => Err(Memory),
    }
}

// The verdict on a report.
fn verdict_on(
    alloc: Global,
    state: &[u8],
    next: Option<&[u8]>,
    report: &[u8],
    inputs: &[Input],
) -> Result<Verdict, Memory>
    requires lines { length (lines_in report.now) < 2 ^ 32 }
    requires few { length inputs.now < 2 ^ 32 }
    ensures verdict { IfOk result (IsVerdict
        (record { state = state.now; next = option_copied next.entry; report = report.now; inputs = inputs.now })) }
{
    let state = match read_state(alloc, state) {
        Ok(state) => state,
        Err(StateFault::Roster(line, cause)) => {
            return Ok(Verdict::No(Cause::Roster(line, cause)));
        }
        Err(StateFault::Line(line, cause)) => return Ok(Verdict::No(Cause::State(line, cause))),
        Err(StateFault::Memory) => return Err(Memory),
    };
    let own = state.own();
    match first_over(inputs) {
        Some(w) => Ok(Verdict::No(Cause::Over(w))),
        None => audit_readable(alloc, own, state.into_starts(), next, report, inputs),
    }
}

/// Whether a report is what a collector prints of a state, which may be a roster, and of what its receivers heard, each input to its end,
/// and whether `next`, if there is one, is the state that this session leaves; and if not, the first cause.
///
/// It believes nothing but the state and the inputs, and takes memory for the slots, not for a second report or a second state.
#[tactic(auto, using(crate::proofs::OneVerdict::only_verdict))]
pub fn audit(
    alloc: Global,
    state: &[u8],
    next: Option<&[u8]>,
    report: &[u8],
    inputs: &[Input],
) -> Result<Verdict, Memory>
    requires lines { length (lines_in report.now) < 2 ^ 32 }
    requires few { length inputs.now < 2 ^ 32 }
    ensures verdict { IfOk result (IsVerdict
        (record { state = state.now; next = option_copied next.entry; report = report.now; inputs = inputs.now })) }

    // No other verdict holds: each comes exactly where its definition does.
    ensures only { IfOk result (λ verdict. (other : Verdict)
        → IsVerdict (record { state = state.now; next = option_copied next.entry; report = report.now; inputs = inputs.now }) other
        → other ≡ verdict) }
{
    verdict_on(alloc, state, next, report, inputs)
}
