//! The files that the words name.
ghost use Rattle.std.specs.Prelude.{◌≡◌, ◌+◌, ◌-◌, ◌/◌, ◌≤◌, Ok, length, map, vec_len, IfOk, IfErr, OnOk};
ghost use Rattle.std.specs.String.{string_bytes};
ghost use Rattle.lists.specs.Each.{Each};
ghost use Rattle.receivers.specs.Receiver.{IsFresh};
ghost use Rattle.wmbus_words.specs.Words.{plan_of, receiver_count};
ghost use Rattle.wmbus_files.specs.Unopened.{IsUnopened};

use crate::nodes::{Unopened, differ, next_differs, room_of};
use crate::watched::WatchedSource;
use outer_io::{StdSink, StdSource};
use program_words::{open_to_read, open_to_write, taken_streams};
use receivers::Receiver;
use std::fs::{File, Files};
use wmbus_words::{Plan, StepsPlan};

const PROGRAM: &str = "wmbus";

/// Permissions of a new file, and those of one that only its owner may read.
const PLAIN: u32 = 0o666;

const PRIVATE: u32 = 0o600;

/// What a plan reads and writes but for the report.
#[derive(Drop)]
pub struct Opened<'r, R: Eprint> {
    /// What the session begins from.
    pub beginning: WatchedSource<'r, R>,
    /// What is left for the next session.
    pub next: StdSink,
    /// Each meter's last reading.
    pub readings: StdSink,
    /// The receivers, in the order of the words.
    pub receivers: Receivers<'r, R>,
}

/// The receivers of a plan.
pub type Receivers<'r, R> = Vec<Receiver<WatchedSource<'r, R>, StdSink>>;

/// What `steps` reads and writes but for what is told.
#[derive(Drop)]
pub struct StepsFiles {
    /// What the session begins from.
    pub beginning: StdSource,
    /// What is left for the next session, or nothing.
    pub next: StdSink,
    /// The receiver's lines.
    pub receiver: StdSource,
    /// How many bytes of what is told may wait.
    pub room: usize,
}

// Opens a file that is read. Where it can't be opened that is said.
fn read_from<R: Eprint + Files<File = File>>(rt: &R, name: &str) -> Result<StdSource, Unopened>
    ensures { IfErr result IsUnopened }
{
    match open_to_read(rt, PROGRAM, name) {
        Ok(source) => Ok(source),
        Err(code) => Err(Unopened::Said(code)),
    }
}

// Opens a file that is written, and makes it empty. Where it can't be opened that is said.
fn write_to<R: Eprint + Files<File = File>>(
    rt: &R,
    name: &str,
    permissions: u32,
) -> Result<StdSink, Unopened>
    ensures { IfErr result IsUnopened }
{
    match open_to_write(rt, PROGRAM, name, permissions) {
        Ok(sink) => Ok(sink),
        Err(code) => Err(Unopened::Said(code)),
    }
}

// One more receiver, over a source of which nothing was taken.
fn add_receiver<'r, R: Eprint>(
    receivers: &mut Receivers<'r, R>,
    rx: WatchedSource<'r, R>,
    tx: StdSink,
) -> Result<(), Unopened>
    requires { Each IsFresh receivers.old.items }
    ensures fresh { OnOk result (Each IsFresh receivers.new.items) }
    ensures one_more { OnOk result (length receivers.new.items ≡ length receivers.old.items + 1) }
    ensures unopened { IfErr result IsUnopened }
{
    if receivers.push(Receiver::new(rx, tx)).is_err() {
        return Err(Unopened::Memory);
    }
    Ok(())
}

// The source of the next receiver, which is watched where it isn't the only one.
fn watched<'r, R: Eprint>(
    rt: &'r R,
    receivers: &Receivers<'r, R>,
    rx: StdSource,
    several: bool,
) -> WatchedSource<'r, R> {
    if several {
        WatchedSource::of_receiver(rt, rx, receivers.len() + 1)
    } else {
        WatchedSource::silent(rt, rx)
    }
}

// Opens the files of receivers, RX and TX in turn.
fn add_receivers<'r, R: Eprint + Files<File = File>>(
    rt: &'r R,
    receivers: &mut Receivers<'r, R>,
    names: &[String],
    several: bool,
) -> Result<(), Unopened>
    requires { Each IsFresh receivers.old.items }
    ensures fresh { OnOk result (Each IsFresh receivers.new.items) }
    ensures more { OnOk result (length receivers.new.items ≡ length receivers.old.items + length names.now / 2) }
    ensures unopened { IfErr result IsUnopened }
{
    let [rx, tx, later @ ..] = names else {
        return Ok(());
    };
    let rx = watched(rt, receivers, read_from(rt, rx.as_str())?, several);
    let tx = write_to(rt, tx.as_str(), PLAIN)?;
    add_receiver(receivers, rx, tx)?;
    add_receivers(rt, receivers, later, several)
}

// Opens the state and the receiver of `hear`.
fn open_hear<'r, R: Eprint + Files<File = File> + AllocGlobal>(
    rt: &'r R,
    beginning: &str,
    rx: &str,
) -> Result<Opened<'r, R>, Unopened>
    ensures fresh { IfOk result (λ files. Each IsFresh files.receivers.items) }
    ensures count { IfOk result (λ files. vec_len files.receivers ≡ 1) }
    ensures unopened { IfErr result IsUnopened }
{
    let beginning = WatchedSource::silent(rt, read_from(rt, beginning)?);
    let rx = WatchedSource::silent(rt, read_from(rt, rx)?);
    let mut receivers = Vec::new(rt.alloc());
    add_receiver(&mut receivers, rx, StdSink::nothing())?;
    Ok(Opened {
        beginning,
        next: StdSink::nothing(),
        readings: StdSink::nothing(),
        receivers,
    })
}

// Opens all files of `collect` or `continue`, in the order of the words. What is left for the next session has keys, so where it is new its
// owner alone may read it.
fn open_receivers<'r, R: Eprint + Files<File = File> + AllocGlobal>(
    rt: &'r R,
    beginning: &str,
    next: &str,
    readings: &str,
    names: &[String],
) -> Result<Opened<'r, R>, Unopened>
    ensures fresh { IfOk result (λ files. Each IsFresh files.receivers.items) }
    ensures count { IfOk result (λ files. vec_len files.receivers ≡ length names.now / 2) }
    ensures unopened { IfErr result IsUnopened }
{
    let beginning = WatchedSource::silent(rt, read_from(rt, beginning)?);
    let _streams = taken_streams(rt);
    let next = write_to(rt, next, PRIVATE)?;
    let readings = write_to(rt, readings, PLAIN)?;
    let mut receivers = Vec::new(rt.alloc());
    add_receivers(rt, &mut receivers, names, names.len() > 2)?;
    Ok(Opened {
        beginning,
        next,
        readings,
        receivers,
    })
}

// The same of all words, the command among them.
fn open_named<'r, R: Eprint + Files<File = File> + AllocGlobal>(
    rt: &'r R,
    command: &[String],
) -> Result<Opened<'r, R>, Unopened>
    requires { 6 ≤ length command.now }
    ensures fresh { IfOk result (λ files. Each IsFresh files.receivers.items) }
    ensures count { IfOk result (λ files. vec_len files.receivers ≡ (length command.now - 4) / 2) }
    ensures unopened { IfErr result IsUnopened }
{
    match command {
        [_, beginning, next, readings, names @ ..] => open_receivers(
            rt,
            beginning.as_str(),
            next.as_str(),
            readings.as_str(),
            names,
        ),
        _ => unreachable!(),
    }
}

// A made session reads and writes no file but the standard output.
fn open_nothing<'r, R: Eprint + AllocGlobal>(rt: &'r R) -> Opened<'r, R>
    ensures fresh { Each IsFresh result.receivers.items }
    ensures count { vec_len result.receivers ≡ 0 }
{
    Opened {
        beginning: WatchedSource::silent(rt, StdSource::nothing()),
        next: StdSink::nothing(),
        readings: StdSink::nothing(),
        receivers: Vec::new(rt.alloc()),
    }
}

// Opens the files that the words name, in their order; those that are written are made empty. What can't be opened is said, and is
// status 11; want of memory is 10.
fn open_all<'r, R: Eprint + Files<File = File> + AllocGlobal>(
    rt: &'r R,
    command: &[String],
    plan: Plan,
) -> Result<Opened<'r, R>, Unopened>
    requires { plan_of (map string_bytes command.now) ≡ Ok plan }
    ensures fresh { IfOk result (λ files. Each IsFresh files.receivers.items) }
    ensures count { IfOk result (λ files. vec_len files.receivers ≡ receiver_count plan) }
    ensures unopened { IfErr result IsUnopened }
{
    match plan {
        Plan::Hear => open_hear(rt, command[1].as_str(), command[2].as_str()),
        Plan::Collect(_) => open_named(rt, command),
        Plan::Continue(_) => open_named(rt, command),
        Plan::Made { .. } => Ok(open_nothing(rt)),
    }
}

/// Opens the files that the words name, in their order; those that are written are made empty. What can't be opened is said, and is
/// status 11; want of memory is 10. Where two words name one file nothing is made empty; where they name one that is only then made, it
/// stays empty.
pub fn open_apart<'r, R: Eprint + Files<File = File> + AllocGlobal>(
    rt: &'r R,
    command: &[String],
    plan: Plan,
) -> Result<Opened<'r, R>, Unopened>
    requires { plan_of (map string_bytes command.now) ≡ Ok plan }
    ensures fresh { IfOk result (λ files. Each IsFresh files.receivers.items) }
    ensures count { IfOk result (λ files. vec_len files.receivers ≡ receiver_count plan) }
    ensures unopened { IfErr result IsUnopened }
{
    differ(rt, command, plan)?;
    let files = open_all(rt, command, plan)?;
    differ(rt, command, plan)?;
    Ok(files)
}

// Opens the files of `steps`, in the order of the words. What is left for the next session has keys, so where it is new its owner alone may
// read it.
fn open_steps<R: Eprint + Files<File = File>>(
    rt: &R,
    plan: StepsPlan,
    state: &str,
    next: &str,
    rx: &str,
    input: StdSource,
) -> Result<StepsFiles, Unopened>
    ensures { IfErr result IsUnopened }
{
    let beginning = read_from(rt, state)?;
    let _streams = taken_streams(rt);
    let next = if plan.leaves_next {
        write_to(rt, next, PRIVATE)?
    } else {
        StdSink::nothing()
    };
    let receiver = if plan.hears_file {
        read_from(rt, rx)?
    } else {
        input
    };
    Ok(StepsFiles {
        beginning,
        next,
        receiver,
        room: room_of(rt, plan, rx),
    })
}

// The same where no other word leads to NEXT, before and after.
fn open_different<R: Eprint + Files<File = File>>(
    rt: &R,
    plan: StepsPlan,
    state: &str,
    next: &str,
    rx: &str,
    input: StdSource,
) -> Result<StepsFiles, Unopened>
    ensures { IfErr result IsUnopened }
{
    next_differs(rt, plan, state, next, rx)?;
    let files = open_steps(rt, plan, state, next, rx, input)?;
    next_differs(rt, plan, state, next, rx)?;
    Ok(files)
}

/// Opens the files that the words of `steps` name, in their order; NEXT is made empty. What can't be opened, and a name that leads to the
/// file NEXT as well, is said, and is status 11.
pub fn open_steps_apart<R: Eprint + Files<File = File>>(
    rt: &R,
    command: &[String],
    plan: StepsPlan,
    input: StdSource,
) -> Result<StepsFiles, Unopened>
    requires { length command.now ≡ 4 }
    ensures { IfErr result IsUnopened }
{
    match command {
        [_, state, next, rx] => {
            open_different(rt, plan, state.as_str(), next.as_str(), rx.as_str(), input)
        }
        _ => unreachable!(),
    }
}
