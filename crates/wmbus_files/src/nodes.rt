//! Files that several words name.
ghost use Rattle.std.specs.Prelude.{IfErr};
ghost use Rattle.wmbus_files.specs.Unopened.{IsUnopened};

use std::fs::{File, Files};
use std::os::unix::fs::MetadataExt;
use std::process::ExitCode;
use wmbus_words::{Plan, StepsPlan, is_written};

/// Why a session or steps can't begin.
#[derive(Drop)]
pub enum Unopened {
    /// A file can't be opened, or two words name it: that was said, and this is the exit status.
    Said(ExitCode),
    /// There is no memory.
    Memory,
}

/// Where a regular file lies, whatever names it.
#[derive(Clone, Copy, PartialEq, Eq)]
struct Node {
    device: u64,
    number: u64,
}

/// How many bytes may wait before they are written, where a regular file is heard.
const ROOM: usize = 16384;

// Where the regular file of this name lies, if there is one.
fn node_of<R: Files<File = File>>(rt: &R, name: &str) -> Option<Node> {
    let about = rt.metadata(name).ok()?;
    if about.is_file() {
        Some(Node {
            device: about.dev(),
            number: about.ino(),
        })
    } else {
        None
    }
}

fn is_named<R: Files<File = File>>(rt: &R, node: Node, names: &[String]) -> bool {
    for name in names {
        if node_of(rt, name.as_str()) == Some(node) {
            return true;
        }
    }
    false
}

// The first name of a regular file that is written and that another of these names leads to as well.
fn named_twice<'a, R: Files<File = File>>(rt: &R, names: &'a [String]) -> Option<&'a str> {
    for place in 0..names.len() {
        let name = names[place].as_str();
        if is_written(place + 1) {
            if let Some(node) = node_of(rt, name) {
                if is_named(rt, node, &names[..place]) || is_named(rt, node, &names[place + 1..]) {
                    return Some(name);
                }
            }
        }
    }
    None
}

// Refuses the file of this name.
fn refuse(rt: &impl Eprint, name: &str) -> Unopened
    ensures { IsUnopened result }
{
    let _ = eprintln!(rt; "wmbus: the file {name} is named twice");
    Unopened::Said(ExitCode::from(11))
}

/// Refuses a session in threads of which two words name one regular file that is written, and says which.
pub(crate) fn differ<R: Eprint + Files<File = File>>(
    rt: &R,
    command: &[String],
    plan: Plan,
) -> Result<(), Unopened>
    ensures { IfErr result IsUnopened }
{
    match (plan, command) {
        (Plan::Collect(_) | Plan::Continue(_), [_, names @ ..]) => match named_twice(rt, names) {
            None => Ok(()),
            Some(name) => Err(refuse(rt, name)),
        },
        _ => Ok(()),
    }
}

/// How many bytes of what is told of a receiver may wait: none but where it is a regular file, of which nobody waits for an answer.
pub(crate) fn room_of<R: Files<File = File>>(rt: &R, plan: StepsPlan, rx: &str) -> usize {
    if plan.hears_file && node_of(rt, rx).is_some() {
        ROOM
    } else {
        0
    }
}

/// Refuses steps of which STATE or RX leads to the regular file NEXT, which is written.
pub(crate) fn next_differs<R: Eprint + Files<File = File>>(
    rt: &R,
    plan: StepsPlan,
    state: &str,
    next: &str,
    rx: &str,
) -> Result<(), Unopened>
    ensures { IfErr result IsUnopened }
{
    if !plan.leaves_next {
        return Ok(());
    }
    let Some(node) = node_of(rt, next) else {
        return Ok(());
    };
    if node_of(rt, state) == Some(node) {
        return Err(refuse(rt, next));
    }
    if plan.hears_file && node_of(rt, rx) == Some(node) {
        return Err(refuse(rt, next));
    }
    Ok(())
}
