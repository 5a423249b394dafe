//! Reading the text of senders.
ghost use Rattle.std.specs.Prelude.{◌≡◌, ◌∷◌, ◌++◌, [], None, Ok, Err, IfOk, IfErr, OnOk, MatchResult, codes};
ghost use Rattle.line_accept.specs.Senders.{fence_of};
ghost use Rattle.plain_text.specs.Parts.{is_word};
ghost use Rattle.line_accept.specs.SendersFile.{sender_in, sender_of, with_line, ended, senders_from, headed, senders_of};
ghost use Rattle.line_accept.specs.Reading.{sender_read, IsFaultOf};

use crate::fault::{SendersCause, SendersFault};
use crate::fence::Fence;
use crate::names::is_name;
use crate::senders::Senders;
use outer_io::Memory;
use plain_text::{Fields, read_number};
use roster_file::{Entries, Entry};
use std::alloc::Global;

/// The most bytes of a text of senders.
pub const SENDERS_MOST: usize = 16_777_216;

// A name, and a fence.
#[derive(Clone, Copy)]
struct SenderRead<'a> {
    name: &'a [u8],
    fence: Fence,
}

#[tactic(auto, unfolding(crate::specs::SendersFile::sender_in))]
fn read_sender_fields<'a>(mut fields: Fields<'a>) -> Result<SenderRead<'a>, SendersCause>
    ensures { MatchResult result
        (λ sender. sender_in fields.entry ≡ Ok (sender_read sender))
        (λ cause. sender_in fields.entry ≡ Err cause) }
{
    let (Some(name), Some(epoch), Some(number), None) = (
        fields.next(),
        fields.next(),
        fields.next(),
        fields.next(),
    ) else {
        return Err(SendersCause::Fields);
    };
    if !is_name(name) {
        return Err(SendersCause::Name);
    }
    let epoch = read_number(epoch, u64::MAX).ok_or(SendersCause::Epoch)?;
    let number = read_number(number, u64::from(u32::MAX)).ok_or(SendersCause::Number)?;
    let fence = Fence {
        epoch,
        number: number as u32,
    };
    Ok(SenderRead { name, fence })
}

fn read_sender(line: &[u8]) -> Result<SenderRead<'_>, SendersCause>
    ensures { MatchResult result
        (λ sender. sender_of line.now ≡ Ok (sender_read sender))
        (λ cause. sender_of line.now ≡ Err cause) }
{
    let mut fields = Fields::of_line(line);
    let Some(kind) = fields.next() else {
        return Err(SendersCause::Kind);
    };
    if kind == b"sender".as_slice() {
        return read_sender_fields(fields);
    }
    Err(SendersCause::Kind)
}

// The bytes of a name, in memory of their own.
fn own_name(alloc: Global, name: &[u8]) -> Result<Vec<u8>, Memory>
    ensures { IfOk result (λ bytes. bytes.items ≡ name.now) }
{
    let mut bytes = Vec::new(alloc);
    bytes.extend_from_slice(name)?;
    Ok(bytes)
}

// Adds a sender that was read, whose name no other has.
fn add_new(alloc: Global, senders: &mut Senders, sender: SenderRead<'_>) -> Result<(), Memory>
    requires { fence_of sender.name.now senders.old ≡ None }
    ensures { OnOk result (senders.new ≡ senders.old ++ sender_read sender.entry ∷ []) }
{
    let name = own_name(alloc, sender.name)?;
    senders.add(name, sender.fence)?;
    Ok(())
}

// The senders with that of one more line.
fn add_line(alloc: Global, senders: &mut Senders, entry: &Entry<'_>) -> Result<(), SendersFault>
    ensures ok { OnOk result (with_line senders.old (entry.now.line, entry.now.text.now) ≡ Ok senders.new) }
    ensures fault { IfErr result (λ fault. IsFaultOf (with_line senders.old (entry.now.line, entry.now.text.now)) fault) }
{
    let sender = match read_sender(entry.text) {
        Ok(sender) => sender,
        Err(cause) => return Err(SendersFault::Line(entry.line, cause)),
    };
    if senders.is_known(sender.name) {
        return Err(SendersFault::Line(entry.line, SendersCause::Same));
    }
    match add_new(alloc, senders, sender) {
        Ok(()) => Ok(()),
        Err(_) => Err(SendersFault::Memory),
    }
}

// Nothing stands behind the end.
fn read_end(senders: Senders, entries: &mut Entries<'_>) -> Result<Senders, SendersFault>
    ensures found { IfOk result (λ all. ended senders entries.old.entries ≡ Ok all) }
    ensures fault { IfErr result (λ fault. IsFaultOf (ended senders entries.old.entries) fault) }
{
    match entries.next() {
        Ok(entry) => Err(SendersFault::Line(entry.line, SendersCause::Behind)),
        Err(_) => Ok(senders),
    }
}

fn is_end(text: &[u8]) -> bool
    ensures { result ≡ is_word text.now (codes "end") }
{
    text == b"end".as_slice()
}

// The senders of the lines that are left.
fn read_lines(alloc: Global, entries: &mut Entries<'_>) -> Result<Senders, SendersFault>
    ensures found { IfOk result (λ senders. senders_from [] entries.old.entries entries.old.end ≡ Ok senders) }
    ensures fault { IfErr result (λ fault. IsFaultOf (senders_from [] entries.old.entries entries.old.end) fault) }
{
    let mut senders = Senders::new(alloc);
    'lines: loop {
        let entry = match entries.next() {
            Ok(entry) => entry,
            Err(end) => return Err(SendersFault::Line(end, SendersCause::Missing)),
        };
        if is_end(entry.text) {
            return read_end(senders, entries);
        }
        match add_line(alloc, &mut senders, &entry) {
            Ok(()) => {}
            Err(fault) => return Err(fault),
        }
    }
}

/// Reads the text of senders.
#[tactic(auto, unfolding(crate::specs::SendersFile::senders_of, crate::specs::SendersFile::headed))]
pub fn read_senders(alloc: Global, bytes: &[u8]) -> Result<Senders, SendersFault>
    ensures found { IfOk result (λ senders. senders_of bytes.now ≡ Ok senders) }

    // A fault other than want of memory is the text's first one.
    ensures fault { IfErr result (λ fault. IsFaultOf (senders_of bytes.now) fault) }
{
    if bytes.len() > SENDERS_MOST {
        return Err(SendersFault::Line(0, SendersCause::TooLong));
    }
    let mut entries = Entries::of_text(bytes);
    let entry = match entries.next() {
        Ok(entry) => entry,
        Err(end) => return Err(SendersFault::Line(end, SendersCause::Missing)),
    };
    if entry.text == b"wmbus-senders 1".as_slice() {
        return read_lines(alloc, &mut entries);
    }
    Err(SendersFault::Line(entry.line, SendersCause::Head))
}
