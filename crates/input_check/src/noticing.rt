//! Which notes there are on the meters of a state or a roster, and on what was heard.
ghost use Rattle.std.specs.Prelude.{◌≡◌, ◌++◌, ℕ, map, find, take, All, Some, IfOk, OnOk};
ghost use Rattle.std.specs.BTreeMap.{is_at};
ghost use Rattle.std.specs.List.Sorted.{IsStrictlySortedBy};
ghost use Rattle.std.specs.Map.{lookup};
ghost use Rattle.std.specs.Ordering.{nat_cmp};
ghost use Rattle.input_check.specs.Noticing.{note_if, is_of_equal_bytes, shares_key, key_hint, notes_on_keys, identification_turned, turned, may_be_meant, unheard_hint, unheard_if, notes_on_unheard, addresses, stranger_note, AreHearingNotes};
ghost use Rattle.input_check.specs.Counting.{AreCounts, counted_at, was_counted, strangers_in};

use crate::hints::{Hint, Note};
use meter_address::{Address, Commission};
use outer_io::Memory;
use std::alloc::Global;
use std::collections::BTreeMap;

/// How many strangers are named, those that were heard most often.
const MOST_STRANGERS: usize = 20;

/// Strangers that were heard fewer times are not named: a frame of a passer-by.
const LEAST_OFTEN: u64 = 3;

// How often each address was counted.
type Counts = BTreeMap<u64, u64>;

// Adds a note on a meter, where there is something to say.
fn add_note(notes: &mut Vec<Note>, address: Address, hint: Option<Hint>) -> Result<(), Memory>
    ensures { OnOk result (notes.new.items ≡ notes.old.items ++ note_if address hint) }
{
    let Some(hint) = hint else {
        return Ok(());
    };
    notes.push(Note { address, hint })?;
    Ok(())
}

// Whether all bytes of a key are equal.
fn is_of_equal_bytes(key: &[u8; 16]) -> bool
    ensures { result ≡ is_of_equal_bytes key.now }
{
    let first = key[0];
    key.iter().all(|byte| *byte == first)
}

// Whether the other one is another meter with the key of this one.
fn shares_key(meter: &Commission, other: &Commission) -> bool
    ensures { result ≡ shares_key meter.now other.now }
{
    other.address.0 != meter.address.0 && other.key == meter.key
}

// The first other one of these meters that has the key of this one.
fn with_its_key(meters: &[Commission], meter: &Commission) -> Option<Commission>
    ensures { result ≡ find (shares_key meter.now) meters.now }
{
    meters
        .iter()
        .copied()
        .find(|other| shares_key(meter, other))
}

// What there is to say of a meter's key.
fn key_hint(meters: &[Commission], meter: &Commission) -> Option<Hint>
    ensures { result ≡ key_hint meters.now meter.now }
{
    if is_of_equal_bytes(&meter.key) {
        return Some(Hint::EqualBytes);
    }
    match with_its_key(meters, meter) {
        Some(other) => Some(Hint::SharedKey(other.address)),
        None => None,
    }
}

/// What there is to say of the keys of these meters, in their order.
pub fn key_notes(alloc: Global, meters: &[Commission]) -> Result<Vec<Note>, Memory>
    ensures { IfOk result (λ notes. notes.items ≡ notes_on_keys meters.now) }
{
    let mut notes = Vec::new(alloc);
    for meter in meters {
        add_note(&mut notes, meter.address, key_hint(meters, meter))?;
    }
    Ok(notes)
}

// How often each of these addresses stands among them.
fn counted(alloc: Global, addresses: &[Address]) -> Result<Counts, Memory>
    ensures { IfOk result (λ counts. AreCounts addresses.now counts.entries) }
{
    let mut counts: Counts = BTreeMap::new(alloc);
    for address in addresses {
        *counts.entry(address.0)?.or_insert(0) += 1;
    }
    Ok(counts)
}

// How often an address was counted.
fn counted_at(counts: &Counts, address: u64) -> u64
    ensures { result ≡ counted_at counts.now.entries address }
{
    match counts.get(&address) {
        Some(count) => *count,
        None => 0,
    }
}

// Whether it was.
fn was_counted(counts: &Counts, address: Address) -> bool
    ensures { result ≡ was_counted counts.now.entries address }
{
    counted_at(counts, address.0) > 0
}

// The addresses of these meters.
fn addresses_of(alloc: Global, meters: &[Commission]) -> Result<Vec<Address>, Memory>
    ensures { IfOk result (λ all. all.items ≡ addresses meters.now) }
{
    let mut all = Vec::new(alloc);
    for meter in meters {
        all.push(meter.address)?;
    }
    Ok(all)
}

// The address with its identification turned round, as it stands on the label.
fn identification_turned(address: Address) -> Address
    ensures { result ≡ identification_turned address }
{
    let [m, n, i, j, k, l, version, kind] = address.to_bytes();
    Address::from_bytes([m, n, l, k, j, i, version, kind])
}

// The address with all of its bytes turned round.
fn turned(address: Address) -> Address
    ensures { result ≡ turned address }
{
    let [m, n, i, j, k, l, version, kind] = address.to_bytes();
    Address::from_bytes([kind, version, l, k, j, i, n, m])
}

// Whether an address may be meant in place of the meter's own: it is another one, and was heard or is that of a meter.
fn may_be_meant(heard: &Counts, known: &Counts, own: Address, other: Address) -> bool
    ensures { result ≡ may_be_meant (was_counted heard.now.entries) (was_counted known.now.entries) own other }
{
    other.0 != own.0 && (was_counted(heard, other) || was_counted(known, other))
}

// What there is to say of a meter that was not heard.
fn unheard_hint(heard: &Counts, known: &Counts, address: Address) -> Hint
    ensures { result ≡ unheard_hint (was_counted heard.now.entries) (was_counted known.now.entries) address }
{
    let on_label = identification_turned(address);
    if may_be_meant(heard, known, address, on_label) {
        return Hint::Turned(on_label);
    }
    let all_turned = turned(address);
    if may_be_meant(heard, known, address, all_turned) {
        return Hint::Turned(all_turned);
    }
    Hint::Unheard
}

// What there is to say of a meter, if it was not heard.
fn unheard_if(heard: &Counts, known: &Counts, meter: &Commission) -> Option<Hint>
    ensures { result ≡ unheard_if (was_counted heard.now.entries) (was_counted known.now.entries) meter.now.address }
{
    let address = meter.address;
    if was_counted(heard, address) {
        return None;
    }
    Some(unheard_hint(heard, known, address))
}

// What there is to say of the meters that were not heard, in their order.
fn unheard_notes(
    alloc: Global,
    meters: &[Commission],
    heard: &Counts,
    known: &Counts,
) -> Result<Vec<Note>, Memory>
    ensures { IfOk result (λ notes. notes.items
        ≡ notes_on_unheard (was_counted heard.now.entries) (was_counted known.now.entries) meters.now) }
{
    let mut notes = Vec::new(alloc);
    for meter in meters {
        add_note(&mut notes, meter.address, unheard_if(heard, known, meter))?;
    }
    Ok(notes)
}

// The strangers that were heard often enough, each with how often, in the order of their addresses.
fn strangers(alloc: Global, heard: &Counts, known: &Counts) -> Result<Vec<(u64, u64)>, Memory>
    ensures strangers { IfOk result (λ strangers. strangers.items ≡ strangers_in heard.now.entries known.now.entries) }
    ensures rising { OnOk result (IsStrictlySortedBy nat_cmp (map (λ (e : ℕ × ℕ). e.0) heard.now.entries)) }
    ensures found { OnOk result (All (λ (e : ℕ × ℕ). lookup (is_at (nat_cmp e.0)) heard.now.entries ≡ Some e.1) heard.now.entries) }
{
    let mut strangers = Vec::new(alloc);
    for (address, count) in heard {
        if *count >= LEAST_OFTEN && counted_at(known, *address) == 0 {
            strangers.push((*count, *address))?;
        }
    }
    Ok(strangers)
}

// A note on a stranger.
fn stranger_note(count: u64, address: u64) -> Note
    ensures { result ≡ stranger_note (count, address) }
{
    Note {
        address: Address(address),
        hint: Hint::Stranger(count),
    }
}

// Adds notes on the first ones of these strangers.
fn add_strangers(notes: &mut Vec<Note>, ranked: &[(u64, u64)]) -> Result<(), Memory>
    ensures { OnOk result (notes.new.items ≡ notes.old.items ++ map stranger_note (take 20 ranked.now)) }
{
    for place in 0..ranked.len().min(MOST_STRANGERS) {
        let (count, address) = ranked[place];
        notes.push(stranger_note(count, address))?;
    }
    Ok(())
}

/// What there is to say of the meters that were not heard, in their order, and of the strangers that were heard most often.
#[tactic(auto, using(crate::proofs::Counts::hearing_noted))]
pub fn hearing_notes(
    alloc: Global,
    meters: &[Commission],
    heard: &[Address],
) -> Result<Vec<Note>, Memory>
    ensures { IfOk result (λ notes. AreHearingNotes heard.now meters.now notes.items) }
{
    let known = counted(alloc, &addresses_of(alloc, meters)?)?;
    let heard = counted(alloc, heard)?;
    let mut notes = unheard_notes(alloc, meters, &heard, &known)?;
    let mut ranked = strangers(alloc, &heard, &known)?;
    ranked.sort()?;
    ranked.reverse();
    add_strangers(&mut notes, &ranked)?;
    Ok(notes)
}
