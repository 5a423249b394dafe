//! What one line of a roster says.
ghost use Rattle.std.specs.Prelude.{◌≡◌, List, ℕ, ◌≤◌, None, Some, IfSome, MatchOption};
ghost use Rattle.std.specs.Option.{ForSome};
ghost use Rattle.meter_address.specs.Commission.{most_last};
ghost use Rattle.roster_file.specs.Columns.{columns_in};
ghost use Rattle.roster_file.specs.Roster.{mode_of, other_of, last_of, counter_of, columns_of, meter_of_columns, meter_of, own_of};

use crate::roster::LineCause;
use meter_address::{Address, Commission, Mode, read_key};
use plain_text::{Fields, read_number};

/// The version of a roster's text, which its head says.
#[derive(Clone, Copy)]
pub enum Version {
    /// A meter has one key.
    One,
    /// A meter may have a second key.
    Two,
}

fn read_mode(text: &[u8]) -> Option<Mode>
    ensures { result ≡ mode_of text.now }
{
    match text {
        b"5" => Some(Mode::Five),
        b"7" => Some(Mode::Seven),
        _ => None,
    }
}

// A dash, or a second key, which a meter of mode 7 alone may have.
fn read_other(mode: Mode, text: &[u8]) -> Option<Option<[u8; 16]>>
    ensures other { result ≡ other_of mode text.now }
    ensures one_key { IfSome result (λ other. mode ≡ Mode.Five → other ≡ None) }
{
    if text == b"-".as_slice() {
        return Some(None);
    }
    match mode {
        Mode::Five => None,
        Mode::Seven => Some(Some(read_key(text)?)),
    }
}

fn read_last(mode: Mode, text: &[u8]) -> Option<Option<u32>>
    ensures last { result ≡ last_of mode text.now }
    ensures in_range { IfSome result (λ last. ForSome last (λ n. n ≤ most_last mode)) }
{
    if text == b"-".as_slice() {
        return Some(None);
    }
    match read_number(text, u64::from(mode.most_last())) {
        Some(last) => Some(Some(last as u32)),
        None => None,
    }
}

fn read_counter(text: &[u8]) -> Option<u32>
    ensures { result ≡ counter_of text.now }
{
    match read_number(text, u64::from(u32::MAX)) {
        Some(counter) => Some(counter as u32),
        None => None,
    }
}

// The texts behind `meter`.
#[derive(Clone, Copy)]
struct Columns<'a> {
    address: &'a [u8],
    mode: &'a [u8],
    key: &'a [u8],
    other: &'a [u8],
    last: &'a [u8],
    down: &'a [u8],
    ids: &'a [u8],
}

// The columns of version 1, which has no second key: a dash stands for it.
#[tactic(auto, unfolding(crate::specs::Roster::columns_of))]
fn first_columns<'a>(fields: &mut Fields<'a>) -> Option<Columns<'a>>
    ensures { MatchOption result
        (columns_of Version.One fields.old ≡ None)
        (λ c. columns_of Version.One fields.old ≡ Some (columns_in c)) }
{
    // (one test of all, so that what goes at a missing field is proved once and not seven times)
    let (Some(address), Some(mode), Some(key), Some(last), Some(down), Some(ids), None) = (
        fields.next(),
        fields.next(),
        fields.next(),
        fields.next(),
        fields.next(),
        fields.next(),
        fields.next(),
    ) else {
        return None;
    };
    Some(Columns {
        address,
        mode,
        key,
        other: b"-".as_slice(),
        last,
        down,
        ids,
    })
}

// The columns of version 2.
#[tactic(auto, unfolding(crate::specs::Roster::columns_of))]
fn second_columns<'a>(fields: &mut Fields<'a>) -> Option<Columns<'a>>
    ensures { MatchOption result
        (columns_of Version.Two fields.old ≡ None)
        (λ c. columns_of Version.Two fields.old ≡ Some (columns_in c)) }
{
    // (one test of all, as above)
    let (
        Some(address),
        Some(mode),
        Some(key),
        Some(other),
        Some(last),
        Some(down),
        Some(ids),
        None,
    ) = (
        fields.next(),
        fields.next(),
        fields.next(),
        fields.next(),
        fields.next(),
        fields.next(),
        fields.next(),
        fields.next(),
    ) else {
        return None;
    };
    Some(Columns {
        address,
        mode,
        key,
        other,
        last,
        down,
        ids,
    })
}

// The columns behind `meter`, where there are as many as the version asks for.
fn columns_by<'a>(version: Version, fields: &mut Fields<'a>) -> Option<Columns<'a>>
    ensures { MatchOption result
        (columns_of version fields.old ≡ None)
        (λ c. columns_of version fields.old ≡ Some (columns_in c)) }
{
    match version {
        Version::One => first_columns(fields),
        Version::Two => second_columns(fields),
    }
}

// What a meter's columns say.
#[tactic(auto, unfolding(crate::specs::Roster::meter_of_columns))]
fn read_columns(columns: &Columns<'_>) -> Result<Commission, LineCause>
    ensures { result ≡ meter_of_columns (columns_in columns.now) }
{
    let Ok(address) = Address::read_text(columns.address) else {
        return Err(LineCause::Address);
    };
    let mode = read_mode(columns.mode).ok_or(LineCause::Mode)?;
    let key = read_key(columns.key).ok_or(LineCause::Key)?;
    let other = read_other(mode, columns.other).ok_or(LineCause::Other)?;
    let last = read_last(mode, columns.last).ok_or(LineCause::Last)?;
    let down = read_counter(columns.down).ok_or(LineCause::Down)?;
    let ids = read_counter(columns.ids).ok_or(LineCause::Ids)?;
    Ok(Commission {
        address,
        mode,
        key,
        other,
        last,
        down,
        ids,
    })
}

/// What a meter's line says by itself.
pub fn read_meter(version: Version, line: &[u8]) -> Result<Commission, LineCause>
    ensures { result ≡ meter_of version line.now }
{
    let mut fields = Fields::of_line(line);
    let Some(kind) = fields.next() else {
        return Err(LineCause::Kind);
    };
    if kind != b"meter".as_slice() {
        return Err(LineCause::Kind);
    }
    let columns = columns_by(version, &mut fields).ok_or(LineCause::Fields)?;
    read_columns(&columns)
}

/// What the own line says.
pub fn read_own_line(line: &[u8]) -> Result<Address, LineCause>
    ensures { result ≡ own_of line.now }
{
    let mut fields = Fields::of_line(line);
    let Some(kind) = fields.next() else {
        return Err(LineCause::Own);
    };
    let Some(address) = fields.next() else {
        return Err(LineCause::Own);
    };
    if fields.next().is_some() || kind != b"own".as_slice() {
        return Err(LineCause::Own);
    }
    match Address::read_text(address) {
        Ok(address) => Ok(address),
        Err(_) => Err(LineCause::Own),
    }
}
