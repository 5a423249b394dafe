//! What a compact profile says before its values: the spacing control, and the spacing value behind it.

ghost use Rattle.std.specs.Prelude.{◌≡◌, ◌%◌, ◌<◌, ◌≤◌, IfSome, Some};
ghost use Rattle.full_spans.specs.Long.{IsFullSpan};
ghost use Rattle.record_values.specs.Values.{data_of};
ghost use Rattle.compact_profiles.specs.Profiles.{mode_of, profile, profile_in, sized, spacing_of, value_width, days_of};

use crate::kinds::{ProfileKind, kind_of_record};
use dif_vif::RecordSpan;

/// How a value is sent: bits 7 and 6 of the spacing control.
#[derive(Clone, Copy)]
pub enum IncrementMode {
    /// Whole.
    Absolute,
    /// As how much more it is than the one before it.
    Positive,
    /// As how much less it is than the one before it.
    Negative,
    /// As what is added to the one before it, with a sign.
    Signed,
}

/// How far the values are apart in time: bits 5 and 4 of the spacing control have the unit, the spacing value how many.
#[derive(Clone, Copy)]
pub enum Spacing {
    /// None is known.
    Unknown,
    /// So many seconds.
    Seconds(u8),
    /// So many minutes.
    Minutes(u8),
    /// So many hours.
    Hours(u8),
    /// So many days.
    Days(u8),
    /// Half a month.
    HalfMonth,
    /// A month.
    Month,
}

/// A compact profile.
#[derive(Clone, Copy)]
pub struct Profile {
    /// Which one it is.
    pub kind: ProfileKind,
    /// How each value is sent.
    pub mode: IncrementMode,
    /// How far the values are apart in time.
    pub spacing: Spacing,
    /// The data field of each value, as that of a DIF: bits 3 to 0 of the spacing control.
    pub field: u8,
    /// How many bytes each value has.
    pub width: usize,
    /// How many values there are.
    pub count: usize,
}

fn mode_of(control: u8) -> IncrementMode
    ensures { result ≡ mode_of control }
{
    match control / 64 {
        0 => IncrementMode::Absolute,
        1 => IncrementMode::Positive,
        2 => IncrementMode::Negative,
        _ => IncrementMode::Signed,
    }
}

fn days_of(value: u8) -> Spacing
    ensures { result ≡ days_of value }
{
    match value {
        254 => Spacing::Month,
        253 => Spacing::HalfMonth,
        _ => Spacing::Days(value),
    }
}

fn spacing_of(control: u8, value: u8) -> Spacing
    ensures { result ≡ spacing_of control value }
{
    if value == 0 {
        return Spacing::Unknown;
    }
    match control / 16 % 4 {
        0 => Spacing::Seconds(value),
        1 => Spacing::Minutes(value),
        2 => Spacing::Hours(value),
        _ => days_of(value),
    }
}

/// How many bytes a whole number of a data field has (EN 13757-3, 6.3); none where the data field has no whole number.
pub fn value_width(field: u8) -> Option<usize>
    ensures value { result ≡ value_width field }
    ensures some { IfSome result (λ width. 0 < width) }
    ensures few { IfSome result (λ width. width ≤ 8) }
{
    match field {
        1..=4 => Some(usize::from(field)),
        6 => Some(6),
        7 => Some(8),
        9..=12 => Some(usize::from(field - 8)),
        14 => Some(6),
        _ => None,
    }
}

/// The profile of so many bytes of values: none where a rest of bytes is left.
fn sized(kind: ProfileKind, control: u8, spacing: u8, left: usize) -> Option<Profile>
    ensures { result ≡ sized kind control spacing left (value_width (control % 16)) }
{
    let field = control % 16;
    let width = value_width(field)?;
    if left % width != 0 {
        return None;
    }
    Some(Profile {
        kind,
        mode: mode_of(control),
        spacing: spacing_of(control, spacing),
        field,
        width,
        count: left / width,
    })
}

#[tactic(auto, unfolding(crate::specs::Profiles::profile_in))]
fn profile_in(kind: ProfileKind, sent: &[u8]) -> Option<Profile>
    ensures { result ≡ profile_in (Some kind) sent.now }
{
    match sent {
        [control, spacing, values @ ..] => sized(kind, *control, *spacing, values.len()),
        _ => None,
    }
}

/// The data of a record.
pub fn sent_of<'a>(bytes: &'a [u8], span: &RecordSpan) -> &'a [u8]
    requires { IsFullSpan bytes.now span.now }
    ensures { result.now ≡ data_of bytes.now span.now }
{
    let (_, rest) = bytes.split_at(span.data_at);
    let (sent, _) = rest.split_at(span.data_len);
    sent
}

/// The compact profile that a record of these bytes is, if it is one (EN 13757-3, annex on profiles).
#[tactic(auto, unfolding(crate::specs::Profiles::profile_in))]
pub fn profile_of(bytes: &[u8], span: &RecordSpan) -> Option<Profile>
    requires { IsFullSpan bytes.now span.now }
    ensures { result ≡ profile bytes.now span.now }
{
    let kind = kind_of_record(bytes, span)?;
    profile_in(kind, sent_of(bytes, span))
}
