//! The two formats of a frame, and reading a frame of either.
ghost use Rattle.std.specs.Prelude.{◌≡◌, ◌≤◌, ◌<◌, false, length, slice_index, Ok, Err, OnErr, MatchResult};
ghost use Rattle.frame_formats.specs.Decoding.{least, leaves_out, whole_len, telegram_in, decoded};
ghost use Rattle.frame_formats.specs.Decodes.{Decodes};

use crate::format_a::read_telegram_a;
use crate::format_b::read_telegram_b;
use crate::{FrameFault, Telegram};

/// The format of a frame (EN 13757-4).
#[derive(Clone, Copy)]
pub enum Format {
    /// Format A: a block of 10 bytes, then blocks of 16, each with its CRC.
    A,
    /// Format B: one block or two, each with its CRC. L counts the CRCs too.
    B,
}

// The least L.
fn least(format: Format) -> u8
    ensures { result ≡ least format }
{
    match format {
        Format::A => 10,
        Format::B => 12,
    }
}

// Whether the format leaves out this L.
fn leaves_out(format: Format, length: u8) -> bool
    ensures { result ≡ leaves_out format length }
{
    match format {
        Format::A => false,
        Format::B => length == 128 || length == 129,
    }
}

// How many bytes a frame with this L has.
fn whole_len(format: Format, length: u8) -> usize
    ensures { result ≡ whole_len format length }
{
    let length = length as usize;
    match format {
        Format::A => length + 1 + 2 * (1 + (length.saturating_sub(9) + 15) / 16),
        Format::B => length + 1,
    }
}

// The telegram of as many bytes as their L says.
fn read_telegram(format: Format, bytes: &[u8]) -> Result<Telegram, FrameFault>
    requires byte { slice_index bytes.now 0 < 256 }
    requires least { least format ≤ slice_index bytes.now 0 }
    requires no_gap { leaves_out format (slice_index bytes.now 0) ≡ false }
    requires whole { length bytes.now ≡ whole_len format (slice_index bytes.now 0) }
    ensures { MatchResult result (λ t. telegram_in format bytes.now ≡ Ok t) (λ e. telegram_in format bytes.now ≡ Err e) }
{
    match format {
        Format::A => read_telegram_a(bytes),
        Format::B => read_telegram_b(bytes),
    }
}

// The telegram, or the first fault.
#[tactic(auto, unfolding(crate::specs::Decoding::decoded))]
fn read(format: Format, bytes: &[u8], out: &mut Telegram) -> Result<(), FrameFault>
    ensures exact { MatchResult result (λ _. decoded format bytes.now ≡ Ok out.new) (λ e. decoded format bytes.now ≡ Err e) }
    ensures err { OnErr result (out.new ≡ out.old) }
{
    let Some(length) = bytes.first().copied() else {
        return Err(FrameFault::Empty);
    };
    if length < least(format) {
        return Err(FrameFault::Short(length));
    }
    if leaves_out(format, length) {
        return Err(FrameFault::Gap(length));
    }
    let want = whole_len(format, length);
    if bytes.len() != want {
        return Err(FrameFault::Length {
            want,
            have: bytes.len(),
        });
    }
    *out = read_telegram(format, bytes)?;
    Ok(())
}

/// Reads a frame of this format. Each error is the first that the bytes show, in the order of `FrameFault`, and leaves
/// `out` as it was.
pub fn decode(format: Format, bytes: &[u8], out: &mut Telegram) -> Result<(), FrameFault>
    ensures decodes { Decodes format bytes.now out.old out.new result }

    // The same as one function of the bytes.
    ensures exact { MatchResult result (λ _. decoded format bytes.now ≡ Ok out.new) (λ e. decoded format bytes.now ≡ Err e) }
{
    read(format, bytes, out)
}
