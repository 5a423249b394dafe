//! Lines of culfw.
ghost use Rattle.std.specs.Prelude.{◌≡◌, ◌-◌, length, take, Ok, Err, MatchResult};
ghost use Rattle.line_feed.specs.Cul.{is_length, without_quality, decoded_heard, framed, behind_letter, cul_heard};

use crate::digits::read_bytes;
use crate::heard::Reception;
use crate::reasons::NotTaken;
use frame_formats::{Format, FrameFault, Telegram, decode};

// Whether the bytes are more or fewer than L says.
fn is_length(fault: FrameFault) -> bool
    ensures { result ≡ is_length fault }
{
    match fault {
        FrameFault::Length { .. } => true,
        FrameFault::Empty | FrameFault::Short(_) | FrameFault::Gap(_) | FrameFault::Crc(_) => false,
    }
}

// What stands in front of two bytes of link quality.
fn without_quality(bytes: &[u8]) -> &[u8]
    ensures { result.now ≡ without_quality bytes.now }
{
    let (frame, _) = bytes.split_at(bytes.len().saturating_sub(2));
    frame
}

// The telegram of a frame, behind which two bytes of link quality may stand.
fn decode_heard(format: Format, bytes: &[u8], telegram: &mut Telegram) -> Result<(), FrameFault>
    ensures { MatchResult result
        (λ _. decoded_heard format bytes.now ≡ Ok telegram.new) (λ e. decoded_heard format bytes.now ≡ Err e) }
{
    let Err(fault) = decode(format, bytes, telegram) else {
        return Ok(());
    };
    if !is_length(fault) {
        return Err(fault);
    }
    decode(format, without_quality(bytes), telegram)
}

#[tactic(auto, unfolding(crate::specs::Cul::framed))]
fn read_framed(format: Format, digits: &[u8]) -> Result<Reception, NotTaken>
    ensures { result ≡ framed format digits.now }
{
    let bytes = read_bytes(digits)?;
    let mut telegram = Telegram::shortest();
    match decode_heard(format, bytes.bytes(), &mut telegram) {
        Ok(()) => Ok(Reception {
            telegram,
            moment: None,
        }),
        Err(fault) => Err(NotTaken::Frame(fault)),
    }
}

fn read_behind_letter(text: &[u8]) -> Result<Reception, NotTaken>
    ensures { result ≡ behind_letter text.now }
{
    match text {
        [b'Y', digits @ ..] => read_framed(Format::B, digits),
        _ => read_framed(Format::A, text),
    }
}

/// What a line of culfw gives: a frame with its CRCs behind `b`, or one of format B behind `bY`.
pub(crate) fn read_cul(line: &[u8]) -> Result<Reception, NotTaken>
    ensures { result ≡ cul_heard line.now }
{
    match line {
        [b'b', text @ ..] => read_behind_letter(text),
        _ => Err(NotTaken::Letter),
    }
}
