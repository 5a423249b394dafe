//! Telegrams from hexadecimal digits.
ghost use Rattle.std.specs.Prelude.{◌≡◌};
ghost use Rattle.line_feed.specs.Digits.{bytes_in, telegram_of, telegram_in};

use crate::reasons::NotTaken;
use frame_formats::Telegram;
use line_reader::FrameBytes;

/// The bytes of digits.
pub(crate) fn read_bytes(digits: &[u8]) -> Result<FrameBytes, NotTaken>
    ensures { result ≡ bytes_in digits.now }
{
    if digits.len() > 1_024 {
        return Err(NotTaken::Hex);
    }
    FrameBytes::from_hex(digits).ok_or(NotTaken::Hex)
}

/// The telegram that these bytes are.
pub(crate) fn telegram_of(bytes: &[u8]) -> Result<Telegram, NotTaken>
    ensures { result ≡ telegram_of bytes.now }
{
    match Telegram::from_bytes(bytes) {
        Some(telegram) => Ok(telegram),
        None => Err(NotTaken::Length),
    }
}

/// The telegram of digits.
pub(crate) fn read_telegram(digits: &[u8]) -> Result<Telegram, NotTaken>
    ensures { result ≡ telegram_in digits.now }
{
    let bytes = read_bytes(digits)?;
    telegram_of(bytes.bytes())
}
