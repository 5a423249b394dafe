//! What holds of frames as such. These functions do nothing: each one's contract is a law.
ghost use Rattle.frame_formats.specs.Crc.{OneCrc};
ghost use Rattle.frame_formats.specs.Laws.{OneTelegramA, OneTelegramB, OneFrameA, FramesAreDecoded, TelegramsAreBytes};

/// Every block of bytes has one CRC.
pub fn one_crc()
    ensures { OneCrc }
{}

/// Bytes are a frame of format A of at most one telegram.
pub fn one_telegram_a()
    ensures { OneTelegramA }
{}

/// Bytes are a frame of format B of at most one telegram.
pub fn one_telegram_b()
    ensures { OneTelegramB }
{}

/// A telegram has one frame of format A, which is read back.
#[tactic(auto, using(crate::proofs::FrameLaws::one_frame_a))]
pub fn one_frame_a()
    ensures { OneFrameA }
{}

/// What bytes are decoded to is the telegram whose frame they are.
#[tactic(auto, using(crate::proofs::EitherFormat::frames_are_decoded))]
pub fn frames_are_decoded()
    ensures { FramesAreDecoded }
{}

/// A frame of bytes has a telegram of bytes.
#[tactic(auto, using(crate::proofs::EitherFormat::telegrams_are_bytes))]
pub fn telegrams_are_bytes()
    ensures { TelegramsAreBytes }
{}
