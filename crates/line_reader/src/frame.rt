//! The bytes of a frame, as a receiver gave them.
use crate::digits::decode;
use std::marker::Model;

/// The most bytes that a line can give.
pub const FRAME_MAX: usize = 512;

/// The bytes that a line gives: at most 512. What stands in the array behind them counts nowhere.
#[derive(Drop)]
pub struct FrameBytes {
    bytes: [u8; FRAME_MAX],
    len: usize,
}

impl Model for FrameBytes {
    ghost use Rattle.std.specs.Prelude.{ℕ, ◌≤◌, List, take};
    ghost use Rattle.line_reader.specs.declared.frame.TheConstants.{FRAME_MAX};

    ghost Value = { List ℕ };

    ghost view = { λ f. take f.len f.bytes };

    ghost invariant = { λ f. f.len ≤ FRAME_MAX };
}

impl FrameBytes {
    ghost use Rattle.std.specs.Prelude.{◌≡◌, ◌≤◌, ◌*◌, length, option_map};
    ghost use Rattle.std.specs.Result.{result_ok};
    ghost use Rattle.hex.specs.Hex.{decode_of};

    /// The bytes of hexadecimal digits of either case, where these are an even number.
    pub fn from_hex(digits: &[u8]) -> Option<FrameBytes>
        requires { length digits.now ≤ 2 * FRAME_MAX }
        ensures { result ≡ result_ok (decode_of digits.now) }
    {
        let mut frame = FrameBytes::empty();
        frame.read_hex(digits)?;
        Some(frame)
    }

    // No bytes.
    pub(crate) fn empty() -> FrameBytes {
        FrameBytes {
            bytes: [0; FRAME_MAX],
            len: 0,
        }
    }

    // Becomes the bytes of hexadecimal digits, where these are an even number: in place, since so large a value costs
    // wherever it is moved.
    pub(crate) fn read_hex(&mut self, digits: &[u8]) -> Option<()>
        requires { length digits.now ≤ 2 * FRAME_MAX }
        ensures { option_map (λ done. self.new) result ≡ result_ok (decode_of digits.now) }
    {
        if digits.len() % 2 != 0 {
            return None;
        }
        let len = digits.len() / 2;
        let (room, _) = self.bytes.split_at_mut(len);
        decode(digits, room)?;
        self.len = len;
        Some(())
    }

    /// The bytes.
    pub fn bytes(&self) -> &[u8]
        ensures bytes { result.now ≡ self.now }
        ensures most { length self.now ≤ FRAME_MAX }
    {
        &self.bytes[..self.len]
    }
}
