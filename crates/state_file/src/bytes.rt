//! Bytes in hexadecimal digits.
ghost use Rattle.std.specs.Prelude.{◌≡◌, ◌≢◌, Some, None, IfOk, MatchOption};
ghost use Rattle.std.specs.Result.{result_ok};
ghost use Rattle.hex.specs.Hex.{decode_of};
ghost use Rattle.state_file.specs.State.{bytes_in};

use hex::FromHexError;
use outer_io::Memory;
use std::alloc::Global;

/// The bytes of a text of digits, where it is one.
pub(crate) fn decode(alloc: Global, text: &[u8]) -> Result<Option<Vec<u8>>, Memory>
    ensures { IfOk result (λ bytes. MatchOption bytes
        (result_ok (decode_of text.now) ≡ None)
        (λ v. result_ok (decode_of text.now) ≡ Some v.items)) }
{
    match hex::decode(alloc, text) {
        Ok(bytes) => Ok(Some(bytes)),
        Err(FromHexError::OutOfMemory) => Err(Memory),
        Err(_) => Ok(None),
    }
}

/// The same, where a dash stands for no bytes.
pub(crate) fn decode_or_dash(alloc: Global, text: &[u8]) -> Result<Option<Vec<u8>>, Memory>
    ensures { IfOk result (λ bytes. MatchOption bytes
        (bytes_in text.now ≡ None)
        (λ v. bytes_in text.now ≡ Some v.items)) }
{
    if text == b"-".as_slice() {
        return Ok(Some(Vec::new(alloc)));
    }
    decode(alloc, text)
}
