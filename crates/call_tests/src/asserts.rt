//! What the tests assert, and what a row's digits spell. What fails for want of memory ends the test: a function that hands an error on
//! takes much longer to prove.
use hex::FromHex;
use std::alloc::Global;
use std::fmt::Debug;
use std::process::Abort;

/// What a test says where an allocation failed.
pub(crate) const NO_MEMORY: &str = "no memory";

/// The bytes that hexadecimal digits spell: `-` stands for none.
pub(crate) fn bytes(rt: &impl Abort, alloc: Global, digits: &str) -> Vec<u8> {
    let digits = if digits == "-" { "" } else { digits };
    hex::decode(alloc, digits).expect(rt, "no bytes")
}

/// The sixteen bytes that hexadecimal digits spell.
pub(crate) fn block(rt: &impl Abort, digits: &str) -> [u8; 16] {
    <[u8; 16] as FromHex>::from_hex(digits).expect(rt, "no block")
}

/// The bytes of a text.
pub(crate) fn bytes_of(rt: &impl Abort, alloc: Global, text: &str) -> Vec<u8> {
    text.as_bytes().to_vec(alloc).expect(rt, NO_MEMORY)
}

/// The number of the call that fails, alone in a list.
pub(crate) fn call(rt: &impl Abort, alloc: Global, number: u64) -> Vec<u64> {
    vec![in alloc; number].expect(rt, NO_MEMORY)
}

/// Asserts that bytes are these.
pub(crate) fn assert_bytes(rt: &impl Abort, bytes: &[u8], wanted: &[u8], name: &str) {
    assert_eq!(rt; bytes, wanted, "{name}");
}

/// Asserts that a value is shown so.
pub(crate) fn assert_shown<T: Debug>(
    rt: &impl Abort,
    alloc: Global,
    value: &T,
    wanted: &str,
    name: &str,
) {
    let shown = format!(in alloc; "{value:?}").expect(rt, NO_MEMORY);
    assert_eq!(rt; shown.as_str(), wanted, "{name}");
}
