//! CMACs against the examples of RFC 4493, and against rows that another implementation made.
use crate::asserts::{assert_bytes, block, bytes};
use aes_block::Keys;
use cbc_cmac::cmac_of_pieces;
use std::alloc::Global;
use std::process::Abort;

mod rows;

// The message has the CMAC that the row says.
fn assert_mac(rt: &impl Abort, alloc: Global, row: &str) {
    let (key, row) = row.split_once(' ').expect(rt, "too few fields");
    let (message, mac) = row.split_once(' ').expect(rt, "too few fields");
    let keys = Keys::new(&block(rt, key));
    let message = bytes(rt, alloc, message);
    let made = cmac_of_pieces(&keys, &[message.as_slice()]);
    assert_bytes(rt, &made, &block(rt, mac), row);
}

#[test]
fn macs_are_as_the_standard_and_another_implementation_have_them(rt: HostRuntime) {
    let mut count: u32 = 0;
    for row in rows::MACS.lines() {
        assert_mac(&rt, rt.alloc(), row);
        count = count.saturating_add(1);
    }
    assert_eq!(rt; count, 77);
}
