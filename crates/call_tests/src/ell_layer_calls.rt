//! Bytes that no telegram has where its link layer is extended: the extension is read where there is one.
use crate::asserts::assert_shown;
use ell_layer::{EllFault, read_ell};

#[test]
fn no_extension_begins_with_another_byte_or_none(rt: HostRuntime) {
    let told = (
        matches!(read_ell(&[]), Err(EllFault::Truncated(0))),
        matches!(read_ell(&[0x7A]), Err(EllFault::Kind(0x7A))),
    );
    assert_shown(&rt, rt.alloc(), &told, "(true, true)", "no extension");
}
