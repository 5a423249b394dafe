//! Which fault a text has that is no address.
use crate::asserts::assert_shown;
use meter_address::{Address, AddressFault};

// Whether a text has this length and is no address by it.
fn is_too_long_or_short(text: &[u8], length: usize) -> bool {
    matches!(Address::read_text(text), Err(AddressFault::Length(it)) if it == length)
}

// Whether the first byte of a text that is no digit stands at this place.
fn is_wrong_at(text: &[u8], place: usize) -> bool {
    matches!(Address::read_text(text), Err(AddressFault::Digit(it)) if it == place)
}

#[test]
fn a_text_that_is_no_address_has_its_first_fault_named(rt: HostRuntime) {
    let named = (
        is_too_long_or_short(b"", 0),
        is_too_long_or_short(b"931502030104010", 15),
        is_too_long_or_short(b"g315020301040107z", 17),
        is_wrong_at(b"931502030104010 ", 15),
        is_wrong_at(b"9315020g0104g107", 7),
    );
    assert_shown(
        &rt,
        rt.alloc(),
        &named,
        "(true, true, true, true, true)",
        "faults",
    );
}
