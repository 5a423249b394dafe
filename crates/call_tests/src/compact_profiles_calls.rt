//! The values of compact profiles: of a published one, and of made ones whose values are increments.
use crate::asserts::{assert_shown, bytes};
use compact_profiles::{ProfileValue, ProfileValues, profile_values};
use full_spans::next_full_record;
use std::alloc::Global;
use std::process::Abort;

/// A published record with VIFE 1E: 14 volumes of eight digits, each a month after the one before it, from the storage
/// number 9 on.
const PUBLISHED: &str =
    "8d04931e3a3cfe3300000033000000330000003300000033000000330000003300000033000000330000003300000033000000330000004300000034180000";

/// The values of the record with which bytes begin.
fn values_of(rt: &impl Abort, bytes: &[u8], base: Option<i128>) -> ProfileValues {
    match next_full_record(bytes, 0) {
        Ok(Some(span)) => profile_values(bytes, &span, base),
        _ => panic!(rt; "no record"),
    }
}

fn pair(value: Option<&ProfileValue>) -> Option<(Option<u64>, Option<i128>)> {
    match value {
        Some(value) => Some((value.storage, value.value)),
        None => None,
    }
}

/// Asserts how many values there are, and what the first and the last one are.
fn assert_values(rt: &impl Abort, alloc: Global, payload: &str, base: Option<i128>, wanted: &str) {
    let payload = bytes(rt, alloc, payload);
    let values = values_of(rt, payload.as_slice(), base);
    let told = values.as_slice();
    let ends = (told.len(), pair(told.first()), pair(told.last()));
    assert_shown(rt, alloc, &ends, wanted, "a profile");
}

#[test]
fn profiles_have_the_values_of_their_bytes(rt: HostRuntime) {
    let alloc = rt.alloc();
    let published = "(14, Some((Some(9), Some(33))), Some((Some(22), Some(1834))))";
    assert_values(&rt, alloc, PUBLISHED, None, published);
    let upwards = "(3, Some((Some(9), Some(105))), Some((Some(11), Some(114))))";
    assert_values(&rt, alloc, "8d04931e05410f050702", Some(100), upwards);
    let back = "(2, Some((None, Some(95))), Some((None, Some(93))))";
    assert_values(&rt, alloc, "8d0493130441000502", Some(100), back);
    assert_values(
        &rt,
        alloc,
        "8d04931e05420f05ff02",
        Some(100),
        "(0, None, None)",
    );
}
