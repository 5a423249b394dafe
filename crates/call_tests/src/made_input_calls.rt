//! Sessions as another program made them (`made_inputs` of tests/reference/made.py): a small one byte for byte, others by sums of their bytes.
use crate::asserts::{NO_MEMORY, assert_bytes, assert_shown};
use made_input::{Made, MadeText, make};
use std::alloc::Global;
use std::process::Abort;

const ROSTER: &str = "\
wmbus-roster 2
own 9315010000000131
meter 9315010000000107 7 bc28437e7f1aa6f4625a15e822b7d245 - - 0 0
meter 9315020000000107 7 d271314407926f23d07f236728707252 - - 0 0
";

const LINES: &str = "\
A 1 304493150100000001077023900f002c250100000014af49f78321f70888a77a010010071058551cef268a4f9776dda61c508b1461ad2795d5
A 2 304493150200000001070fde900f002c25010000002d8b43b1fbe377d3ef4b7a0100100710bb21e9e6ddf992b7ac54e6b8cb04c3a9b61212a1
A 3 0e449315999999990107a4f47a030000001c0f
A 4 304493150100000001077023900f002c250200000001e862133970de2d8c157a010010071000027be2d4b00bcb21260838ef389376237af8c8
A 5 304493150200000001070fde900f002c2502000000657bb28547f0217a3e3f7a0100100710ac5636ff8b6778b25d32e2f6a241d193fb38b783
";

// The sum of bytes: that of those before each of them times 257, and the byte, modulo 2^64.
fn sum_of(bytes: &[u8]) -> u64 {
    let mut sum = 0_u64;
    for byte in bytes {
        sum = sum.wrapping_mul(257).wrapping_add(u64::from(*byte));
    }
    sum
}

fn sum_of_text(rt: &impl Abort, alloc: Global, text: &MadeText) -> u64 {
    sum_of(&text.joined(alloc).ok().expect(rt, NO_MEMORY))
}

// Asserts the sums of a session's roster and of what each of its receivers hears.
fn assert_made(rt: &impl Abort, alloc: Global, made: Made, wanted: &str) {
    let sums = [
        sum_of(&made.roster),
        sum_of_text(rt, alloc, &made.first),
        sum_of_text(rt, alloc, &made.second),
        sum_of_text(rt, alloc, &made.third),
        sum_of_text(rt, alloc, &made.fourth),
    ];
    assert_shown(rt, alloc, &sums, wanted, wanted);
}

#[test]
fn a_small_session_is_as_another_program_made_it(rt: HostRuntime) {
    let made = make(&rt, rt.alloc(), 2, 5, 7).ok().expect(&rt, NO_MEMORY);
    let first = made.first.joined(rt.alloc()).ok().expect(&rt, NO_MEMORY);
    assert_bytes(&rt, &made.roster, ROSTER.as_bytes(), "roster");
    assert_bytes(&rt, &first, LINES.as_bytes(), "first");
}

// That small one, the 256th round, keys drawn from the last number, the most meters, and a large one.
#[test]
fn sessions_have_the_sums_of_those_that_another_program_made(rt: HostRuntime) {
    assert_made(
        &rt,
        rt.alloc(),
        make(&rt, rt.alloc(), 2, 5, 7).ok().expect(&rt, NO_MEMORY),
        "[10481755530024231907, 631304658931542367, 13641705019911882847, 16571248415811999583, 17759233624005401183]",
    );
    assert_made(
        &rt,
        rt.alloc(),
        make(&rt, rt.alloc(), 1, 512, 3).ok().expect(&rt, NO_MEMORY),
        "[622036936452317854, 921052597050652036, 13745043747759447428, 10677373564697179524, 9244378300373632900]",
    );
    assert_made(
        &rt,
        rt.alloc(),
        make(&rt, rt.alloc(), 12, 12, u64::MAX)
            .ok()
            .expect(&rt, NO_MEMORY),
        "[5837248731763766459, 308444584303063913, 7796920245363957097, 17535504558341235817, 10797439522915604841]",
    );
    assert_made(
        &rt,
        rt.alloc(),
        make(&rt, rt.alloc(), 1_024, 1_024, 5)
            .ok()
            .expect(&rt, NO_MEMORY),
        "[16019460544907220942, 18310726344534927813, 390034841064595909, 10558574234139982021, 2216451740313554373]",
    );
    assert_made(
        &rt,
        rt.alloc(),
        make(&rt, rt.alloc(), 50, 5_000, 7)
            .ok()
            .expect(&rt, NO_MEMORY),
        "[323375960773539415, 11196092063435235550, 10614643397989392862, 7346833078433433310, 16530763729489478366]",
    );
}
