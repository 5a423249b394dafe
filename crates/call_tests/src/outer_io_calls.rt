//! The objects in memory, of which no program makes one: their calls fail as they are listed.
use crate::asserts::{assert_bytes, assert_shown, bytes_of, call};
use outer_io::{Failed, MemorySink, MemorySource, Sink, Source, write_all};
use std::process::Abort;

// Asserts what a read into these bytes answers, and what they then have.
fn assert_read(
    rt: &impl Abort,
    source: &mut MemorySource,
    into: &mut [u8; 4],
    wanted: Result<usize, Failed>,
    bytes: &str,
) {
    let answer = source.read(into);
    assert_eq!(rt; answer.ok(), wanted.ok(), "{bytes}");
    assert_bytes(rt, into, bytes.as_bytes(), "read");
}

#[test]
fn listed_reads_fail_and_the_others_give_all_there_is_room_for(rt: HostRuntime) {
    let alloc = rt.alloc();
    let mut source = MemorySource::new(bytes_of(&rt, alloc, "abcdef"), call(&rt, alloc, 2));
    let mut steady = MemorySource::steady(alloc, bytes_of(&rt, alloc, "g"));
    let mut pieces = MemorySource::pieces(bytes_of(&rt, alloc, "hijkl"), 2, call(&rt, alloc, 2));
    let mut into = [b' '; 4];
    assert_read(&rt, &mut source, &mut into, Ok(4), "abcd");
    assert_read(&rt, &mut source, &mut into, Err(Failed), "abcd");
    assert_read(&rt, &mut source, &mut into, Ok(2), "efcd");
    assert_read(&rt, &mut source, &mut into, Ok(0), "efcd");
    assert_read(&rt, &mut steady, &mut into, Ok(1), "gfcd");
    assert_read(&rt, &mut pieces, &mut into, Ok(2), "hicd");
    assert_read(&rt, &mut pieces, &mut into, Err(Failed), "hicd");
    assert_read(&rt, &mut pieces, &mut into, Ok(2), "jkcd");
    assert_read(&rt, &mut pieces, &mut into, Ok(1), "lkcd");
    assert_read(&rt, &mut pieces, &mut into, Ok(0), "lkcd");
}

#[test]
fn listed_writes_fail_and_the_others_take_all(rt: HostRuntime) {
    let alloc = rt.alloc();
    let mut sink = MemorySink::new(alloc, call(&rt, alloc, 2));
    let mut steady = MemorySink::steady(alloc);
    let mut pieces = MemorySink::pieces(alloc, 2, call(&rt, alloc, 3));
    let answers = (
        write_all(&mut sink, b"abc").is_ok(),
        write_all(&mut sink, b"def").is_ok(),
        write_all(&mut sink, b"ghi").is_ok(),
        write_all(&mut steady, b"jk").is_ok(),
        write_all(&mut pieces, b"abcde").is_ok(),
    );
    assert_shown(
        &rt,
        alloc,
        &answers,
        "(true, false, true, true, false)",
        "writes",
    );
    assert_bytes(&rt, sink.bytes(), b"abcghi", "listed");
    assert_bytes(&rt, steady.bytes(), b"jk", "steady");
    assert_bytes(&rt, pieces.bytes(), b"abcd", "pieces");
    assert_eq!(rt; pieces.write(b"efg").ok(), Some(2));
}
