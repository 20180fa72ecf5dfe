// Sources and sinks of each kind: what is read and written, and that memory which is there is used.
use crate::running::{sink, source};
use byte_ports::{EndlessSource, ReadRefused, read_up_to, write_all};
use std::alloc::Global;
use std::process::Abort;

const DIGITS: &[u8] = b"0123456789";

/// Whether the ten digits were read, or nothing for this cause.
fn is_answer(answer: &Result<Vec<u8>, ReadRefused>, refused: Option<ReadRefused>) -> bool {
    match answer {
        Ok(bytes) => refused.is_none() && bytes.as_slice() == DIGITS,
        Err(cause) => refused == Some(*cause),
    }
}

/// The most bytes that a source gives at a call, the calls that fail, how many bytes are read at most, and why none is.
type Read = (usize, &'static [u32], usize, Option<ReadRefused>);

static READS: &[Read] = &[
    (3, &[], 10, None),
    (100, &[], 9, Some(ReadRefused::TooLong)),
    (4, &[0], 10, Some(ReadRefused::Fault)),
    (4, &[3], 10, Some(ReadRefused::Fault)),
];

/// Whether reading ten digits is answered so.
fn reads_so(rt: &impl Abort, alloc: Global, it: &Read) -> bool {
    let (piece, fail_at, limit, refused) = it;
    let fail_at = Vec::from_slice(alloc, fail_at).expect(rt, "memory");
    let mut digits = source(rt, alloc, DIGITS, *piece, fail_at);
    let answer = read_up_to(alloc, &mut digits, *limit);
    drop(digits);
    let same = is_answer(&answer, *refused);
    drop(answer);
    same
}

#[test]
fn reads_to_the_end_or_names_the_cause(rt: HostRuntime) {
    for it in READS {
        assert!(rt; reads_so(&rt, rt.alloc(), it));
    }
}

#[test]
fn reads_no_source_without_end(rt: HostRuntime) {
    let answer = read_up_to(rt.alloc(), &mut EndlessSource::new(), 65_536);
    let refused = is_answer(&answer, Some(ReadRefused::TooLong));
    drop(answer);
    assert!(rt; refused);
}

/// The room of a sink, the calls that fail, what is written of a text, and whether that is all of it.
type Write = (usize, &'static [u32], &'static [u8], bool);

static WRITES: &[Write] = &[
    (20, &[], b"cise report 1", true),
    (20, &[1], b"cise rep", false),
    (5, &[], b"cise ", false),
];

/// Whether a sink that takes eight bytes at a call holds that of the text.
fn writes_so(rt: &impl Abort, alloc: Global, it: &Write) -> bool {
    let (room, fail_at, held, whole) = it;
    let fail_at = Vec::from_slice(alloc, fail_at).expect(rt, "memory");
    let mut out = sink(rt, alloc, *room, 8, fail_at);
    let answer = write_all(&mut out, b"cise report 1");
    let same = out.held() == *held && answer.is_ok() == *whole;
    drop(out);
    same
}

#[test]
fn writes_all_or_a_front(rt: HostRuntime) {
    for it in WRITES {
        assert!(rt; writes_so(&rt, rt.alloc(), it));
    }
}
