// What stops each command: a source or a sink that fails at a call, and a source without end. Ports that move few bytes at a call stop none.
use crate::examples::{ODD, RAISED_REPORT};
use crate::replay::{REPLAY, TWO_WITHDRAWALS};
use crate::running::{Pieces, Port, ends_from, is_alike, run_on, source, stopped_runs};
use crate::simulate::{GRANTED, SIMULATE};
use crate::suggestions::SUGGEST;
use byte_ports::EndlessSource;
use example_specs::{FLAG, NO_FLAG, PURSES, RAISED, WITHDRAWALS};
use std::alloc::Global;
use std::process::Abort;

const CHECK: &[&str] = &["check", "s.cise"];

const SPELL: &[&str] = &["spell", "s.cise"];

const VERIFY: &[&str] = &["verify", "s.cise", "s.report"];

const UPGRADE: &[&str] = &["upgrade", "s.cise", "s.report"];

const SAMPLE: &[&str] = &["sample", "1"];

/// The words of a run, and what its sources give, where it reads them.
#[derive(Clone, Copy)]
struct Run {
    words: &'static [&'static str],
    spec: Option<&'static [u8]>,
    extra: Option<&'static [u8]>,
}

/// Runs that read one input or none.
static OF_ONE: &[Run] = &[
    Run {
        words: CHECK,
        spec: Some(FLAG),
        extra: None,
    },
    Run {
        words: CHECK,
        spec: Some(NO_FLAG),
        extra: None,
    },
    Run {
        words: SPELL,
        spec: Some(WITHDRAWALS),
        extra: None,
    },
    Run {
        words: SAMPLE,
        spec: None,
        extra: None,
    },
    Run {
        words: SUGGEST,
        spec: Some(ODD),
        extra: None,
    },
];

fn of_one() -> &'static [Run] {
    OF_ONE
}

/// Runs that read two.
static OF_BOTH: &[Run] = &[
    Run {
        words: VERIFY,
        spec: Some(RAISED),
        extra: Some(RAISED_REPORT),
    },
    Run {
        words: UPGRADE,
        spec: Some(RAISED),
        extra: Some(RAISED_REPORT),
    },
    Run {
        words: REPLAY,
        spec: Some(WITHDRAWALS),
        extra: Some(TWO_WITHDRAWALS),
    },
    Run {
        words: REPLAY,
        spec: Some(WITHDRAWALS),
        extra: Some(b"{"),
    },
    Run {
        words: SIMULATE,
        spec: Some(PURSES),
        extra: Some(GRANTED),
    },
];

fn of_two() -> &'static [Run] {
    OF_BOTH
}

/// Sources that give a hundred bytes at a call, and a sink that takes eight.
const PIECES: Pieces = Pieces {
    given: 100,
    taken: 8,
};

/// How many calls a source is read by, the last of which finds its end.
fn calls(bytes: Option<&[u8]>) -> usize {
    match bytes {
        Some(bytes) => bytes.len().div_ceil(PIECES.given).wrapping_add(1),
        None => 0,
    }
}

/// How many calls of a port of a run fail one after the other, up to the first run that none stops.
fn stopped(rt: &impl Abort, alloc: Global, it: &Run, port: Port) -> Option<u32> {
    let (spec, extra) = (it.spec.unwrap_or(b""), it.extra.unwrap_or(b""));
    stopped_runs(rt, alloc, it.words, spec, extra, PIECES, port)
}

/// Whether so many calls failed.
fn is_count(stopped: Option<u32>, calls: usize) -> bool {
    matches!(stopped, Some(count) if count as usize == calls)
}

/// Whether some calls failed.
fn is_some_count(stopped: Option<u32>) -> bool {
    matches!(stopped, Some(count) if 0 < count)
}

/// Whether each call of a port stops a run, and the others end as the run without failing calls.
fn names_its_ports(rt: &impl Abort, alloc: Global, it: &Run) -> bool {
    let spec = stopped(rt, alloc, it, Port::Spec);
    let extra = stopped(rt, alloc, it, Port::Extra);
    let out = stopped(rt, alloc, it, Port::Out);
    is_count(spec, calls(it.spec)) && is_count(extra, calls(it.extra)) && is_some_count(out)
}

#[test]
fn names_the_port_that_failed(rt: HostRuntime) {
    for runs in [of_one(), of_two()] {
        for it in runs {
            assert!(rt; names_its_ports(&rt, rt.alloc(), it));
        }
    }
}

/// How many calls of a port fail so where a report of the bank is verified.
fn stopped_verifications(rt: &impl Abort, alloc: Global, report: &[u8], port: Port) -> Option<u32> {
    stopped_runs(rt, alloc, VERIFY, PURSES, report, PIECES, port)
}

/// Whether each call of a port stops the verification of a report.
fn each_call_stops(rt: &impl Abort, alloc: Global, report: &[u8]) -> bool {
    let extra = stopped_verifications(rt, alloc, report, Port::Extra);
    let spec = stopped_verifications(rt, alloc, report, Port::Spec);
    let out = stopped_verifications(rt, alloc, report, Port::Out);
    is_count(extra, calls(Some(report)))
        && is_count(spec, calls(Some(PURSES)))
        && is_some_count(out)
}

#[test]
fn names_each_call_of_a_verification(rt: HostRuntime) {
    let report = run_on(&rt, rt.alloc(), CHECK, PURSES, b"");
    let stops = each_call_stops(&rt, rt.alloc(), &report.text);
    drop(report);
    assert!(rt; stops);
}

/// Whether a run ends alike where each call moves one byte.
fn ends_alike(rt: &impl Abort, alloc: Global, it: &Run) -> bool {
    let one = Pieces { given: 1, taken: 1 };
    let (spec, extra) = (it.spec.unwrap_or(b""), it.extra.unwrap_or(b""));
    let whole = run_on(rt, alloc, it.words, spec, extra);
    let same = is_alike(rt, alloc, it.words, spec, extra, one, &whole);
    drop(whole);
    same
}

#[test]
fn reads_and_writes_one_byte_at_a_call(rt: HostRuntime) {
    for runs in [of_one(), of_two()] {
        for it in runs {
            assert!(rt; ends_alike(&rt, rt.alloc(), it));
        }
    }
}

/// The commands that read a specification.
const OF_SPECIFICATIONS: [&[&str]; 7] = [CHECK, SPELL, SUGGEST, VERIFY, UPGRADE, REPLAY, SIMULATE];

/// Those that read a second input, and what is said of one without end.
const OF_TWO: [(&[&str], &[u8]); 4] = [
    (VERIFY, b"refused report long\n"),
    (UPGRADE, b"refused report long\n"),
    (REPLAY, b"refused schedule long\n"),
    (SIMULATE, b"refused schedule long\n"),
];

/// Whether a run on a flag says so of a second source without end.
fn refuses_endless(rt: &impl Abort, alloc: Global, words: &[&str], text: &[u8]) -> bool {
    let mut spec = source(rt, alloc, FLAG, 100, Vec::new(alloc));
    let mut extra = EndlessSource::new();
    let refused = ends_from(rt, alloc, words, &mut spec, &mut extra, 4, text);
    drop(spec);
    refused
}

#[test]
fn reads_no_more_than_the_limit(rt: HostRuntime) {
    for words in &OF_SPECIFICATIONS {
        let (mut spec, mut extra) = (EndlessSource::new(), EndlessSource::new());
        let text = b"refused specification long\n";
        let refused = ends_from(&rt, rt.alloc(), words, &mut spec, &mut extra, 3, text);
        assert!(rt; refused);
    }
}

#[test]
fn reads_no_more_than_the_limit_of_a_second_input(rt: HostRuntime) {
    for (words, text) in &OF_TWO {
        assert!(rt; refuses_endless(&rt, rt.alloc(), words, text));
    }
}
