// What is done with a report in the tests. What isn't a specification, and what lacks memory, ends the test.

use byte_ports::{MemSink, MemSource};
use proof_report::{ReportKind, ReportRefused};
use report_reader::ReportReader;
use report_upgrader::{UpgradeRefused, upgrade_all};
use report_verifier::{VerifyRefused, verify_all};
use spec_core::Spec;
use spec_from_bytes::{Reading, SPECIFICATION_LIMIT, read_bytes};
use std::alloc::Global;
use std::process::Abort;

/// What is answered to a report: how many verdicts of each kind it has, or why it isn't accepted or upgraded.
#[derive(Clone, Copy, PartialEq)]
pub enum Answer {
    Accepted(u32, u32, u32),
    Line(u32, ReportKind),
    Long,
    Fault,
    WriteFault,
    Memory,
}

/// What a text is read as. It stays whole, and is let go as a whole.
pub fn reading_of(rt: &impl Abort, alloc: Global, text: &[u8]) -> Reading {
    assert!(rt; text.len() <= SPECIFICATION_LIMIT);
    read_bytes(alloc, text).expect(rt, "memory")
}

/// The specification that was read.
pub fn spec_of<'a>(rt: &impl Abort, reading: &'a Reading) -> &'a Spec {
    match reading {
        Reading::Specified(_, spec) => spec,
        Reading::Refused(_) => panic!(rt; "no specification"),
    }
}

// What is answered to a line.
fn fed(reader: &mut ReportReader<'_>, line: &[u8]) -> Answer {
    match reader.feed(line) {
        Ok(fed) => {
            drop(fed);
            Answer::Accepted(0, 0, 0)
        }
        Err(ReportRefused::Line { number, kind }) => Answer::Line(number, kind),
        Err(ReportRefused::Memory) => Answer::Memory,
    }
}

// What is answered to the lines of a text, fed to a reader until one is refused.
fn all_fed(reader: &mut ReportReader<'_>, text: &[u8]) -> Answer {
    for line in text.split(|byte| *byte == b'\n') {
        if !line.is_empty() {
            let answer = fed(reader, line);
            if answer != Answer::Accepted(0, 0, 0) {
                return answer;
            }
        }
    }
    match reader.finish() {
        Ok(()) => Answer::Accepted(0, 0, 0),
        Err(ReportRefused::Line { number, kind }) => Answer::Line(number, kind),
        Err(ReportRefused::Memory) => Answer::Memory,
    }
}

/// What is answered to a text that is read line by line. Verdicts aren't counted.
pub fn read_by_lines(rt: &impl Abort, alloc: Global, spec: &Spec, text: &[u8]) -> Answer {
    let mut reader = ReportReader::new(alloc, spec).expect(rt, "memory");
    let answer = all_fed(&mut reader, text);
    drop(reader);
    answer
}

fn source(rt: &impl Abort, alloc: Global, text: &[u8], piece: usize, fail_at: &[u32]) -> MemSource {
    assert!(rt; piece > 0);
    let bytes = Vec::from_slice(alloc, text).expect(rt, "memory");
    let calls = Vec::from_slice(alloc, fail_at).expect(rt, "memory");
    MemSource::new(bytes, piece, calls)
}

fn verified_from(alloc: Global, spec: &Spec, report: &mut MemSource) -> Answer {
    match verify_all(alloc, spec, report) {
        Ok(tally) => Answer::Accepted(tally.proved, tally.refuted, tally.undecided),
        Err(VerifyRefused::Line { number, kind }) => Answer::Line(number, kind),
        Err(VerifyRefused::Long) => Answer::Long,
        Err(VerifyRefused::Fault) => Answer::Fault,
        Err(VerifyRefused::Memory) => Answer::Memory,
    }
}

/// What is answered to a text that is verified, where a source gives at most so many bytes at a call, and fails at these calls.
pub fn verified(
    rt: &impl Abort,
    alloc: Global,
    spec: &Spec,
    text: &[u8],
    piece: usize,
    fail_at: &[u32],
) -> Answer {
    let mut report = source(rt, alloc, text, piece, fail_at);
    let answer = verified_from(alloc, spec, &mut report);
    drop(report);
    answer
}

fn upgraded_from(alloc: Global, spec: &Spec, report: &mut MemSource, out: &mut MemSink) -> Answer {
    match upgrade_all(alloc, spec, report, out) {
        Ok(tally) => Answer::Accepted(tally.proved, tally.refuted, tally.undecided),
        Err(UpgradeRefused::Line { number, kind }) => Answer::Line(number, kind),
        Err(UpgradeRefused::Long) => Answer::Long,
        Err(UpgradeRefused::Fault) => Answer::Fault,
        Err(UpgradeRefused::WriteFault) => Answer::WriteFault,
        Err(UpgradeRefused::Memory) => Answer::Memory,
    }
}

/// What is answered to a text that is upgraded, and whether this is what was written. The source gives at most a hundred bytes at a call,
/// and the sink takes as many; they fail at these calls.
pub fn upgraded(
    rt: &impl Abort,
    alloc: Global,
    spec: &Spec,
    text: &[u8],
    reads_fail: &[u32],
    writes_fail: &[u32],
    want: &[u8],
) -> (Answer, bool) {
    let mut report = source(rt, alloc, text, 100, reads_fail);
    let calls = Vec::from_slice(alloc, writes_fail).expect(rt, "memory");
    let mut out = MemSink::new(alloc, 10_000, 100, calls).expect(rt, "memory");
    let answer = upgraded_from(alloc, spec, &mut report, &mut out);
    drop(report);
    let written = out.held() == want;
    drop(out);
    (answer, written)
}
