// Reports that are read: line by line, and whole.

use crate::reports::{RAISED, RAISED_DROPPING, REFUTED, UP};
use crate::running::{Answer, read_by_lines, reading_of, spec_of};
use example_specs::{FLAG, RAISED as RAISING};
use proof_report::{Block, ReportKind, ReportRefused};
use report_bytes::read_report;
use spec_core::Spec;
use std::alloc::Global;
use std::process::Abort;

/// A specification, a text, how many of its last bytes are left out, and what is answered to its lines.
type Case = (&'static [u8], &'static [u8], usize, Answer);

static CASES: [Case; 7] = [
    (FLAG, UP, 0, Answer::Accepted(0, 0, 0)),
    (FLAG, REFUTED, 0, Answer::Accepted(0, 0, 0)),
    (RAISING, RAISED, 0, Answer::Accepted(0, 0, 0)),
    (RAISING, RAISED_DROPPING, 0, Answer::Accepted(0, 0, 0)),
    (FLAG, b"", 0, Answer::Line(1, ReportKind::Form)),
    (FLAG, UP, 9, Answer::Line(7, ReportKind::Form)),
    (FLAG, RAISED, 0, Answer::Line(3, ReportKind::Obligation)),
];

// What is answered to the lines of a report without so many of its last bytes.
fn answered(rt: &impl Abort, alloc: Global, text: &[u8], report: &[u8], cut: usize) -> Answer {
    let reading = reading_of(rt, alloc, text);
    let spec = spec_of(rt, &reading);
    let len = report.len().saturating_sub(cut);
    let found = read_by_lines(rt, alloc, spec, &report[..len]);
    reading.let_go();
    found
}

#[test]
fn reports_are_read(rt: HostRuntime) {
    for (text, report, cut, want) in &CASES {
        let found = answered(&rt, rt.alloc(), text, report, *cut);
        assert!(&rt; found == *want);
    }
}

// What is answered to a whole text. Verdicts aren't counted.
fn read(alloc: Global, spec: &Spec, text: &[u8]) -> Answer {
    match read_report(alloc, spec, text) {
        Ok(report) => {
            drop(report);
            Answer::Accepted(0, 0, 0)
        }
        Err(ReportRefused::Line { number, kind }) => Answer::Line(number, kind),
        Err(ReportRefused::Memory) => Answer::Memory,
    }
}

// Whether a text is read, and no front of it.
fn is_read_whole(alloc: Global, spec: &Spec, text: &[u8]) -> bool {
    for len in 1..text.len() {
        if !matches!(read(alloc, spec, &text[..len]), Answer::Line(_, _)) {
            return false;
        }
    }
    read(alloc, spec, text) == Answer::Accepted(0, 0, 0)
        && read(alloc, spec, b"") == Answer::Line(1, ReportKind::Form)
}

#[test]
fn a_cut_report_is_refused(rt: HostRuntime) {
    let reading = reading_of(&rt, rt.alloc(), FLAG);
    let spec = spec_of(&rt, &reading);
    let whole = is_read_whole(rt.alloc(), spec, UP);
    reading.let_go();
    assert!(&rt; whole);
}

fn begin_at(blocks: &[Block], lines: &[u32]) -> bool {
    blocks.len() == lines.len()
        && blocks
            .iter()
            .zip(lines)
            .all(|(block, line)| block.line == *line)
}

// Whether a text is a report of this version and budget, whose verdicts begin at these lines.
fn is_read(
    alloc: Global,
    spec: &Spec,
    text: &[u8],
    version: u8,
    budget: u32,
    lines: &[u32],
) -> bool {
    match read_report(alloc, spec, text) {
        Ok(report) => {
            let same = report.version == version
                && report.budget == budget
                && begin_at(report.blocks.as_slice(), lines);
            drop(report);
            same
        }
        Err(_) => false,
    }
}

// Whether a text is such a report on a specification, with the default budget.
fn is_report(
    rt: &impl Abort,
    alloc: Global,
    text: &[u8],
    report: &[u8],
    version: u8,
    lines: &[u32],
) -> bool {
    let reading = reading_of(rt, alloc, text);
    let spec = spec_of(rt, &reading);
    let same = is_read(alloc, spec, report, version, 10_000, lines);
    reading.let_go();
    same
}

#[test]
fn lines_are_counted(rt: HostRuntime) {
    assert!(&rt; is_report(&rt, rt.alloc(), FLAG, UP, 1, &[5]));
    assert!(&rt; is_report(&rt, rt.alloc(), RAISING, RAISED, 1, &[5, 7, 10]));
    assert!(&rt; is_report(&rt, rt.alloc(), RAISING, RAISED_DROPPING, 2, &[5, 7, 11]));
}
