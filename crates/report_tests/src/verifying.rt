// Reports that are verified: accepted ones, and what is wrong with those that were changed.

use crate::examples::ODD;
use crate::reports::{
    COMBINED, DOWN, FEW, NAMES_DROPPED, NEGATIVE, NOT_SPENT, OTHER_PIVOT, OTHER_PIVOT_CUT,
    OVER_BUDGET, RAISED, RAISED_DROPPING, SHORT_LOG, SPENT, UNCOMBINED, UP, UP_CUT, UP_UNENDED,
};
use crate::running::{Answer, reading_of, spec_of, verified};
use example_specs::{FLAG, NO_FLAG as LOWERED, RAISED as RAISING};
use proof_report::ReportKind;
use spec_core::Spec;
use std::alloc::Global;
use std::process::Abort;

/// A report, and what is answered to it.
type Case = (&'static [u8], Answer);

static OF_FLAG: [Case; 6] = [
    (UP, Answer::Accepted(1, 0, 0)),
    (DOWN, Answer::Line(5, ReportKind::Witness)),
    (UP_CUT, Answer::Line(7, ReportKind::Form)),
    (UP_UNENDED, Answer::Line(7, ReportKind::Form)),
    (b"", Answer::Line(1, ReportKind::Form)),
    (b"\n", Answer::Line(1, ReportKind::Form)),
];

static OF_LOWERED: [Case; 2] = [
    (UP, Answer::Line(5, ReportKind::NoEmpty)),
    (DOWN, Answer::Accepted(0, 1, 0)),
];

static OF_RAISING: [Case; 11] = [
    (RAISED, Answer::Accepted(3, 0, 0)),
    (OTHER_PIVOT, Answer::Line(11, ReportKind::Pivot)),
    (OTHER_PIVOT_CUT, Answer::Line(16, ReportKind::Form)),
    (SHORT_LOG, Answer::Line(10, ReportKind::NoEmpty)),
    (OVER_BUDGET, Answer::Accepted(3, 0, 0)),
    (SPENT, Answer::Accepted(2, 0, 1)),
    (NOT_SPENT, Answer::Line(10, ReportKind::Evidence)),
    (FEW, Answer::Line(5, ReportKind::Evidence)),
    (UP, Answer::Line(3, ReportKind::Obligation)),
    (RAISED_DROPPING, Answer::Accepted(3, 0, 0)),
    (NAMES_DROPPED, Answer::Line(14, ReportKind::Dropped)),
];

static OF_ODD: [Case; 3] = [
    (COMBINED, Answer::Line(7, ReportKind::NoEmpty)),
    (NEGATIVE, Answer::Line(8, ReportKind::Multiplier)),
    (UNCOMBINED, Answer::Line(8, ReportKind::Contradiction)),
];

// Whether all these reports are answered so.
fn are_answered(rt: &impl Abort, alloc: Global, text: &[u8], cases: &[Case]) -> bool {
    let reading = reading_of(rt, alloc, text);
    let spec = spec_of(rt, &reading);
    let mut same = true;
    for (report, want) in cases {
        same = same && verified(rt, alloc, spec, report, 4096, &[]) == *want;
    }
    reading.let_go();
    same
}

#[test]
fn reports_are_verified(rt: HostRuntime) {
    let alloc = rt.alloc();
    assert!(&rt; are_answered(&rt, alloc, FLAG, &OF_FLAG));
    assert!(&rt; are_answered(&rt, alloc, LOWERED, &OF_LOWERED));
    assert!(&rt; are_answered(&rt, alloc, RAISING, &OF_RAISING));
    assert!(&rt; are_answered(&rt, alloc, ODD, &OF_ODD));
}

/// The most bytes that a source gives at a call, the calls at which it fails, and what is answered to the report of the flag.
static SOURCES: [(usize, &'static [u32], Answer); 6] = [
    (1, &[], Answer::Accepted(1, 0, 0)),
    (7, &[], Answer::Accepted(1, 0, 0)),
    (4096, &[], Answer::Accepted(1, 0, 0)),
    (8, &[0], Answer::Fault),
    (8, &[3], Answer::Fault),
    (8, &[12], Answer::Fault),
];

fn check_pieces(rt: &impl Abort, alloc: Global, spec: &Spec, report: &[u8]) {
    for (piece, fail_at, want) in &SOURCES {
        let found = verified(rt, alloc, spec, report, *piece, fail_at);
        assert!(rt; found == *want);
    }
}

#[test]
fn reports_come_in_pieces_and_reads_fail(rt: HostRuntime) {
    let reading = reading_of(&rt, rt.alloc(), FLAG);
    let spec = spec_of(&rt, &reading);
    check_pieces(&rt, rt.alloc(), spec, UP);
    reading.let_go();
}
