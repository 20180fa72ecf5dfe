// Reports on a flag that an operation raises, and the upgraded ones.

use crate::reports::{
    DROPPED_LATE, NAMES_DROPPED, RAISED, RAISED_CUT, RAISED_DROPPING, SPENT, SPENT_UPGRADED,
};
use crate::running::{Answer, reading_of, spec_of, upgraded, verified};
use example_specs::RAISED as RAISING;
use proof_report::ReportKind;
use spec_core::Spec;
use std::alloc::Global;
use std::process::Abort;

/// A report, its counts, and the upgraded one.
type Case = (&'static [u8], Answer, &'static [u8]);

/// Reports that stand. An upgraded one is upgraded already.
static CASES: [Case; 5] = [
    (RAISED, Answer::Accepted(3, 0, 0), RAISED_DROPPING),
    (RAISED_DROPPING, Answer::Accepted(3, 0, 0), RAISED_DROPPING),
    (DROPPED_LATE, Answer::Accepted(3, 0, 0), RAISED_DROPPING),
    (SPENT, Answer::Accepted(2, 0, 1), SPENT_UPGRADED),
    (SPENT_UPGRADED, Answer::Accepted(2, 0, 1), SPENT_UPGRADED),
];

fn check_upgraded(rt: &impl Abort, alloc: Global, spec: &Spec) {
    for (report, counts, want) in &CASES {
        let (answer, written) = upgraded(rt, alloc, spec, report, &[], &[], want);
        assert!(rt; answer == *counts && written);
        assert!(rt; verified(rt, alloc, spec, want, 100, &[]) == *counts);
    }
}

#[test]
fn reports_that_stand_are_upgraded(rt: HostRuntime) {
    let reading = reading_of(&rt, rt.alloc(), RAISING);
    let spec = spec_of(&rt, &reading);
    check_upgraded(&rt, rt.alloc(), spec);
    reading.let_go();
}

/// A report, the calls of the source and of the sink that fail, the answer, and how much of the upgraded text is written.
type Stop = (&'static [u8], &'static [u32], &'static [u32], Answer, usize);

static STOPS: [Stop; 5] = [
    (
        NAMES_DROPPED,
        &[],
        &[],
        Answer::Line(14, ReportKind::Dropped),
        0,
    ),
    (RAISED_CUT, &[], &[], Answer::Line(16, ReportKind::Form), 0),
    (RAISED, &[2], &[], Answer::Fault, 0),
    (RAISED, &[], &[0], Answer::WriteFault, 0),
    (RAISED, &[], &[2], Answer::WriteFault, 200),
];

fn check_stopped(rt: &impl Abort, alloc: Global, spec: &Spec, whole: &[u8]) {
    for (report, reads, writes, want, count) in &STOPS {
        assert!(rt; *count <= whole.len());
        let front = &whole[..*count];
        let (answer, written) = upgraded(rt, alloc, spec, report, reads, writes, front);
        assert!(rt; answer == *want && written);
    }
}

#[test]
fn others_are_refused_and_writes_may_fail(rt: HostRuntime) {
    let reading = reading_of(&rt, rt.alloc(), RAISING);
    let spec = spec_of(&rt, &reading);
    check_stopped(&rt, rt.alloc(), spec, RAISED_DROPPING);
    reading.let_go();
}
