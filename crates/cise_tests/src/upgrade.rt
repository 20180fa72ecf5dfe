// Reports that are upgraded, and what their verification comes to.
use crate::check::free_tournaments;
use crate::examples::RAISED_REPORT;
use crate::running::{ends_with, replaced, run_on};
use example_specs::{MANY, PURSES, RAISED, SETS, VAST, WITHDRAWALS};
use std::alloc::Global;
use std::process::Abort;

const CHECK: &[&str] = &["check", "s.cise"];

const CHECK_LONG: &[&str] = &["check", "s.cise", "--budget", "1000000"];

const CHECK_SHORT: &[&str] = &["check", "s.cise", "--budget", "1"];

const VERIFY: &[&str] = &["verify", "s.cise", "s.report"];

const UPGRADE: &[&str] = &["upgrade", "s.cise", "s.report"];

/// The report that was written by hand, upgraded.
const RAISED_UPGRADED: &[u8] = b"cise report 2
budget 10000
obligations 3
init alive
proved 0
safety raise alive
proved 2
r 2 1 1
d 2 1 2
commute raise raise up
proved 8
r 7 3 2
d 2 3 7
r 6 4 1
d 2 4 6
r 1 10 5
d 2 1 10
r 12 11 6
d 2 11 12
summary proved 3 refuted 0 undecided 0
accepted
";

/// The summary of that report, verified.
const RAISED_VERIFIED: &[u8] = b"cise verify 1\nsummary proved 3 refuted 0 undecided 0\naccepted\n";

/// The words of a run, the report that it is given, and the status and the text that it ends with.
type Row = (&'static [&'static str], &'static [u8], u8, &'static [u8]);

const ROWS: [Row; 3] = [
    (UPGRADE, RAISED_REPORT, 0, RAISED_UPGRADED),
    (UPGRADE, RAISED_UPGRADED, 0, RAISED_UPGRADED),
    (VERIFY, RAISED_UPGRADED, 0, RAISED_VERIFIED),
];

#[test]
fn drops_what_is_named_last(rt: HostRuntime) {
    for (words, report, status, text) in &ROWS {
        let same = ends_with(&rt, rt.alloc(), words, RAISED, report, *status, text);
        assert!(rt; same);
    }
}

#[test]
fn upgrades_no_line_that_names_what_is_dropped(rt: HostRuntime) {
    let changed = replaced(&rt, rt.alloc(), RAISED_UPGRADED, b"r 6 4 1", b"r 7 4 1");
    let refused = b"refused report line 14 dropped\n";
    let same = ends_with(&rt, rt.alloc(), UPGRADE, RAISED, &changed, 4, refused);
    drop(changed);
    assert!(rt; same);
}

/// The words of a check, a specification, and the status that its report is upgraded and verified with.
type Case = (&'static [&'static str], &'static [u8], u8);

const CASES: [Case; 6] = [
    (CHECK, WITHDRAWALS, 1),
    (CHECK, PURSES, 0),
    (CHECK, SETS, 1),
    (CHECK_SHORT, PURSES, 5),
    (CHECK, VAST, 5),
    (CHECK, MANY, 5),
];

/// Whether a report is upgraded already, and verified with this status and text.
fn is_upgraded_already(
    rt: &impl Abort,
    alloc: Global,
    spec: &[u8],
    report: &[u8],
    status: u8,
    verified: &[u8],
) -> bool {
    report.starts_with(b"cise report 2\n")
        && ends_with(rt, alloc, UPGRADE, spec, report, status, report)
        && ends_with(rt, alloc, VERIFY, spec, report, status, verified)
}

/// Whether a report is upgraded with this status, the upgraded one is upgraded already, and both are verified alike.
fn is_upgraded(rt: &impl Abort, alloc: Global, spec: &[u8], report: &[u8], status: u8) -> bool {
    let upgraded = run_on(rt, alloc, UPGRADE, spec, report);
    let verified = run_on(rt, alloc, VERIFY, spec, report);
    let (text, counts) = (&upgraded.text, &verified.text);
    let same = upgraded.status == status
        && verified.status == status
        && is_upgraded_already(rt, alloc, spec, text, status, counts);
    drop(upgraded);
    drop(verified);
    same
}

/// Whether the report of a check is upgraded with the check's status.
fn keeps(rt: &impl Abort, alloc: Global, words: &[&str], spec: &[u8], status: u8) -> bool {
    let checked = run_on(rt, alloc, words, spec, b"");
    let same = checked.status == status && is_upgraded(rt, alloc, spec, &checked.text, status);
    drop(checked);
    same
}

#[test]
fn keeps_the_status(rt: HostRuntime) {
    for (words, spec, status) in &CASES {
        assert!(rt; keeps(&rt, rt.alloc(), words, spec, *status));
    }
}

#[test]
fn keeps_the_status_of_tournaments(rt: HostRuntime) {
    let free = free_tournaments(&rt, rt.alloc());
    let kept = keeps(&rt, rt.alloc(), CHECK_LONG, &free, 1);
    drop(free);
    assert!(rt; kept);
}

/// A report that doesn't stand, and what is said of it.
const REFUSED: [(&[u8], &[u8]); 3] = [
    (b"", b"refused report line 1 form\n"),
    (b"cise report 3\n", b"refused report line 1 form\n"),
    (
        b"cise report 2\nbudget 0\n",
        b"refused report line 2 form\n",
    ),
];

#[test]
fn writes_nothing_of_another(rt: HostRuntime) {
    for (report, text) in &REFUSED {
        let same = ends_with(&rt, rt.alloc(), UPGRADE, RAISED, report, 4, text);
        assert!(rt; same);
    }
}
