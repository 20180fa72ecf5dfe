// Reports that are refused: the line, and what is wrong with it.
use crate::examples::RAISED_REPORT;
use crate::running::{ends_with, replaced, run_on};
use example_specs::{FLAG, NO_FLAG, PURSES, RAISED};
use std::alloc::Global;
use std::process::Abort;

const VERIFY: &[&str] = &["verify", "s.cise", "s.report"];

/// A report, and what its verification comes to.
#[derive(Clone, Copy)]
struct Row {
    spec: &'static [u8],
    report: &'static [u8],
    status: u8,
    text: &'static [u8],
}

/// The report of a flag that is there.
const FLAG_REPORT: &[u8] =
    b"cise report 1\nbudget 10000\nobligations 1\ninit alive\nproved 0\nsummary proved 1 refuted 0 undecided 0\naccepted\n";

/// The report of one that isn't.
const NO_FLAG_REPORT: &[u8] =
    b"cise report 1\nbudget 10000\nobligations 1\ninit alive\nrefuted\nat\nsummary proved 0 refuted 1 undecided 0\nrejected\n";

const ROWS: [Row; 6] = [
    Row {
        spec: FLAG,
        report: FLAG_REPORT,
        status: 0,
        text: b"cise verify 1\nsummary proved 1 refuted 0 undecided 0\naccepted\n",
    },
    Row {
        spec: NO_FLAG,
        report: NO_FLAG_REPORT,
        status: 1,
        text: b"cise verify 1\nsummary proved 0 refuted 1 undecided 0\nrejected\n",
    },
    Row {
        spec: FLAG,
        report: NO_FLAG_REPORT,
        status: 4,
        text: b"refused report line 5 witness\n",
    },
    Row {
        spec: NO_FLAG,
        report: FLAG_REPORT,
        status: 4,
        text: b"refused report line 5 noempty\n",
    },
    Row {
        spec: FLAG,
        report: b"cise report 1\nbudget 10000\nobligations 1\ninit alive\nproved 0\nsummary proved 1 refuted 0 undecided 0\n",
        status: 4,
        text: b"refused report line 7 form\n",
    },
    Row {
        spec: RAISED,
        report: RAISED_REPORT,
        status: 0,
        text: b"cise verify 1\nsummary proved 3 refuted 0 undecided 0\naccepted\n",
    },
];

#[test]
fn verifies_reports(rt: HostRuntime) {
    for it in &ROWS {
        let same = ends_with(
            &rt,
            rt.alloc(),
            VERIFY,
            it.spec,
            it.report,
            it.status,
            it.text,
        );
        assert!(rt; same);
    }
}

/// A change of the report that was written by hand, and what is said of it.
#[derive(Clone, Copy)]
struct Change {
    old: &'static [u8],
    new: &'static [u8],
    said: &'static [u8],
}

const CHANGES: [Change; 9] = [
    Change {
        old: b"r 7 3 2",
        new: b"r 7 3 1",
        said: b"refused report line 11 pivot\n",
    },
    Change {
        old: b"r 2 1 1",
        new: b"r 9 1 1",
        said: b"refused report line 8 place\n",
    },
    Change {
        old: b"accepted\n",
        new: b"",
        said: b"refused report line 16 form\n",
    },
    Change {
        old: b"accepted",
        new: b"rejected",
        said: b"refused report line 16 summary\n",
    },
    Change {
        old: b"summary proved 3",
        new: b"summary proved 2",
        said: b"refused report line 15 summary\n",
    },
    Change {
        old: b"obligations 3",
        new: b"obligations 2",
        said: b"refused report line 3 obligation\n",
    },
    Change {
        old: b"safety raise alive",
        new: b"safety raise dead",
        said: b"refused report line 6 obligation\n",
    },
    Change {
        old: b"proved 4\nr 7 3 2\nr 6 4 1\nr 1 10 5\nr 12 11 6",
        new: b"proved 3\nr 7 3 2\nr 6 4 1\nr 1 10 5",
        said: b"refused report line 10 noempty\n",
    },
    Change {
        old: b"proved 1\nr 2 1 1",
        new: b"undecided lines 1\nr 2 1 1",
        said: b"refused report line 15 summary\n",
    },
];

/// Whether a report of such a specification is refused so where it is changed.
fn is_refused(rt: &impl Abort, alloc: Global, spec: &[u8], report: &[u8], change: &Change) -> bool {
    let changed = replaced(rt, alloc, report, change.old, change.new);
    let same = ends_with(rt, alloc, VERIFY, spec, &changed, 4, change.said);
    drop(changed);
    same
}

#[test]
fn names_the_line_and_the_rule(rt: HostRuntime) {
    for change in &CHANGES {
        assert!(rt; is_refused(&rt, rt.alloc(), RAISED, RAISED_REPORT, change));
    }
}

/// A change of the report that `check` writes for the bank with tokens: the first multiplier of its first log line is -1 in place of 1.
/// That line draws from four literals, in three steps, of which the first one takes row 2 once. The heading has three lines and the first
/// block two; the second block has its own two, and then its log.
const MINUS_ONE: Change = Change {
    old: b"\nf 4 -3 +2 +1 +6 3 2 1 ",
    new: b"\nf 4 -3 +2 +1 +6 3 2 -1 ",
    said: b"refused report line 8 multiplier\n",
};

#[test]
fn refuses_a_negative_multiplier(rt: HostRuntime) {
    let checked = run_on(&rt, rt.alloc(), &["check", "s.cise"], PURSES, b"");
    let refused = is_refused(&rt, rt.alloc(), PURSES, &checked.text, &MINUS_ONE);
    drop(checked);
    assert!(rt; refused);
}

/// Whether a report is refused.
fn is_no_report(rt: &impl Abort, alloc: Global, report: &[u8]) -> bool {
    let ended = run_on(rt, alloc, VERIFY, FLAG, report);
    let refused = ended.status == 4 && ended.text.starts_with(b"refused report line ");
    drop(ended);
    refused
}

#[test]
fn refuses_a_report_that_is_cut(rt: HostRuntime) {
    for count in 0..FLAG_REPORT.len() {
        assert!(rt; is_no_report(&rt, rt.alloc(), &FLAG_REPORT[..count]));
    }
}
