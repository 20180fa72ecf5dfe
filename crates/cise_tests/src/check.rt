// The reports of `check`, and their verification.
use crate::examples::ODD;
use crate::running::{ends_with, has_lines, replaced, run_on};
use example_specs::{
    DEPOSITS, FLAG, MANY, NO_FLAG, PURSES, RAISED, SETS, SHOP, TOURNAMENTS, VAST, WITHDRAWALS,
};
use std::alloc::Global;
use std::process::Abort;

pub const CHECK: &[&str] = &["check", "s.cise"];

const CHECK_LONG: &[&str] = &["check", "s.cise", "--budget", "1000000"];

const CHECK_SHORT: &[&str] = &["check", "s.cise", "--budget", "1"];

const VERIFY: &[&str] = &["verify", "s.cise", "s.report"];

/// A specification whose report is known to the byte.
#[derive(Clone, Copy)]
struct Exact {
    spec: &'static [u8],
    status: u8,
    text: &'static [u8],
}

const EXACT: [Exact; 4] = [
    Exact {
        spec: FLAG,
        status: 0,
        text: b"cise report 1\nbudget 10000\nobligations 1\ninit alive\nproved 0\nsummary proved 1 refuted 0 undecided 0\naccepted\n",
    },
    Exact {
        spec: NO_FLAG,
        status: 1,
        text: b"cise report 1\nbudget 10000\nobligations 1\ninit alive\nrefuted\nat\nsummary proved 0 refuted 1 undecided 0\nrejected\n",
    },
    Exact {
        spec: b"cise 1 relation up relation down # two flags\ninitially down true invariant alive up invariant calm down",
        status: 1,
        text: b"cise report 1\nbudget 10000\nobligations 2\ninit alive\nrefuted\ntrue down\nat\ninit calm\nproved 0\nsummary proved 1 refuted 1 undecided 0\nrejected\n",
    },
    Exact {
        spec: b"cise 1",
        status: 0,
        text: b"cise report 1\nbudget 10000\nobligations 0\nsummary proved 0 refuted 0 undecided 0\naccepted\n",
    },
];

#[test]
fn writes_the_report(rt: HostRuntime) {
    for it in &EXACT {
        let same = ends_with(&rt, rt.alloc(), CHECK, it.spec, b"", it.status, it.text);
        assert!(rt; same);
    }
}

/// A check whose report has lines that begin so, in this order, and none that begins as another text.
#[derive(Clone, Copy)]
struct Case {
    words: &'static [&'static str],
    spec: &'static [u8],
    status: u8,
    lines: &'static [&'static [u8]],
    without: &'static [u8],
}

/// Specifications that are accepted.
fn accepted() -> &'static [Case] {
    &[
        Case {
            words: CHECK,
            spec: DEPOSITS,
            status: 0,
            lines: &[
                b"obligations 4",
                b"init solvent",
                b"safety deposit solvent",
                b"commute deposit deposit balance",
                b"stable deposit 1 deposit",
                b"summary proved 4 refuted 0 undecided 0",
                b"accepted",
            ],
            without: b"refuted",
        },
        Case {
            words: CHECK,
            spec: PURSES,
            status: 0,
            lines: &[
                b"obligations 12",
                b"summary proved 12 refuted 0 undecided 0",
                b"accepted",
            ],
            without: b"refuted",
        },
        Case {
            words: CHECK,
            spec: ODD,
            status: 0,
            lines: &[b"summary proved 4 refuted 0 undecided 0", b"accepted"],
            without: b"s ",
        },
        Case {
            words: CHECK,
            spec: RAISED,
            status: 0,
            lines: &[b"summary proved 3 refuted 0 undecided 0", b"accepted"],
            without: b"refuted",
        },
        Case {
            words: CHECK,
            spec: SHOP,
            status: 0,
            lines: &[
                b"obligations 12",
                b"summary proved 12 refuted 0 undecided 0",
                b"accepted",
            ],
            without: b"refuted",
        },
    ]
}

/// Rejected ones.
fn rejected() -> &'static [Case] {
    &[
        Case {
            words: CHECK,
            spec: WITHDRAWALS,
            status: 1,
            lines: &[
                b"obligations 12",
                b"stable withdraw 2 withdraw",
                b"refuted",
                b"at",
                b"summary proved 11 refuted 1 undecided 0",
                b"rejected",
            ],
            without: b"undecided",
        },
        Case {
            words: CHECK,
            spec: SETS,
            status: 1,
            lines: &[
                b"obligations 3",
                b"commute put drop r",
                b"refuted",
                b"summary proved 2 refuted 1 undecided 0",
                b"rejected",
            ],
            without: b"undecided",
        },
    ]
}

/// Such as stay undecided.
fn undecided() -> &'static [Case] {
    &[
        Case {
            words: CHECK_SHORT,
            spec: PURSES,
            status: 5,
            lines: &[
                b"budget 1",
                b"safety deposit solvent",
                b"undecided lines 1",
                b"undecided",
            ],
            without: b"refuted",
        },
        Case {
            words: CHECK,
            spec: VAST,
            status: 5,
            lines: &[b"safety big alive", b"undecided range", b"undecided"],
            without: b"refuted",
        },
    ]
}

/// Whether the verification of a report ends as its check did, and counts the same.
fn is_verified(rt: &impl Abort, alloc: Global, spec: &[u8], report: &[u8], status: u8) -> bool {
    let verified = run_on(rt, alloc, VERIFY, spec, report);
    let title = b"cise verify 1\n".as_slice();
    let same = verified.status == status
        && verified.text.starts_with(title)
        && report.ends_with(&verified.text[title.len()..]);
    drop(verified);
    same
}

/// Whether a check ends with this status and writes these lines, and its report is verified.
pub fn is_checked(
    rt: &impl Abort,
    alloc: Global,
    words: &[&str],
    spec: &[u8],
    status: u8,
    lines: &[&[u8]],
    without: &[u8],
) -> bool {
    let ended = run_on(rt, alloc, words, spec, b"");
    let as_wanted = ended.status == status
        && has_lines(&ended.text, lines)
        && !has_lines(&ended.text, &[without]);
    let verified = is_verified(rt, alloc, spec, &ended.text, status);
    drop(ended);
    as_wanted && verified
}

fn is_decided(rt: &impl Abort, alloc: Global, it: &Case) -> bool {
    is_checked(
        rt, alloc, it.words, it.spec, it.status, it.lines, it.without,
    )
}

#[test]
fn decides_and_verifies(rt: HostRuntime) {
    for cases in [accepted(), rejected(), undecided()] {
        for it in cases {
            assert!(rt; is_decided(&rt, rt.alloc(), it));
        }
    }
}

#[test]
fn decides_players_and_tournaments(rt: HostRuntime) {
    let all = &[
        b"summary proved 100 refuted 0 undecided 0".as_slice(),
        b"accepted",
    ];
    let alloc = rt.alloc();
    assert!(rt; is_checked(&rt, alloc, CHECK_LONG, TOURNAMENTS, 0, all, b"refuted"));
}

/// Tournaments without the rule that entries and events exclude one another.
pub fn free_tournaments(rt: &impl Abort, alloc: Global) -> Vec<u8> {
    let rule = b"conflict entry ( p , t ) event ( t )\n";
    replaced(rt, alloc, TOURNAMENTS, rule, b"")
}

#[test]
fn refutes_players_without_tournaments(rt: HostRuntime) {
    let refuted = &[
        b"stable rem_tourn 1 enroll".as_slice(),
        b"refuted",
        b"stable enroll 2 rem_tourn",
        b"refuted",
        b"summary proved 98 refuted 2 undecided 0",
        b"rejected",
    ];
    let free = free_tournaments(&rt, rt.alloc());
    let rejected = is_checked(&rt, rt.alloc(), CHECK_LONG, &free, 1, refuted, b"undecided");
    drop(free);
    assert!(rt; rejected);
}

#[test]
fn decides_shared_tokens(rt: HostRuntime) {
    let refuted = &[
        b"commute reprice reprice price".as_slice(),
        b"refuted",
        b"stable order 1 reprice",
        b"refuted",
        b"summary proved 10 refuted 2 undecided 0",
    ];
    let shared = replaced(&rt, rt.alloc(), SHOP, b"exclusive", b"shared");
    let rejected = is_checked(&rt, rt.alloc(), CHECK, &shared, 1, refuted, b"undecided");
    drop(shared);
    assert!(rt; rejected);
}

#[test]
fn gives_up_on_too_many_instances(rt: HostRuntime) {
    let last = &[
        b"obligations 11".as_slice(),
        b"commute f f r",
        b"undecided instances",
        b"summary proved 10 refuted 0 undecided 1",
        b"undecided",
    ];
    assert!(rt; is_checked(&rt, rt.alloc(), CHECK, MANY, 5, last, b"refuted"));
}
