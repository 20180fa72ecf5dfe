// Systems of difference rows, worked by hand.
use crate::solvers::differences::{Case, Said, check_all, say_round};

static SYSTEMS: &[Case] = &[
    // the bounds add up to -1
    (
        &[(&[1, -1, 0], 1), (&[0, 1, -1], -2), (&[-1, 0, 1], 0)],
        3,
        Said::Conflict { used: 3, steps: 2 },
    ),
    // they add up to 0, and the names are -1, -2 and 0
    (
        &[(&[1, -1, 0], 1), (&[0, 1, -1], -2), (&[-1, 0, 1], 1)],
        3,
        Said::Model { first: -1 },
    ),
    // a number between equal bounds
    (&[(&[1], 3), (&[-1], -3)], 1, Said::Model { first: 3 }),
    // a contradiction alone is a conflict without steps
    (
        &[(&[1], 3), (&[-1], -3), (&[0], -1)],
        1,
        Said::Conflict { used: 1, steps: 0 },
    ),
    // a row is taken as it is tightened: twice a difference is at most 1, and so it is at most 0
    (
        &[(&[2, -2], 1), (&[-1, 1], -1)],
        2,
        Said::Conflict { used: 2, steps: 1 },
    ),
    // half of 10^15 is the greatest bound over one name
    (
        &[(&[-1], -500_000_000_000_000)],
        1,
        Said::Model {
            first: 500_000_000_000_000,
        },
    ),
    // a greater one isn't taken
    (&[(&[-1], -500_000_000_000_001)], 1, Said::Nothing),
    // nor is a sum of two names
    (&[(&[1, 1], 0)], 2, Said::Nothing),
];

fn systems() -> &'static [Case] {
    SYSTEMS
}

#[test]
fn difference_rows_are_decided(rt: HostRuntime) {
    check_all(&rt, rt.alloc(), systems());
}

#[test]
fn a_thousand_rows_that_go_round_are_refuted(rt: HostRuntime) {
    let said = say_round(rt.alloc());
    assert!(rt;
        said == Said::Conflict {
            used: 1000,
            steps: 999
        }
    );
}
