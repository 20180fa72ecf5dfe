// What cutting planes propose, beside what is worked by hand.
use crate::solvers::asked::{Line, rows_of};
use cutting_planes::{Proposal, propose};
use proof_lines::RowStep;
use std::alloc::Global;

// What is proposed of the rows of lines.
fn proposed(alloc: Global, lines: &[Line], ints: u32) -> Option<Proposal> {
    match rows_of(alloc, lines) {
        Ok(rows) => {
            let proposal = propose(alloc, rows.as_slice(), ints);
            drop(rows);
            proposal
        }
        Err(_) => None,
    }
}

// `2 x + y = 4` with x and y at least 1: the fractions lie from 3/2, 1 to 1, 2, and y is even.
const ON_A_LINE: &[Line<'static>] = &[(&[2, 1], 4), (&[-2, -1], -4), (&[-1], -1), (&[0, -1], -1)];

fn on_a_line() -> &'static [Line<'static>] {
    ON_A_LINE
}

fn are_proposed(alloc: Global, lines: &[Line], ints: u32, numbers: &[i128]) -> bool {
    let proposal = proposed(alloc, lines, ints);
    let are = matches!(&proposal, Some(Proposal::Numbers(found)) if found.as_slice() == numbers);
    drop(proposal);
    are
}

#[test]
fn the_only_whole_numbers_are_proposed(rt: HostRuntime) {
    assert!(rt; are_proposed(rt.alloc(), on_a_line(), 2, &[1, 2]));
}

// `2 x = y` and `y = 1`. The only fractions are 1/2, 1. There x is half the sum of the second and the last slack, with the opposite sign,
// so a cut takes both rows once: `-2 x <= -1`, which is `-x <= -1`, row 4. The other cut is the same, since 1 and -1 are one modulo 2. No
// fractions are left: the third row and twice row 4 are `y - 2 x <= -1`, row 6, and with the first row they give `0 <= -1`.
const HALF_OF_ONE: &[Line<'static>] = &[(&[2, -1], 0), (&[-2, 1], 0), (&[0, 1], 1), (&[0, -1], -1)];

fn half_of_one() -> &'static [Line<'static>] {
    HALF_OF_ONE
}

fn adding(left: u32, right: u32) -> RowStep {
    RowStep {
        left,
        first: 1,
        right,
        second: 1,
    }
}

fn is_refutation(proposal: &Proposal, used: &[u32], steps: &[RowStep]) -> bool {
    match proposal {
        Proposal::Refutation {
            used: named,
            steps: taken,
        } => named.as_slice() == used && taken.as_slice() == steps,
        Proposal::Numbers(_) => false,
    }
}

fn is_proposed(alloc: Global, lines: &[Line], ints: u32, used: &[u32], steps: &[RowStep]) -> bool {
    match proposed(alloc, lines, ints) {
        Some(proposal) => {
            let is = is_refutation(&proposal, used, steps);
            drop(proposal);
            is
        }
        None => false,
    }
}

#[test]
fn cuts_of_a_fraction_refute(rt: HostRuntime) {
    let twice = RowStep {
        left: 2,
        first: 1,
        right: 4,
        second: 2,
    };
    let steps = [adding(1, 3), adding(1, 3), twice, adding(6, 0)];
    assert!(rt; is_proposed(rt.alloc(), half_of_one(), 2, &[0, 1, 2, 3], &steps));
}
