// Single systems, worked by hand.
use crate::solvers::asked::{Case, Line, Told, ask, check_all, refutes_by, row};
use crate::solvers::searches::find;
use crate::summaries::Said;
use lin_rows::Row;
use linear_ints::Eliminator;
use proof_lines::RowStep;
use std::alloc::{AllocError, Global};

// The first name has one pair, the second two upper and two lower rows, so the first is eliminated first. Then the second is 1, and
// the first lies between a half and a half.
const HALF_OF_ONE: &[Line<'static>] = &[(&[2, -1], 0), (&[-2, 1], 0), (&[0, 1], 1), (&[0, -1], -1)];

static SYSTEMS: &[Case] = &[
    // twice a number is at most 1 and at least 1: tightened, at most 0 and at least 1
    (&[(&[2], 1), (&[-2], -1)], 1, Told::Conflict),
    // a number between equal bounds
    (&[(&[1], 3), (&[-1], -3)], 1, Told::Model { first: 3 }),
    (
        HALF_OF_ONE,
        2,
        Told::Split {
            place: 0,
            at: 0,
            first: 1,
        },
    ),
    // the first name is at least 10^9, the second at least 10^9 times that, beyond the range of a state
    (
        &[(&[1_000_000_000, -1], 0), (&[-1, 0], -1_000_000_000)],
        2,
        Told::Value,
    ),
    // five quotients in a circle, which elimination multiplies, and a start: the fourth product has more than 128 bits
    (
        &[
            (&[999_999_937, -999_999_929], 0),
            (&[0, 999_999_893, -999_999_883], 0),
            (&[0, 0, 999_999_797, -999_999_761], 0),
            (&[0, 0, 0, 999_999_757, -999_999_751], 0),
            (&[-999_999_733, 0, 0, 0, 999_999_739], 0),
            (&[-1], -1000),
        ],
        5,
        Told::Product,
    ),
    // what is beyond the range hides no conflict: a sixth name is at most 0 and at least 1, and the product that is met before is left
    // out
    (
        &[
            (&[999_999_937, -999_999_929], 0),
            (&[0, 999_999_893, -999_999_883], 0),
            (&[0, 0, 999_999_797, -999_999_761], 0),
            (&[0, 0, 0, 999_999_757, -999_999_751], 0),
            (&[-999_999_733, 0, 0, 0, 999_999_739], 0),
            (&[-1], -1000),
            (&[0, 0, 0, 0, 0, 1], 0),
            (&[0, 0, 0, 0, 0, -1], -1),
        ],
        6,
        Told::Conflict,
    ),
];

fn systems() -> &'static [Case] {
    SYSTEMS
}

fn half_of_one() -> &'static [Line<'static>] {
    HALF_OF_ONE
}

#[test]
fn single_systems_are_decided(rt: HostRuntime) {
    check_all(&rt, rt.alloc(), systems());
}

#[test]
fn the_search_refutes_what_is_split(rt: HostRuntime) {
    assert!(rt; find(rt.alloc(), half_of_one(), 2) == Said::Unsat);
}

// The first name is eliminated first, which gives `x2 <= 2`; then twice the second is at most 1 and at least 1. The conflict rests on
// the last two rows alone, which are numbered anew.
static ON_TWO_ROWS: &[Line<'static>] = &[
    (&[1, 0, 1], 4),
    (&[-1, 0, 1], 1),
    (&[0, 0, -1], 0),
    (&[0, 2], 1),
    (&[0, -2], -1),
];

fn on_two_rows() -> &'static [Line<'static>] {
    ON_TWO_ROWS
}

#[test]
fn a_conflict_names_what_it_rests_on_alone(rt: HostRuntime) {
    let step = RowStep {
        left: 0,
        first: 1,
        right: 1,
        second: 1,
    };
    assert!(rt; refutes_by(rt.alloc(), on_two_rows(), 3, &[3, 4], &[step]));
}

// The last given row is a contradiction by itself.
static ON_ONE_ROW: &[Line<'static>] = &[(&[1], 3), (&[-1], -3), (&[0], -1)];

fn on_one_row() -> &'static [Line<'static>] {
    ON_ONE_ROW
}

#[test]
fn a_contradiction_alone_is_a_conflict(rt: HostRuntime) {
    assert!(rt; refutes_by(rt.alloc(), on_one_row(), 1, &[2], &[]));
}

// Upper rows `x0 + i x1 + i^3 x2 <= 1000 + i` and lower rows `-x0 + 101 i x1 + i^3 x2 <= 100000 + 1000 i`, for i from -59 to 59 but 0.
fn family(alloc: Global) -> Result<Vec<Row>, AllocError> {
    let mut rows = Vec::new(alloc);
    for step in 1..60u8 {
        add_four(alloc, &mut rows, i128::from(step))?;
    }
    Ok(rows)
}

// The rows of a number and of its opposite.
fn add_four(alloc: Global, rows: &mut Vec<Row>, number: i128) -> Result<(), AllocError> {
    let cube = number.saturating_mul(number).saturating_mul(number);
    let thousands = number.saturating_mul(1000);
    let (above, below) = (number.saturating_add(1000), 1000i128.saturating_sub(number));
    add_pair(alloc, rows, &[1, number, cube], above, below)?;
    let (above, below) = (
        thousands.saturating_add(100_000),
        100_000i128.saturating_sub(thousands),
    );
    let lower = [-1, number.saturating_mul(101), cube];
    add_pair(alloc, rows, &lower, above, below)
}

// A row, and the one with the opposite coefficients.
fn add_pair(
    alloc: Global,
    rows: &mut Vec<Row>,
    coefs: &[i128; 3],
    bound: i128,
    other: i128,
) -> Result<(), AllocError> {
    rows.push(row(alloc, &(coefs.as_slice(), bound))?)?;
    rows.push(row(alloc, &(opposite(coefs).as_slice(), other))?)?;
    Ok(())
}

// With the opposites of the second and the third coefficient.
fn opposite(coefs: &[i128; 3]) -> [i128; 3] {
    [
        coefs[0],
        0i128.saturating_sub(coefs[1]),
        0i128.saturating_sub(coefs[2]),
    ]
}

fn tell_family(alloc: Global) -> Told {
    match family(alloc) {
        Ok(rows) => {
            let told = ask(&mut Eliminator::new(), alloc, rows.as_slice(), 3);
            drop(rows);
            told
        }
        Err(_) => Told::Nothing,
    }
}

// Each name has 118 upper and 118 lower rows, whose 13,924 pairs give more rows than are held.
#[test]
fn a_family_that_multiplies_has_too_many_rows(rt: HostRuntime) {
    assert!(rt; tell_family(rt.alloc()) == Told::Rows);
}
