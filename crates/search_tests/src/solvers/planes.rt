// Systems that the solver guided by cutting planes decides, and such as it leaves to elimination.
use crate::solvers::asked::{Case, Told, check_planes};
use crate::solvers::searches::{Search, check_searches};
use crate::summaries::Said;

static ALONE: &[Case] = &[
    // Twice the first name is the second, which is 1. Elimination splits; a cut says that the first is at most 0, and another that it
    // is at least 1.
    (
        &[(&[2, -1], 0), (&[-2, 1], 0), (&[0, 1], 1), (&[0, -1], -1)],
        2,
        Told::Conflict,
    ),
    // What lies beyond a state stays with elimination: the first name is at least 10^9, the second at least 10^9 times that.
    (
        &[(&[1_000_000_000, -1], 0), (&[-1, 0], -1_000_000_000)],
        2,
        Told::Value,
    ),
];

fn alone() -> &'static [Case] {
    ALONE
}

#[test]
fn the_solver_is_guided_by_cuts(rt: HostRuntime) {
    check_planes(&rt, rt.alloc(), alone());
}

// Systems whose equations are taken out, so that short vectors are left.
static REFORMED: &[Case] = &[
    // `x + 2 y + 3 z = 1` and `x + 4 y + 5 z = 2`, so `2 y + 2 z` would be 1.
    (
        &[
            (&[1, 2, 3], 1),
            (&[-1, -2, -3], -1),
            (&[1, 4, 5], 2),
            (&[-1, -4, -5], -2),
        ],
        3,
        Told::Conflict,
    ),
    // Coins of 701 and 709 that make 495600: 442 and 262. Solutions differ by 709 of one and 701 of the other, so no other one has
    // natural numbers.
    (
        &[
            (&[701, 709], 495_600),
            (&[-701, -709], -495_600),
            (&[-1], 0),
            (&[0, -1], 0),
        ],
        2,
        Told::Model { first: 442 },
    ),
    // Five equations over six names: elimination holds ten thousand rows.
    (
        &[
            (&[-4, -2, 2, 7, 8, 2], -2),
            (&[4, 2, -2, -7, -8, -2], 2),
            (&[9, -8, 9, 7, -1, -6], -2),
            (&[-9, 8, -9, -7, 1, 6], 2),
            (&[4, -8, -5, -2, 4, 6], 4),
            (&[-4, 8, 5, 2, -4, -6], -4),
            (&[1, 1, -9, -3, 3, -8], 5),
            (&[-1, -1, 9, 3, -3, 8], -5),
            (&[-6, 4, 1, -6, -7, 5], 9),
            (&[6, -4, -1, 6, 7, -5], -9),
        ],
        6,
        Told::Model { first: 492 },
    ),
    // Six equations over seven names without whole numbers: multiples of them add up to one with a divisor that its value lacks.
    (
        &[
            (&[2, -4, 7, -2, -7, 1, -5], 2),
            (&[-2, 4, -7, 2, 7, -1, 5], -2),
            (&[9, 7, 4, 6, 2, 7, -4], -6),
            (&[-9, -7, -4, -6, -2, -7, 4], 6),
            (&[2, -5, 5, -5, 5, 1, 2], 2),
            (&[-2, 5, -5, 5, -5, -1, -2], -2),
            (&[-4, 1, -7, 8, 2, 1, 4], 2),
            (&[4, -1, 7, -8, -2, -1, -4], -2),
            (&[6, 9, 4, 3, 3, 3, -4], 0),
            (&[-6, -9, -4, -3, -3, -3, 4], 0),
            (&[-5, 3, -3, 9, -7, 3, 6], 2),
            (&[5, -3, 3, -9, 7, -3, -6], -2),
        ],
        7,
        Told::Conflict,
    ),
    // Five thin slabs over five names, none of them negative: each face of a short coordinate is empty.
    (
        &[
            (&[45, 85, 97, 26, 64], 3076),
            (&[-45, -85, -97, -26, -64], -3056),
            (&[7, 67, 44, 19, 34], 1367),
            (&[-7, -67, -44, -19, -34], -1347),
            (&[96, 19, 50, 27, 97], 3958),
            (&[-96, -19, -50, -27, -97], -3938),
            (&[69, 17, 36, 40, 5], 3380),
            (&[-69, -17, -36, -40, -5], -3360),
            (&[57, 66, 50, 47, 30], 3592),
            (&[-57, -66, -50, -47, -30], -3572),
            (&[-1], 0),
            (&[0, -1], 0),
            (&[0, 0, -1], 0),
            (&[0, 0, 0, -1], 0),
            (&[0, 0, 0, 0, -1], 0),
        ],
        5,
        Told::Conflict,
    ),
];

fn reformed() -> &'static [Case] {
    REFORMED
}

#[test]
fn equations_are_taken_out(rt: HostRuntime) {
    check_planes(&rt, rt.alloc(), reformed());
}

static SEARCHED: &[Search] = &[
    // `2 x = 3 y`, `2 y = 3 z` and `z = 4 w + 2`: y is a multiple of 3 and, like 3 z / 2, odd; but 3 y is even.
    (
        &[
            (&[2, -3], 0),
            (&[-2, 3], 0),
            (&[0, 2, -3], 0),
            (&[0, -2, 3], 0),
            (&[0, 0, 1, -4], 2),
            (&[0, 0, -1, 4], -2),
        ],
        4,
        Said::Unsat,
    ),
    // 1020095 is the greatest number that isn't a sum of coins of 1009 and 1013, by the formula of Frobenius.
    (
        &[
            (&[1009, 1013], 1_020_095),
            (&[-1009, -1013], -1_020_095),
            (&[-1], 0),
            (&[0, -1], 0),
        ],
        2,
        Said::Unsat,
    ),
    // A difference of one is found, since the two numbers have no common divisor.
    (&[(&[997, -1009], 1), (&[-997, 1009], -1)], 2, Said::Sat),
    // Four quotients in a circle multiply to less than 1, so each name would be less than itself, unless it is at most 0.
    (
        &[
            (&[999_999_937, -999_999_929], 0),
            (&[0, 999_999_893, -999_999_883], 0),
            (&[0, 0, 999_999_797, -999_999_761], 0),
            (&[-999_999_751, 0, 0, 999_999_757], 0),
            (&[-1], -1),
        ],
        4,
        Said::Unsat,
    ),
];

fn searched() -> &'static [Search] {
    SEARCHED
}

#[test]
fn the_search_is_guided_by_cuts(rt: HostRuntime) {
    check_searches(&rt, rt.alloc(), searched());
}
