// How many formulas, atoms, integer names and clauses the problem of each obligation has.
//
// A program in Python counted them, written from docs/embedders/GROUND.md and the definitions. Two of them are counted by hand besides.
//
// That puts and drops of a set commute: 12 formulas, 14 atoms, no integer name and 24 clauses. The elements x, y of the calls and e
// of the conclusion are the constants 0, 1 and 2. The set reads differently at e after the two orders: one formula and two atoms,
// one clause of two parts that have names, each of which is a clause of two literals: 5 clauses and 4 atoms. The readings after both
// orders and after each call alone have two formulas each, 8 in all. A put makes `x = e or before` of the reading, a drop `not y = e
// and before`: either way one of the two formulas has an "and" inside an "or", which gets a name and two clauses of its own, so
// there are 4 clauses and a name for each reading. They name two more readings after one call, the one at the entry, and two
// equalities. The three constants have three formulas of equality, one clause each, which name one more equality.
//
// That a withdrawal stays possible after another one: 10 formulas, 17 atoms, 5 integer names, 16 clauses. The integer names are the
// two amounts, both balances before, and the first one after the other withdrawal. There are an invariant and two lines for each
// call, and the line that fails: 7 formulas that are rows alone. The balance after is defined by two formulas, and equal accounts
// have equal balances by one more: each is an "or" of the equality of the accounts, or of its negation, and two rows, which have a
// name. So there are 7 and 6 rows, one equality and 3 names, 7 clauses and three times 3.

ghost use Rattle.obligation_list.specs.Obligations.{IsObligation};

use crate::examples::{chain, deposits, far, purses, set, shop, tournaments, withdrawals};
use crate::setting::{count_of, grounded, obligation_at, pose, read, spec_of};
use obligation_list::{Obligation, list};
use spec_core::Spec;
use std::alloc::Global;
use std::process::Abort;

/// How many formulas, atoms, integer names and clauses a problem has.
type Sizes = (usize, usize, u32, usize);

fn sizes_of(rt: &impl Abort, alloc: Global, spec: &Spec, ob: &Obligation) -> Sizes
    requires { IsObligation spec.now ob.now }
{
    let found = grounded(rt, alloc, spec, ob).expect(rt, "few formulas");
    let problem = pose(alloc, spec, ob, &found).expect(rt, "memory");
    let formulas = found.formulas.len();
    drop(found);
    let sizes = (
        formulas,
        problem.atoms.len(),
        problem.ints,
        problem.clauses.len(),
    );
    drop(problem);
    sizes
}

// The sizes of the problem of the obligation at a place of the list.
fn sizes_at(rt: &impl Abort, alloc: Global, spec: &Spec, place: usize) -> Sizes {
    let obligations = list(alloc, spec).expect(rt, "memory");
    let found = obligation_at(rt, spec, obligations.as_slice(), place);
    let sizes = sizes_of(rt, alloc, spec, found);
    drop(obligations);
    sizes
}

/// The obligations of a specification have problems of these sizes.
fn check(rt: &impl Abort, alloc: Global, text: &[u8], want: &[Sizes]) {
    let reading = read(rt, alloc, text);
    let spec = spec_of(rt, &reading);
    assert!(rt; count_of(rt, alloc, spec) == want.len());
    for place in 0..want.len() {
        let found = sizes_at(rt, alloc, spec, place);
        assert!(rt; found == want[place], "at {place}");
    }
    reading.let_go();
}

static OF_DEPOSITS: &[Sizes] = &[(1, 0, 0, 1), (7, 14, 4, 13), (20, 43, 9, 42), (6, 8, 4, 8)];

fn of_deposits() -> &'static [Sizes] {
    OF_DEPOSITS
}

#[test]
fn deposits_have_problems_of_these_sizes(rt: HostRuntime) {
    check(&rt, rt.alloc(), deposits(), of_deposits());
}

static OF_WITHDRAWALS: &[Sizes] = &[
    (1, 0, 0, 1),
    (7, 14, 4, 13),
    (8, 15, 4, 14),
    (20, 43, 9, 42),
    (21, 44, 9, 43),
    (22, 45, 9, 44),
    (6, 8, 4, 8),
    (7, 9, 4, 9),
    (7, 9, 4, 9),
    (8, 10, 4, 10),
    (9, 16, 5, 15),
    (10, 17, 5, 16),
];

fn of_withdrawals() -> &'static [Sizes] {
    OF_WITHDRAWALS
}

#[test]
fn withdrawals_have_problems_of_these_sizes(rt: HostRuntime) {
    check(&rt, rt.alloc(), withdrawals(), of_withdrawals());
}

static OF_PURSES: &[Sizes] = &[
    (1, 0, 0, 1),
    (7, 14, 4, 13),
    (8, 15, 4, 14),
    (20, 43, 9, 42),
    (21, 44, 9, 43),
    (24, 45, 9, 46),
    (6, 8, 4, 8),
    (7, 9, 4, 9),
    (7, 9, 4, 9),
    (10, 10, 4, 12),
    (9, 16, 5, 15),
    (12, 17, 5, 18),
];

fn of_purses() -> &'static [Sizes] {
    OF_PURSES
}

#[test]
fn purses_have_problems_of_these_sizes(rt: HostRuntime) {
    check(&rt, rt.alloc(), purses(), of_purses());
}

static OF_SET: &[Sizes] = &[(12, 14, 0, 24), (12, 14, 0, 24), (12, 14, 0, 24)];

fn of_set() -> &'static [Sizes] {
    OF_SET
}

#[test]
fn a_set_has_problems_of_these_sizes(rt: HostRuntime) {
    check(&rt, rt.alloc(), set(), of_set());
}

static OF_FAR: &[Sizes] = &[
    (1, 0, 0, 1),
    (6, 4, 2, 5),
    (14, 9, 2, 14),
    (7, 6, 3, 8),
    (8, 8, 4, 10),
];

fn of_far() -> &'static [Sizes] {
    OF_FAR
}

#[test]
fn far_numbers_have_problems_of_these_sizes(rt: HostRuntime) {
    check(&rt, rt.alloc(), far(), of_far());
}

static OF_SHOP: &[Sizes] = &[
    (11, 18, 7, 11),
    (10, 16, 7, 13),
    (10, 16, 8, 13),
    (9, 7, 2, 11),
    (7, 14, 7, 9),
    (11, 22, 8, 13),
    (10, 9, 3, 13),
    (8, 16, 8, 11),
    (9, 7, 2, 9),
    (6, 8, 4, 7),
    (4, 8, 4, 7),
    (3, 6, 4, 5),
];

fn of_shop() -> &'static [Sizes] {
    OF_SHOP
}

#[test]
fn a_shop_has_problems_of_these_sizes(rt: HostRuntime) {
    check(&rt, rt.alloc(), shop(), of_shop());
}

static OF_CHAIN: &[Sizes] = &[
    (1, 0, 0, 1),
    (9, 10, 0, 16),
    (10, 10, 0, 17),
    (10, 10, 0, 17),
    (9, 10, 0, 16),
    (23, 25, 0, 47),
    (24, 25, 0, 48),
    (24, 23, 0, 44),
    (24, 23, 0, 44),
    (23, 23, 0, 43),
    (23, 23, 0, 43),
    (25, 25, 0, 49),
    (25, 23, 0, 45),
    (25, 23, 0, 45),
    (24, 23, 0, 44),
    (24, 23, 0, 44),
    (25, 25, 0, 49),
    (24, 25, 0, 48),
    (23, 25, 0, 47),
    (10, 8, 0, 14),
    (11, 8, 0, 15),
    (11, 9, 0, 17),
    (10, 9, 0, 16),
    (10, 9, 0, 16),
    (11, 9, 0, 17),
    (11, 8, 0, 15),
    (10, 8, 0, 14),
];

fn of_chain() -> &'static [Sizes] {
    OF_CHAIN
}

#[test]
fn a_chain_has_problems_of_these_sizes(rt: HostRuntime) {
    check(&rt, rt.alloc(), chain(), of_chain());
}

static OF_TOURNAMENTS: &[Sizes] = &[
    (1, 0, 0, 1),
    (1, 0, 0, 1),
    (12, 15, 1, 23),
    (4, 8, 2, 7),
    (13, 15, 1, 24),
    (5, 8, 2, 8),
    (14, 19, 2, 27),
    (5, 9, 3, 8),
    (15, 19, 2, 28),
    (5, 9, 3, 8),
    (26, 33, 2, 57),
    (14, 23, 3, 28),
    (23, 32, 2, 54),
    (11, 22, 3, 25),
    (14, 14, 0, 26),
    (14, 14, 0, 26),
    (14, 19, 1, 30),
    (16, 23, 2, 34),
    (16, 19, 1, 32),
    (17, 23, 2, 35),
    (27, 29, 1, 53),
    (45, 56, 2, 109),
    (27, 46, 6, 63),
    (24, 28, 1, 50),
    (42, 55, 2, 106),
    (24, 45, 6, 60),
    (14, 14, 0, 26),
    (15, 19, 1, 31),
    (18, 23, 2, 36),
    (17, 19, 1, 33),
    (19, 23, 2, 37),
    (28, 29, 1, 54),
    (47, 56, 2, 111),
    (29, 46, 6, 65),
    (25, 28, 1, 51),
    (44, 55, 2, 108),
    (26, 45, 6, 62),
    (20, 26, 3, 38),
    (20, 26, 3, 38),
    (32, 40, 3, 64),
    (48, 63, 3, 116),
    (30, 50, 7, 64),
    (29, 39, 3, 61),
    (45, 62, 3, 113),
    (27, 49, 7, 61),
    (20, 26, 3, 38),
    (33, 40, 3, 65),
    (50, 63, 3, 118),
    (31, 50, 7, 65),
    (30, 39, 3, 62),
    (47, 62, 3, 115),
    (28, 49, 7, 62),
    (82, 100, 3, 210),
    (53, 80, 7, 125),
    (79, 99, 3, 207),
    (50, 79, 7, 122),
    (76, 98, 3, 204),
    (47, 78, 7, 119),
    (11, 12, 1, 19),
    (12, 12, 1, 20),
    (12, 16, 2, 22),
    (13, 16, 2, 23),
    (25, 31, 2, 55),
    (22, 30, 2, 52),
    (10, 12, 1, 18),
    (11, 12, 1, 19),
    (13, 16, 2, 23),
    (14, 16, 2, 24),
    (25, 31, 2, 55),
    (22, 30, 2, 52),
    (13, 14, 1, 23),
    (14, 14, 1, 24),
    (15, 17, 2, 25),
    (16, 17, 2, 26),
    (28, 30, 2, 54),
    (25, 29, 2, 51),
    (13, 13, 1, 21),
    (14, 13, 1, 22),
    (15, 18, 2, 27),
    (16, 18, 2, 28),
    (28, 30, 2, 54),
    (25, 29, 2, 51),
    (12, 15, 2, 21),
    (13, 15, 2, 22),
    (14, 19, 3, 25),
    (15, 19, 3, 26),
    (28, 36, 3, 58),
    (25, 35, 3, 55),
    (13, 13, 1, 21),
    (14, 13, 1, 22),
    (15, 17, 2, 25),
    (16, 17, 2, 26),
    (28, 32, 2, 58),
    (25, 31, 2, 55),
    (10, 12, 1, 18),
    (11, 12, 1, 19),
    (12, 16, 2, 22),
    (13, 16, 2, 23),
    (25, 31, 2, 55),
    (22, 30, 2, 52),
];

fn of_tournaments() -> &'static [Sizes] {
    OF_TOURNAMENTS
}

#[test]
fn tournaments_have_problems_of_these_sizes(rt: HostRuntime) {
    check(&rt, rt.alloc(), tournaments(), of_tournaments());
}
