// Worked examples of obligations, and of what breaks them.

use crate::examples::{deposits, purses, set, shop, tournaments, withdrawals};
use crate::setting::{Setting, call, first_setting, items, read, spec_of};
use items::Items;
use obligation_list::{Obligation, Witness, breaks, law_obligations, list};
use spec_core::{Call, Spec, Thing};
use std::alloc::Global;
use std::process::Abort;

/// How many obligations a specification has.
fn obligations(rt: &impl Abort, alloc: Global, text: &[u8]) -> usize {
    let reading = read(rt, alloc, text);
    let obligations = list(alloc, spec_of(rt, &reading)).expect(rt, "memory");
    let found = obligations.len();
    drop(obligations);
    reading.let_go();
    found
}

/// How many the specifications of accounts have.
fn of_accounts(rt: &impl Abort, alloc: Global) -> [usize; 3] {
    [
        obligations(rt, alloc, deposits()),
        obligations(rt, alloc, withdrawals()),
        obligations(rt, alloc, purses()),
    ]
}

/// How many a set, a shop and tournaments have.
fn of_others(rt: &impl Abort, alloc: Global) -> [usize; 3] {
    [
        obligations(rt, alloc, set()),
        obligations(rt, alloc, shop()),
        obligations(rt, alloc, tournaments()),
    ]
}

#[test]
fn a_specification_has_so_many_obligations(rt: HostRuntime) {
    let of_accounts = of_accounts(&rt, rt.alloc());
    let of_others = of_others(&rt, rt.alloc());
    assert!(rt; of_accounts == [4, 12, 12]);
    assert!(rt; of_others == [3, 12, 100]);
}

static OF_DEPOSITS: &[Obligation] = &[
    Obligation::Init { inv: 0 },
    Obligation::Safety { op: 0, inv: 0 },
    Obligation::Commute {
        first: 0,
        second: 0,
        thing: Thing::Counter(0),
    },
    Obligation::Stable {
        op: 0,
        line: 0,
        other: 0,
    },
];

/// Whether a specification has these obligations.
fn has_these(rt: &impl Abort, alloc: Global, text: &[u8], want: &[Obligation]) -> bool {
    let reading = read(rt, alloc, text);
    let obligations = list(alloc, spec_of(rt, &reading)).expect(rt, "memory");
    let found = obligations.as_slice() == want;
    drop(obligations);
    reading.let_go();
    found
}

#[test]
fn deposits_have_an_obligation_of_each_kind(rt: HostRuntime) {
    assert!(rt; has_these(&rt, rt.alloc(), deposits(), OF_DEPOSITS));
}

/// Whether a witness breaks an obligation, which has to be the one at a place of the list.
fn breaks_at(
    rt: &impl Abort,
    alloc: Global,
    spec: &Spec,
    place: usize,
    obligation: Obligation,
    witness: &Witness,
) -> bool {
    let obligations = list(alloc, spec).expect(rt, "memory");
    let found = obligations.get(place).expect(rt, "an obligation");
    assert!(rt; *found == obligation);
    law_obligations();
    let broken = breaks(spec, found, witness);
    drop(obligations);
    broken
}

/// Two calls with the same arguments.
fn two(rt: &impl Abort, alloc: Global, first: u8, second: u8, args: &[i64]) -> Items<Call> {
    let mut calls = Items::new(alloc);
    calls
        .push(call(rt, alloc, first, args))
        .expect(rt, "memory");
    calls
        .push(call(rt, alloc, second, args))
        .expect(rt, "memory");
    calls
}

/// Whether two calls with the same arguments break an obligation in a setting.
fn two_break(
    rt: &impl Abort,
    alloc: Global,
    at: Setting,
    place: usize,
    obligation: Obligation,
    calls: Items<Call>,
    elements: &[u32],
) -> bool {
    let Setting { spec, world, state } = at;
    let witness = Witness {
        world,
        state,
        calls,
        elements: items(rt, alloc, elements),
    };
    let found = breaks_at(rt, alloc, spec, place, obligation, &witness);
    drop(witness);
    found
}

/// Whether two withdrawals of 1 from one account break that the second of them is still covered.
fn two_withdrawals_break(rt: &impl Abort, alloc: Global, text: &[u8], balance: i64) -> bool {
    let reading = read(rt, alloc, text);
    let mut at = first_setting(rt, alloc, spec_of(rt, &reading), &[1]);
    at.set_count(rt, 0, &[0], balance);
    let covered = Obligation::Stable {
        op: 1,
        line: 1,
        other: 1,
    };
    let calls = two(rt, alloc, 1, 1, &[0, 1]);
    let found = two_break(rt, alloc, at, 11, covered, calls, &[]);
    reading.let_go();
    found
}

#[test]
fn a_balance_of_1_covers_one_withdrawal_and_a_balance_of_2_both(rt: HostRuntime) {
    let with_1 = two_withdrawals_break(&rt, rt.alloc(), withdrawals(), 1);
    let with_2 = two_withdrawals_break(&rt, rt.alloc(), withdrawals(), 2);
    assert!(rt; with_1 && !with_2);
}

#[test]
fn withdrawals_that_conflict_break_nothing(rt: HostRuntime) {
    assert!(rt; !two_withdrawals_break(&rt, rt.alloc(), purses(), 1));
}

/// Whether putting and dropping an element break that they commute.
fn put_and_drop_break(rt: &impl Abort, alloc: Global) -> bool {
    let reading = read(rt, alloc, set());
    let at = first_setting(rt, alloc, spec_of(rt, &reading), &[1]);
    let commute = Obligation::Commute {
        first: 0,
        second: 1,
        thing: Thing::Relation(0),
    };
    let calls = two(rt, alloc, 0, 1, &[0]);
    let found = two_break(rt, alloc, at, 1, commute, calls, &[0]);
    reading.let_go();
    found
}

#[test]
fn putting_and_dropping_an_element_do_not_commute(rt: HostRuntime) {
    assert!(rt; put_and_drop_break(&rt, rt.alloc()));
}
