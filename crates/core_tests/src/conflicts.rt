// Worked examples of calls that conflict.

use crate::examples::{shop, tournaments};
use crate::setting::{Setting, call, first_setting, read, spec_of};
use std::alloc::Global;
use std::process::Abort;
use token_rules::conflicts;

/// An operation with arguments.
type CallOutline = (u8, &'static [i64]);

/// Two calls, and whether they conflict.
type Case = (CallOutline, CallOutline, bool);

/// Whether two calls conflict, in either order.
fn conflict(
    rt: &impl Abort,
    alloc: Global,
    at: &Setting,
    one: &CallOutline,
    other: &CallOutline,
) -> (bool, bool) {
    let first = call(rt, alloc, one.0, one.1);
    let second = call(rt, alloc, other.0, other.1);
    let found = (
        conflicts(at.spec, &at.world, &first, &second),
        conflicts(at.spec, &at.world, &second, &first),
    );
    drop(first);
    drop(second);
    found
}

/// Each case in a setting.
fn check_all(rt: &impl Abort, alloc: Global, at: &Setting, cases: &[Case]) {
    for (one, other, want) in cases {
        let found = conflict(rt, alloc, at, one, other);
        assert!(rt;
            found.0 == *want && found.1 == *want,
            "at {one:?} and {other:?}"
        );
    }
}

fn check(rt: &impl Abort, alloc: Global, text: &[u8], sizes: &[u32], cases: &[Case]) {
    let reading = read(rt, alloc, text);
    let at = first_setting(rt, alloc, spec_of(rt, &reading), sizes);
    check_all(rt, alloc, &at, cases);
    drop(at);
    reading.let_go();
}

static IN_THE_SHOP: &[Case] = &[
    ((0, &[5]), (0, &[5]), true),
    ((0, &[5]), (1, &[5]), true),
    ((1, &[5]), (1, &[5]), false),
];

#[test]
fn orders_share_the_shop_and_a_new_price_has_it_alone(rt: HostRuntime) {
    check(&rt, rt.alloc(), shop(), &[], IN_THE_SHOP);
}

static TOURNAMENT_CASES: &[Case] = &[
    // enroll and rem_tourn
    ((4, &[0, 1]), (3, &[1]), true),
    ((4, &[0, 1]), (3, &[0]), false),
    // enroll and rem_player
    ((4, &[0, 1]), (1, &[0]), true),
    ((4, &[0, 1]), (1, &[1]), false),
    // enroll and enroll
    ((4, &[0, 1]), (4, &[1, 1]), true),
    ((4, &[0, 1]), (4, &[0, 0]), false),
    // rem_player and rem_tourn
    ((1, &[0]), (3, &[0]), false),
    ((1, &[0]), (1, &[0]), true),
];

fn in_tournaments() -> &'static [Case] {
    TOURNAMENT_CASES
}

#[test]
fn enrolling_conflicts_with_what_touches_its_player_or_its_tournament(rt: HostRuntime) {
    check(&rt, rt.alloc(), tournaments(), &[2, 2], in_tournaments());
}
