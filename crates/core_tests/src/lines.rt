// Worked examples of lines that are true or false: quantifiers, constants, elements that are equal or not, and the connectives.

use crate::examples::{people, rooms};
use crate::setting::{Setting, call, first_setting, first_setting_with, read, spec_of};
use spec_core::requires_broken_at;
use std::alloc::Global;
use std::process::Abort;

/// Whether the precondition of a call that fits is true.
fn is_ready(rt: &impl Abort, alloc: Global, at: &Setting, op: u8, args: &[i64]) -> bool {
    let call = call(rt, alloc, op, args);
    assert!(rt; call.fits(at.spec, &at.world));
    let broken = requires_broken_at(at.spec, &at.world, &at.state, &call);
    drop(call);
    broken.is_none()
}

/// Whether a room is free where there are so many.
fn some_is_free(rt: &impl Abort, alloc: Global, count: u32) -> bool {
    let reading = read(rt, alloc, rooms());
    let at = first_setting(rt, alloc, spec_of(rt, &reading), &[count]);
    let ready = is_ready(rt, alloc, &at, 0, &[]);
    drop(at);
    reading.let_go();
    ready
}

/// The same with no room, with one and with three.
fn with_rooms(rt: &impl Abort, alloc: Global) -> [bool; 3] {
    [
        some_is_free(rt, alloc, 0),
        some_is_free(rt, alloc, 1),
        some_is_free(rt, alloc, 3),
    ]
}

#[test]
fn a_room_is_free_where_there_is_one(rt: HostRuntime) {
    let found = with_rooms(&rt, rt.alloc());
    assert!(rt; found == [false, true, true]);
}

/// An operation with two people, and whether its precondition is true.
type Case = (u8, &'static [i64], bool);

/// The robots are none, and the second of three people is a member.
static PEOPLE_CASES: &[Case] = &[
    (0, &[1, 1], true),
    (0, &[0, 1], false),
    (1, &[0, 1], true),
    (1, &[1, 1], false),
    (2, &[0, 2], true),
    (2, &[1, 0], false),
    (3, &[0, 0], true),
    (3, &[1, 0], false),
    (4, &[0, 0], true),
    (5, &[0, 0], false),
    (6, &[1, 0], true),
    (6, &[0, 1], true),
    (6, &[0, 2], false),
    (7, &[0, 0], true),
    (8, &[0, 0], false),
    (9, &[0, 0], true),
];

fn about_people() -> &'static [Case] {
    PEOPLE_CASES
}

/// Each case in a setting.
fn check_all(rt: &impl Abort, alloc: Global, at: &Setting, cases: &[Case]) {
    for (op, args, want) in cases {
        let ready = is_ready(rt, alloc, at, *op, args);
        assert!(rt; ready == *want, "operation {op} at {args:?}");
    }
}

fn check_people(rt: &impl Abort, alloc: Global) {
    let reading = read(rt, alloc, people());
    let mut at = first_setting_with(rt, alloc, spec_of(rt, &reading), &[3, 0], &[0, 1]);
    at.set_has(rt, 0, &[1], true);
    check_all(rt, alloc, &at, about_people());
    drop(at);
    reading.let_go();
}

#[test]
fn lines_about_people_are_true_or_false(rt: HostRuntime) {
    check_people(&rt, rt.alloc());
}
