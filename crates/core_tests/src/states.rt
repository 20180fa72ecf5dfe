// Worked examples of states: what they read, how one reading changes, when two are the same, and the lines that show them.

use crate::examples::{deposits, flag, set, tournaments};
use crate::setting::{Setting, first_setting, read, spec_of};
use spec_states::write_state;
use std::alloc::Global;
use std::process::Abort;

/// Whether the flag is up, and the first broken invariant.
type Flag = (bool, Option<usize>);

/// The flag at first, and in the empty state.
fn flags_in(rt: &impl Abort, alloc: Global, at: &mut Setting) -> (Flag, Flag) {
    let first = (at.has(0, &[]), at.broken());
    at.empty(rt, alloc);
    (first, (at.has(0, &[]), at.broken()))
}

/// The same of the first setting.
fn flags(rt: &impl Abort, alloc: Global) -> (Flag, Flag) {
    let reading = read(rt, alloc, flag());
    let mut at = first_setting(rt, alloc, spec_of(rt, &reading), &[]);
    let found = flags_in(rt, alloc, &mut at);
    drop(at);
    reading.let_go();
    found
}

#[test]
fn the_flag_is_up_at_first_and_down_in_the_empty_state(rt: HostRuntime) {
    let (first, empty) = flags(&rt, rt.alloc());
    assert!(rt; first.0 && first.1.is_none());
    assert!(rt; !empty.0 && empty.1 == Some(0));
}

/// Two balances, of which the second was changed to 7.
fn balances_in(rt: &impl Abort, accounts: &mut Setting) -> [i128; 2] {
    accounts.set_count(rt, 0, &[1], 7);
    [accounts.count(0, &[0]), accounts.count(0, &[1])]
}

/// The same of the first setting.
fn balances(rt: &impl Abort, alloc: Global) -> [i128; 2] {
    let reading = read(rt, alloc, deposits());
    let mut accounts = first_setting(rt, alloc, spec_of(rt, &reading), &[2]);
    let found = balances_in(rt, &mut accounts);
    drop(accounts);
    reading.let_go();
    found
}

#[test]
fn one_balance_changes_alone(rt: HostRuntime) {
    let found = balances(&rt, rt.alloc());
    assert!(rt; found == [0, 7]);
}

/// Whether element 0 and element 1 are there once 1 is put in, and 1 once it is taken out.
fn elements_in(rt: &impl Abort, at: &mut Setting) -> [bool; 3] {
    at.set_has(rt, 0, &[1], true);
    let other = at.has(0, &[0]);
    let put_in = at.has(0, &[1]);
    at.set_has(rt, 0, &[1], false);
    [other, put_in, at.has(0, &[1])]
}

/// The same of the first setting.
fn elements(rt: &impl Abort, alloc: Global) -> [bool; 3] {
    let reading = read(rt, alloc, set());
    let mut at = first_setting(rt, alloc, spec_of(rt, &reading), &[2]);
    let found = elements_in(rt, &mut at);
    drop(at);
    reading.let_go();
    found
}

#[test]
fn one_tuple_is_put_in_and_taken_out(rt: HostRuntime) {
    let found = elements(&rt, rt.alloc());
    assert!(rt; found == [false, true, false]);
}

/// Whether a copy is the same at first, and after the original has changed.
fn copied_in(rt: &impl Abort, accounts: &mut Setting) -> [bool; 2] {
    accounts.set_count(rt, 0, &[0], -3);
    let copy = accounts.state.copy().expect(rt, "memory");
    let at_first = copy.same(&accounts.state);
    accounts.set_count(rt, 0, &[1], 1);
    let after_change = copy.same(&accounts.state);
    drop(copy);
    [at_first, after_change]
}

/// The same of the first setting.
fn copied(rt: &impl Abort, alloc: Global) -> [bool; 2] {
    let reading = read(rt, alloc, deposits());
    let mut accounts = first_setting(rt, alloc, spec_of(rt, &reading), &[2]);
    let found = copied_in(rt, &mut accounts);
    drop(accounts);
    reading.let_go();
    found
}

#[test]
fn a_copy_is_the_same_until_the_original_changes(rt: HostRuntime) {
    let found = copied(&rt, rt.alloc());
    assert!(rt; found == [true, false]);
}

/// Whether these lines show a state.
fn is_shown(rt: &impl Abort, alloc: Global, at: &Setting, want: &str) -> bool {
    let mut out = Vec::new(alloc);
    write_state(alloc, at.spec, &at.state, &mut out).expect(rt, "memory");
    let found = out.as_slice() == want.as_bytes();
    drop(out);
    found
}

/// Two players, one of them enrolled, and changed seats.
fn enroll(rt: &impl Abort, at: &mut Setting) {
    at.set_has(rt, 2, &[1, 0], true);
    at.set_has(rt, 0, &[1], true);
    at.set_has(rt, 0, &[0], true);
    at.set_count(rt, 0, &[0], -30);
    at.set_count(rt, 0, &[1], 0);
}

/// Whether these lines show a state of tournaments with those.
fn players_are_shown(rt: &impl Abort, alloc: Global, want: &str) -> bool {
    let reading = read(rt, alloc, tournaments());
    let mut at = first_setting(rt, alloc, spec_of(rt, &reading), &[2, 3]);
    enroll(rt, &mut at);
    let shown = is_shown(rt, alloc, &at, want);
    drop(at);
    reading.let_go();
    shown
}

#[test]
fn a_state_is_shown_by_its_true_tuples_and_its_values_that_are_not_0(rt: HostRuntime) {
    let want =
        "true player 0\ntrue player 1\ntrue enrolled 1 0\ncount seats 0 -30\ncount seats 2 10\n";
    assert!(rt; players_are_shown(&rt, rt.alloc(), want));
}
