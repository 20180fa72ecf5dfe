// Worked examples of what calls change.

use crate::examples::{deposits, lamps, set, swap};
use crate::setting::{Setting, call, first_setting, read, spec_of};
use effectors::{ApplyRefused, apply, post_count, post_has, post2_count, post2_has};
use spec_states::State;
use std::alloc::Global;
use std::process::Abort;

/// An operation with arguments.
type CallOutline = (u8, &'static [i64]);

/// The first counter, its key of one element, and the value with which a call is refused.
fn range_of(made: &Result<State, ApplyRefused>) -> Option<[i128; 3]> {
    let Err(
        ApplyRefused::Range {
            counter,
            key,
            value,
        },
    ) = made
    else {
        return None;
    };
    match key.as_slice() {
        [element] => Some([i128::from(*counter), i128::from(*element), *value]),
        _ => None,
    }
}

/// The same of a call that fits, as it is refused.
fn refused(rt: &impl Abort, alloc: Global, at: &Setting, it: CallOutline) -> Option<[i128; 3]> {
    let call = call(rt, alloc, it.0, it.1);
    assert!(rt; call.fits(at.spec, &at.world));
    let made = apply(alloc, at.spec, &at.world, &at.state, &call);
    let found = range_of(&made);
    drop(made);
    drop(call);
    found
}

/// The value of a counter at a key after a call that fits.
fn count(
    rt: &impl Abort,
    alloc: Global,
    at: &Setting,
    it: CallOutline,
    counter: u8,
    key: &[u32],
) -> i128 {
    let call = call(rt, alloc, it.0, it.1);
    assert!(rt; call.fits(at.spec, &at.world));
    let found = post_count(at.spec, &at.world, &at.state, &call, counter, key);
    drop(call);
    found
}

/// The value after the call is made twice.
fn count_after_both(
    rt: &impl Abort,
    alloc: Global,
    at: &Setting,
    it: CallOutline,
    counter: u8,
    key: &[u32],
) -> i128 {
    let call = call(rt, alloc, it.0, it.1);
    assert!(rt; call.fits(at.spec, &at.world));
    let found = post2_count(at.spec, &at.world, &at.state, &call, &call, counter, key);
    drop(call);
    found
}

/// Whether the first relation has an element after a call that fits.
fn has(rt: &impl Abort, alloc: Global, at: &Setting, it: CallOutline, element: u32) -> bool {
    let call = call(rt, alloc, it.0, it.1);
    assert!(rt; call.fits(at.spec, &at.world));
    let found = post_has(at.spec, &at.world, &at.state, &call, 0, &[element]);
    drop(call);
    found
}

/// Whether it has the element after two calls that fit.
fn has_after_both(
    rt: &impl Abort,
    alloc: Global,
    at: &Setting,
    one: CallOutline,
    other: CallOutline,
    element: u32,
) -> bool {
    let first = call(rt, alloc, one.0, one.1);
    let second = call(rt, alloc, other.0, other.1);
    assert!(rt; first.fits(at.spec, &at.world) && second.fits(at.spec, &at.world));
    let found = post2_has(
        at.spec,
        &at.world,
        &at.state,
        &first,
        &second,
        0,
        &[element],
    );
    drop(first);
    drop(second);
    found
}

const SWAP_BOTH: CallOutline = (0, &[]);

/// The first counter as it is read after one swap and after two, and both counters once the swap is made.
fn swapped_in(rt: &impl Abort, alloc: Global, at: &mut Setting) -> [i128; 4] {
    let once = count(rt, alloc, at, SWAP_BOTH, 0, &[]);
    let twice = count_after_both(rt, alloc, at, SWAP_BOTH, 0, &[]);
    at.make(rt, alloc, 0, &[]);
    [once, twice, at.count(0, &[]), at.count(1, &[])]
}

/// The same of the first setting.
fn swapped(rt: &impl Abort, alloc: Global) -> [i128; 4] {
    let reading = read(rt, alloc, swap());
    let mut at = first_setting(rt, alloc, spec_of(rt, &reading), &[]);
    let found = swapped_in(rt, alloc, &mut at);
    drop(at);
    reading.let_go();
    found
}

#[test]
fn both_updates_of_a_swap_read_the_old_state(rt: HostRuntime) {
    let found = swapped(&rt, rt.alloc());
    assert!(rt; found == [2, 1, 2, 1]);
}

const PUT: CallOutline = (0, &[1]);

const TAKE: CallOutline = (1, &[1]);

/// Whether element 1 and element 0 are there after 1 is put, and 1 after it is put and taken, and after it is taken and put.
fn put_and_taken_in(rt: &impl Abort, alloc: Global, set: &Setting) -> [bool; 4] {
    [
        has(rt, alloc, set, PUT, 1),
        has(rt, alloc, set, PUT, 0),
        has_after_both(rt, alloc, set, PUT, TAKE, 1),
        has_after_both(rt, alloc, set, TAKE, PUT, 1),
    ]
}

/// The same of a set of two elements.
fn put_and_taken(rt: &impl Abort, alloc: Global) -> [bool; 4] {
    let reading = read(rt, alloc, set());
    let set = first_setting(rt, alloc, spec_of(rt, &reading), &[2]);
    let found = put_and_taken_in(rt, alloc, &set);
    drop(set);
    reading.let_go();
    found
}

#[test]
fn an_element_that_is_put_is_there_until_it_is_dropped(rt: HostRuntime) {
    let found = put_and_taken(&rt, rt.alloc());
    assert!(rt; found == [true, false, false, true]);
}

/// Whether the lamp of room 0, lit before a night, is lit after it, and the hours of both rooms.
fn after_night_in(
    rt: &impl Abort,
    alloc: Global,
    lamps: &mut Setting,
    night: CallOutline,
) -> (bool, [i128; 2]) {
    lamps.set_has(rt, 0, &[0], true);
    let lit = has(rt, alloc, lamps, night, 0);
    let hours = [
        count(rt, alloc, lamps, night, 0, &[0]),
        count(rt, alloc, lamps, night, 0, &[1]),
    ];
    (lit, hours)
}

/// The same of two rooms.
fn after_night(rt: &impl Abort, alloc: Global, night: CallOutline) -> (bool, [i128; 2]) {
    let reading = read(rt, alloc, lamps());
    let mut lamps = first_setting(rt, alloc, spec_of(rt, &reading), &[2]);
    let found = after_night_in(rt, alloc, &mut lamps, night);
    drop(lamps);
    reading.let_go();
    found
}

#[test]
fn a_guarded_update_of_every_room_reads_the_old_state(rt: HostRuntime) {
    let from_lit = after_night(&rt, rt.alloc(), (0, &[0]));
    let from_dark = after_night(&rt, rt.alloc(), (0, &[1]));
    assert!(rt; !from_lit.0 && from_lit.1 == [1, 1]);
    assert!(rt; from_dark.0 && from_dark.1 == [0, 0]);
}

/// With what a deposit of 1 is refused where the balance is the greatest of the range.
fn refused_beyond_in(rt: &impl Abort, alloc: Global, accounts: &mut Setting) -> Option<[i128; 3]> {
    accounts.make(rt, alloc, 0, &[0, 1_000_000_000_000_000]);
    refused(rt, alloc, accounts, (0, &[0, 1]))
}

/// The same of one account.
fn refused_beyond(rt: &impl Abort, alloc: Global) -> Option<[i128; 3]> {
    let reading = read(rt, alloc, deposits());
    let mut accounts = first_setting(rt, alloc, spec_of(rt, &reading), &[1]);
    let found = refused_beyond_in(rt, alloc, &mut accounts);
    drop(accounts);
    reading.let_go();
    found
}

#[test]
fn a_deposit_beyond_the_range_is_refused_with_its_value(rt: HostRuntime) {
    let found = refused_beyond(&rt, rt.alloc());
    assert!(rt; found == Some([0, 0, 1_000_000_000_000_001]));
}
