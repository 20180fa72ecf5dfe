// Worked examples of delivery orders and of the states after them.

ghost use Rattle.std.specs.{Prelude.{◌≡◌, ◌<◌, ◌↔◌, IsTrue, All}, List.{list_all}};
ghost use Rattle.spec_core.specs.Fits.{call_fits};

use crate::examples::deposits;
use crate::setting::{Setting, call, first_setting, items, read, spec_of};
use effectors::ApplyRefused;
use executions::{Event, is_order, law_closed_sets, may_follow, state_after};
use items::Items;
use spec_core::{Spec, World};
use spec_states::State;
use std::alloc::Global;
use std::process::Abort;

/// The arguments of the first operation, and the events that its replica had taken.
type EventOutline = (&'static [i64], &'static [u32]);

/// An order, and whether it is one.
type Case = (&'static [u32], bool);

/// Events of the first operation.
fn events(rt: &impl Abort, alloc: Global, outlines: &[EventOutline]) -> Items<Event> {
    let mut list = Items::new(alloc);
    for (args, seen) in outlines {
        let event = Event {
            call: call(rt, alloc, 0, args),
            seen: items(rt, alloc, seen),
        };
        list.push(event).expect(rt, "memory");
    }
    list
}

/// The second has seen the first.
static THREE_EVENTS: &[EventOutline] = &[(&[], &[]), (&[], &[0]), (&[], &[])];

static ORDER_CASES: &[Case] = &[
    (&[], true),
    (&[0, 1, 2], true),
    (&[2, 0, 1], true),
    (&[2], true),
    (&[1], false),
    (&[1, 0], false),
    (&[0, 0], false),
    (&[3], false),
];

fn orders() -> &'static [Case] {
    ORDER_CASES
}

fn check_orders(rt: &impl Abort, events: &[Event]) {
    law_closed_sets();
    for (order, want) in orders() {
        assert!(rt; is_order(events, order) == *want, "at {order:?}");
    }
}

/// Whether the second event may follow where the first is taken, and where it isn't.
fn second_may_follow(rt: &impl Abort, alloc: Global) -> [bool; 2] {
    let events = events(rt, alloc, THREE_EVENTS);
    check_orders(rt, events.as_slice());
    let found = [
        may_follow(events.as_slice(), &[2, 0], 1),
        may_follow(events.as_slice(), &[2], 1),
    ];
    drop(events);
    found
}

#[test]
fn an_order_holds_each_event_once_after_what_it_has_seen(rt: HostRuntime) {
    let found = second_may_follow(&rt, rt.alloc());
    assert!(rt; found == [true, false]);
}

fn all_fit(spec: &Spec, world: &World, events: &[Event]) -> bool
    ensures { result ≡ list_all (λ event. call_fits spec.now world.now event.call) events.now }
{
    events.iter().all(|event| event.call.fits(spec, world))
}

fn all_within(order: &[u32], count: usize) -> bool
    ensures { IsTrue result ↔ All (λ event. event < count) order.now }
{
    order.iter().all(|event| (*event as usize) < count)
}

/// The balances of two accounts in a state that a run left; what isn't in range is told by its value.
fn balances_in(rt: &impl Abort, run: &Result<State, ApplyRefused>) -> [i128; 2] {
    match run {
        Ok(state) => [state.count(0, &[0]), state.count(0, &[1])],
        Err(ApplyRefused::Range { value, .. }) => [*value, -1],
        Err(ApplyRefused::Memory) => panic!(rt; "memory"),
    }
}

/// The balances after an order.
fn balances(
    rt: &impl Abort,
    alloc: Global,
    at: &Setting,
    events: &[Event],
    order: &[u32],
) -> [i128; 2] {
    assert!(rt; all_fit(at.spec, &at.world, events) && all_within(order, events.len()));
    let run = state_after(alloc, at.spec, &at.world, events, order);
    let found = balances_in(rt, &run);
    drop(run);
    found
}

/// The third deposit is made where both others are seen.
static THREE_DEPOSITS: &[EventOutline] = &[
    (&[0, 5], &[]),
    (&[1, 7], &[]),
    (&[0, 1_000_000_000_000_000], &[0, 1]),
];

static BALANCES: &[(&[u32], [i128; 2])] = &[
    (&[], [0, 0]),
    (&[0, 1], [5, 7]),
    (&[1, 0], [5, 7]),
    (&[0, 1, 2], [1_000_000_000_000_005, -1]),
];

fn check_balances(rt: &impl Abort, alloc: Global, at: &Setting, events: &[Event]) {
    for (order, want) in BALANCES {
        let is = is_order(events, order);
        let found = balances(rt, alloc, at, events, order);
        assert!(rt; is && found == *want, "at {order:?}");
    }
}

fn check_deposits(rt: &impl Abort, alloc: Global) {
    let reading = read(rt, alloc, deposits());
    let at = first_setting(rt, alloc, spec_of(rt, &reading), &[2]);
    let events = events(rt, alloc, THREE_DEPOSITS);
    check_balances(rt, alloc, &at, events.as_slice());
    drop(events);
    drop(at);
    reading.let_go();
}

#[test]
fn deposits_in_either_order_give_the_same_balances(rt: HostRuntime) {
    check_deposits(&rt, rt.alloc());
}
