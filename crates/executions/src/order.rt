// Whether numbers are a delivery order. The test takes no memory: it looks back over the order at each event.

ghost use Rattle.std.specs.Prelude.{◌≡◌, ◌↔◌, IsTrue, Contains};
ghost use Rattle.executions.specs.Orders.{AreIn, MayFollow, IsOrder};

use crate::event::Event;

/// Whether the numbers are a delivery order of these events: distinct, each an event, and each after all that it has seen.
pub fn is_order(events: &[Event], order: &[u32]) -> bool
    ensures { IsTrue result ↔ IsOrder events.now order.now }
{
    for (i, event) in order.iter().enumerate() {
        if !may_follow(events, &order[..i], *event) {
            return false;
        }
    }
    true
}

/// Whether the event may be taken next, after those of the list: it exists, it isn't one of them, and all that it has seen is.
pub fn may_follow(events: &[Event], taken: &[u32], event: u32) -> bool
    ensures { IsTrue result ↔ MayFollow events.now taken.now event }
{
    match events.get(event as usize) {
        None => false,
        Some(found) => !has(taken, event) && all_in(found.seen.as_slice(), taken),
    }
}

/// Whether all the events are among those taken.
fn all_in(events: &[u32], taken: &[u32]) -> bool
    ensures { IsTrue result ↔ AreIn events.now taken.now }
{
    for event in events {
        if !has(taken, *event) {
            return false;
        }
    }
    true
}

/// Whether the event is among these.
fn has(events: &[u32], event: u32) -> bool
    ensures { IsTrue result ↔ Contains events.now event }
{
    events.contains(&event)
}
