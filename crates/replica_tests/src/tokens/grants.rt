// What the manager answers to requests, one after the other.

use crate::specifications::{read, spec_of};
use crate::tokens::examples::purses;
use crate::tokens::setting::{is_id, items};
use spec_core::{Call, Spec, World};
use std::alloc::Global;
use std::process::Abort;
use token_core::Manager;
use token_protocol::{EventId, Message, Request};

/// A request: the replica and the turn of its id, and the account from which it withdraws; and the calls that the grant is to name.
type Asked = (u32, u32, i64, &'static [(u32, u32)]);

static REQUESTS: &[Asked] = &[
    (0, 0, 0, &[]),
    (1, 0, 0, &[(0, 0)]),
    (2, 0, 1, &[]),
    // in the order granted
    (2, 1, 0, &[(0, 0), (1, 0)]),
    // the first ones again
    (0, 0, 0, &[]),
    (1, 0, 0, &[(0, 0)]),
    (3, 5, 1, &[(2, 0)]),
];

fn are_ids(ids: &[EventId], wanted: &[(u32, u32)]) -> bool {
    for (place, id) in ids.iter().enumerate() {
        let Some(want) = wanted.get(place) else {
            return false;
        };
        if !is_id(*id, want.0, want.1) {
            return false;
        }
    }
    ids.len() == wanted.len()
}

fn is_grant(message: &Message, replica: u32, turn: u32, wanted: &[(u32, u32)]) -> bool {
    match message {
        Message::Grant { id, after } => {
            let Ok(after) = after.to_items() else {
                return false;
            };
            let so = is_id(*id, replica, turn) && are_ids(after.as_slice(), wanted);
            drop(after);
            so
        }
        _ => false,
    }
}

fn request(rt: &impl Abort, alloc: Global, replica: u32, turn: u32, account: i64) -> Request {
    Request {
        id: EventId { replica, turn },
        call: Call {
            op: 1,
            args: items(rt, alloc, &[account, 1]),
        },
    }
}

/// Whether the manager grants a request as it is to.
fn is_granted(
    rt: &impl Abort,
    alloc: Global,
    spec: &Spec,
    world: &World,
    manager: &mut Manager,
    asked: &Asked,
) -> bool {
    let (replica, turn, account, wanted) = asked;
    let request = request(rt, alloc, *replica, *turn, *account);
    let message = manager.ask(spec, world, &request);
    drop(request);
    let message = message.expect(rt, "memory");
    let so = is_grant(&message, *replica, *turn, wanted);
    drop(message);
    so
}

fn check_requests(rt: &impl Abort, alloc: Global, spec: &Spec, world: &World) {
    let mut manager = Manager::new(alloc);
    for asked in REQUESTS {
        let so = is_granted(rt, alloc, spec, world, &mut manager, asked);
        assert!(rt; so, "the grant of {} {}", asked.0, asked.1);
    }
    drop(manager);
}

#[test]
fn the_manager_names_what_was_granted_before(rt: HostRuntime) {
    let alloc = rt.alloc();
    let reading = read(&rt, alloc, purses());
    let spec = spec_of(&rt, &reading);
    let world = World {
        sizes: items(&rt, alloc, &[2]),
        consts: items(&rt, alloc, &[]),
    };
    check_requests(&rt, alloc, spec, &world);
    drop(world);
    reading.let_go();
}
