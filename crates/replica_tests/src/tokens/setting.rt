// Networks of a specification that is a text, and tables of their steps.

ghost use Rattle.std.specs.Prelude.{◌≡◌, true};
ghost use Rattle.spec_core.specs.Fits.{world_fits};

use crate::specifications::{read, spec_of};
use items::Items;
use spec_core::{Call, Spec, World};
use std::alloc::Global;
use std::process::Abort;
use token_core::{EventId, Net, NetDid, NetRefused, NetStep, Plain, WhyVoid};

/// A step of a table: replicas, requests and messages by their numbers, a call by its operation and its arguments.
#[derive(Clone, Copy, Debug)]
pub enum Step {
    Begin(u32, u8, &'static [i64]),
    Ask(u32),
    Hear(u32, u32),
}

/// What a step is to answer: an event, a request, a message or a line by its number, an id by its replica and its turn.
#[derive(Clone, Copy, Debug)]
pub enum Want {
    Ran(u32),
    VoidRequires(u32, u32),
    VoidObserves(u32, u32),
    VoidRange(i128, u32),
    Asked(u32),
    Granted(u32),
    Took(u32),
    Awaits(u32, u32),
    Noted,
    Old,
    NoReplica,
    NoMessage,
    Arguments,
    Waiting(u32, u32),
    Range(i128),
}

/// Whether an id has this replica and turn.
pub fn is_id(id: EventId, replica: u32, turn: u32) -> bool {
    id.replica == replica && id.turn == turn
}

fn is_void(why: &WhyVoid, message: u32, want: Want) -> bool {
    match (why, want) {
        (WhyVoid::Precondition { line }, Want::VoidRequires(at, sent)) => {
            *line == at && message == sent
        }
        (WhyVoid::Observation { line }, Want::VoidObserves(at, sent)) => {
            *line == at && message == sent
        }
        (WhyVoid::Range { value, .. }, Want::VoidRange(beyond, sent)) => {
            *value == beyond && message == sent
        }
        _ => false,
    }
}

fn did_so(did: &NetDid, want: Want) -> bool {
    match (did, want) {
        (NetDid::Ran { event }, Want::Ran(number)) => *event == number,
        (NetDid::Void { why, message }, _) => is_void(why, *message, want),
        (NetDid::Asked { request }, Want::Asked(number)) => *request == number,
        (NetDid::Granted { message }, Want::Granted(number)) => *message == number,
        (NetDid::Took { event }, Want::Took(number)) => *event == number,
        (NetDid::Awaits { id }, Want::Awaits(replica, turn)) => is_id(*id, replica, turn),
        (NetDid::Noted, Want::Noted) => true,
        (NetDid::Old, Want::Old) => true,
        _ => false,
    }
}

fn is_refused_so(why: &NetRefused, want: Want) -> bool {
    match (why, want) {
        (NetRefused::Replica, Want::NoReplica) => true,
        (NetRefused::NoMessage, Want::NoMessage) => true,
        (NetRefused::Arguments, Want::Arguments) => true,
        (NetRefused::Waiting { id }, Want::Waiting(replica, turn)) => is_id(*id, replica, turn),
        (NetRefused::Range { value, .. }, Want::Range(beyond)) => *value == beyond,
        _ => false,
    }
}

fn answers_so(answer: &Result<NetDid, NetRefused>, want: Want) -> bool {
    match answer {
        Ok(did) => did_so(did, want),
        Err(why) => is_refused_so(why, want),
    }
}

pub fn items<T: Copy>(rt: &impl Abort, alloc: Global, list: &[T]) -> Items<T> {
    Items::from_slice(alloc, list).expect(rt, "memory")
}

fn net_step(rt: &impl Abort, alloc: Global, step: Step) -> NetStep {
    match step {
        Step::Begin(replica, op, args) => NetStep::Begin {
            replica,
            call: Call {
                op,
                args: items(rt, alloc, args),
            },
        },
        Step::Ask(request) => NetStep::Ask { request },
        Step::Hear(replica, message) => NetStep::Hear { replica, message },
    }
}

// Takes a step, and says whether it was carried out.
fn take_step(rt: &impl Abort, alloc: Global, net: &mut Net<Plain>, step: Step, want: Want) -> bool {
    let made = net_step(rt, alloc, step);
    let answer = net.step(&made);
    drop(made);
    let (so, done) = (answers_so(&answer, want), answer.is_ok());
    drop(answer);
    assert!(rt; so, "{step:?} is to answer {want:?}");
    done
}

// The first counter of a replica has this value at the first element.
fn check_value(rt: &impl Abort, net: &Net<Plain>, replica: u32, value: i128) {
    assert!(rt; (replica as usize) < net.replica_count());
    let found = net.state_of(replica).count(0, &[0]);
    assert!(rt; found == value, "replica {replica} has {found}");
}

fn go(
    rt: &impl Abort,
    alloc: Global,
    spec: &Spec,
    world: &World,
    replicas: u32,
    table: &[(Step, Want)],
    values: &[i128],
)
    requires { world_fits spec.now world.now ≡ true }
{
    let runner = Plain::new(alloc, spec, world);
    let mut net = Net::new(alloc, runner, replicas).expect(rt, "memory");
    let mut accepted = 0;
    for (step, want) in table {
        if take_step(rt, alloc, &mut net, *step, *want) {
            accepted = 1u32.saturating_add(accepted);
        }
    }
    assert!(rt;
        net.steps() == accepted,
        "{accepted} steps were carried out"
    );
    for replica in 0..replicas {
        if let Some(value) = values.get(replica as usize) {
            check_value(rt, &net, replica, *value);
        }
    }
    drop(net);
}

/// Goes through a table of steps, with so many elements of each sort. The values are those of the first counter at the first
/// element, at each replica in turn, after the last step.
pub fn check(
    rt: &impl Abort,
    alloc: Global,
    text: &[u8],
    sizes: &[u32],
    replicas: u32,
    table: &[(Step, Want)],
    values: &[i128],
) {
    let reading = read(rt, alloc, text);
    let spec = spec_of(rt, &reading);
    let world = World {
        sizes: items(rt, alloc, sizes),
        consts: Items::new(alloc),
    };
    assert!(rt; world.fits(spec));
    go(rt, alloc, spec, &world, replicas, table, values);
    drop(world);
    reading.let_go();
}
