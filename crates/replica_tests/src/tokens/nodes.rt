// What a single node answers, with no network around it.

ghost use Rattle.std.specs.Prelude.{◌≡◌, true};
ghost use Rattle.spec_core.specs.Fits.{world_fits};
ghost use Rattle.token_core.specs.Held.{waiting_fits, message_fits};

use crate::specifications::{read, spec_of};
use crate::tokens::examples::purses;
use crate::tokens::setting::items;
use items::{Items, SharedList};
use spec_core::{Call, Spec, World};
use std::alloc::Global;
use std::process::Abort;
use token_core::{Node, Plain};
use token_protocol::{Begun, EventId, Heard, Message, NodeRefused, WhyVoid};

/// The replica and the turn of an id.
type Id = (u32, u32);

/// What the node gets: a call, by its operation and its arguments, or a message.
#[derive(Clone, Copy, Debug)]
enum Gets {
    Call(u8, &'static [i64]),
    Grant(Id, &'static [Id]),
    Done(Id, &'static [i64], &'static [Id]),
    Void(Id),
}

/// What the node answers.
#[derive(Clone, Copy, Debug, PartialEq)]
enum Says {
    Asked(Id),
    Ran,
    VoidRequires(u32),
    VoidRange(i128),
    Awaits(Id),
    Took,
    Noted,
    Old,
    Arguments,
    Waiting(Id),
    Range(i128),
    Else,
}

/// Accounts: operation 0 deposits, 1 withdraws. The node is that of replica 1, and each Done is that of a deposit.
static TABLE: &[(Gets, Says)] = &[
    (Gets::Call(0, &[0]), Says::Arguments),
    (Gets::Call(0, &[0, 40]), Says::Ran),
    (Gets::Call(1, &[0, 50]), Says::Asked((1, 1))),
    (Gets::Call(0, &[1, 1]), Says::Arguments),
    (Gets::Call(0, &[0, 1]), Says::Waiting((1, 1))),
    (Gets::Grant((1, 0), &[]), Says::Old),
    (Gets::Done((0, 1), &[0, 7], &[(0, 0)]), Says::Awaits((0, 0))),
    (
        Gets::Grant((1, 1), &[(1, 0), (0, 0), (0, 2)]),
        Says::Awaits((0, 0)),
    ),
    (Gets::Done((0, 0), &[0, 20], &[]), Says::Took),
    (Gets::Done((0, 0), &[0, 20], &[]), Says::Old),
    (Gets::Done((0, 1), &[0, 7], &[(0, 0)]), Says::Took),
    (
        Gets::Grant((1, 1), &[(1, 0), (0, 0), (0, 2)]),
        Says::Awaits((0, 2)),
    ),
    (Gets::Void((0, 2)), Says::Noted),
    (Gets::Void((0, 2)), Says::Old),
    (Gets::Grant((1, 1), &[(1, 0), (0, 0), (0, 2)]), Says::Ran),
    (Gets::Grant((1, 1), &[]), Says::Old),
    (Gets::Call(1, &[0, 18]), Says::Asked((1, 2))),
    (Gets::Grant((1, 2), &[]), Says::VoidRequires(2)),
    (
        Gets::Call(0, &[0, 1000000000000000]),
        Says::VoidRange(1000000000000017),
    ),
    (
        Gets::Done((0, 3), &[0, 1000000000000000], &[]),
        Says::Range(1000000000000017),
    ),
];

fn pair(id: EventId) -> Id {
    (id.replica, id.turn)
}

fn id(pair: Id) -> EventId {
    EventId {
        replica: pair.0,
        turn: pair.1,
    }
}

fn why_void(why: &WhyVoid) -> Says {
    match why {
        WhyVoid::Precondition { line } => Says::VoidRequires(*line),
        WhyVoid::Range { value, .. } => Says::VoidRange(*value),
        _ => Says::Else,
    }
}

fn refused(why: &NodeRefused) -> Says {
    match why {
        NodeRefused::Arguments => Says::Arguments,
        NodeRefused::Waiting { id } => Says::Waiting(pair(*id)),
        NodeRefused::Range { value, .. } => Says::Range(*value),
        NodeRefused::Memory => Says::Else,
    }
}

fn begun(answer: &Result<Begun, NodeRefused>) -> Says {
    match answer {
        Ok(Begun::Asked(request)) => Says::Asked(pair(request.id)),
        Ok(Begun::Ran(_)) => Says::Ran,
        Ok(Begun::Void(why, _)) => why_void(why),
        Err(why) => refused(why),
    }
}

fn heard(answer: &Result<Heard, NodeRefused>) -> Says {
    match answer {
        Ok(Heard::Ran(_)) => Says::Ran,
        Ok(Heard::Void(why, _)) => why_void(why),
        Ok(Heard::Awaits(id)) => Says::Awaits(pair(*id)),
        Ok(Heard::Took) => Says::Took,
        Ok(Heard::Noted) => Says::Noted,
        Ok(Heard::Old) => Says::Old,
        Err(why) => refused(why),
    }
}

fn ids(rt: &impl Abort, alloc: Global, pairs: &[Id]) -> SharedList<EventId> {
    let mut ids = SharedList::new(alloc);
    for pair in pairs {
        ids.push(id(*pair)).expect(rt, "memory");
    }
    ids
}

fn call(rt: &impl Abort, alloc: Global, op: u8, args: &[i64]) -> Call {
    Call {
        op,
        args: items(rt, alloc, args),
    }
}

/// Whether the call that waits at a node, if one does, has the arguments of its operation.
fn waits_well(node: &Node, spec: &Spec, world: &World) -> bool
    ensures { result ≡ waiting_fits spec.now world.now node.now.waiting }
{
    match node.waiting() {
        Some(request) => request.call.fits(spec, world),
        None => true,
    }
}

/// Whether the call of a Done has the arguments of its operation.
fn tells_well(message: &Message, spec: &Spec, world: &World) -> bool
    ensures { result ≡ message_fits spec.now world.now message.now }
{
    match message {
        Message::Grant { .. } => true,
        Message::Done { call, .. } => call.fits(spec, world),
        Message::Void { .. } => true,
    }
}

/// The node makes a call.
fn begin(
    rt: &impl Abort,
    alloc: Global,
    spec: &Spec,
    world: &World,
    node: &mut Node,
    call: Call,
) -> Says
    requires { world_fits spec.now world.now ≡ true }
{
    assert!(rt; node.turn() < 4000000000 && node.state().fits(spec, world));
    let runner = Plain::new(alloc, spec, world);
    let answer = node.begin(&runner, &call);
    drop(call);
    let says = begun(&answer);
    drop(answer);
    says
}

/// The node gets a message.
fn hear(
    rt: &impl Abort,
    alloc: Global,
    spec: &Spec,
    world: &World,
    node: &mut Node,
    message: Message,
) -> Says
    requires { world_fits spec.now world.now ≡ true }
{
    assert!(rt; node.state().fits(spec, world) && waits_well(node, spec, world));
    assert!(rt; tells_well(&message, spec, world));
    let runner = Plain::new(alloc, spec, world);
    let answer = node.hear(&runner, &message);
    drop(message);
    let says = heard(&answer);
    drop(answer);
    says
}

fn grant(rt: &impl Abort, alloc: Global, of: Id, after: &[Id]) -> Message {
    Message::Grant {
        id: id(of),
        after: ids(rt, alloc, after),
    }
}

fn done(rt: &impl Abort, alloc: Global, of: Id, args: &[i64], seen: &[Id]) -> Message {
    let call = call(rt, alloc, 0, args);
    Message::Done {
        id: id(of),
        call,
        seen: ids(rt, alloc, seen),
    }
}

fn answer(
    rt: &impl Abort,
    alloc: Global,
    spec: &Spec,
    world: &World,
    node: &mut Node,
    gets: Gets,
) -> Says
    requires { world_fits spec.now world.now ≡ true }
{
    match gets {
        Gets::Call(op, args) => begin(rt, alloc, spec, world, node, call(rt, alloc, op, args)),
        Gets::Grant(of, after) => hear(rt, alloc, spec, world, node, grant(rt, alloc, of, after)),
        Gets::Done(of, args, seen) => {
            hear(
                rt,
                alloc,
                spec,
                world,
                node,
                done(rt, alloc, of, args, seen),
            )
        }
        Gets::Void(of) => hear(rt, alloc, spec, world, node, Message::Void { id: id(of) }),
    }
}

fn go(rt: &impl Abort, alloc: Global, spec: &Spec, world: &World)
    requires { world_fits spec.now world.now ≡ true }
{
    let runner = Plain::new(alloc, spec, world);
    let mut node = Node::new(alloc, &runner, 1).expect(rt, "memory");
    for (gets, says) in TABLE {
        let said = answer(rt, alloc, spec, world, &mut node, *gets);
        assert!(rt; said == *says, "{gets:?} is to be answered by {says:?}");
    }
    let (turn, value) = (node.turn(), node.state().count(0, &[0]));
    drop(node);
    assert!(rt; turn == 4 && value == 17);
}

#[test]
fn a_node_answers_calls_and_messages(rt: HostRuntime) {
    let alloc = rt.alloc();
    let reading = read(&rt, alloc, purses());
    let spec = spec_of(&rt, &reading);
    let world = World {
        sizes: items(&rt, alloc, &[1]),
        consts: Items::new(alloc),
    };
    assert!(&rt; world.fits(spec));
    go(&rt, alloc, spec, &world);
    drop(world);
    reading.let_go();
}
