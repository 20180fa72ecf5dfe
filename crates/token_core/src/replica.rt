// A replica of a network, and its steps.

ghost use Rattle.std.specs.Prelude.{◌≡◌, ℕ, ◌<◌, ◌⊎◌, true, [], ◌∷◌, ◌++◌, ◌^◌, Option, Some, Err};
ghost use Rattle.std.specs.Prelude.{List, bytes_eq, length, set, slice_get, vec_len, vec_capacity};
ghost use Rattle.std.specs.{Prelude.{IfOk, OnOk, OnErr}, Option.{option_map}};
ghost use Rattle.token_protocol.specs.declared.message.Request.{Request as Waiting};
ghost use Rattle.token_protocol.specs.declared.message.Message.{Message as Sent};
ghost use Rattle.token_protocol.specs.{declared.granted.Granted.{Granted}, Node.{begin}};
ghost use Rattle.token_protocol.specs.Network.{Replica as ReplicaOf, number_of as number_of_call};
ghost use Rattle.token_protocol.specs.Network.{node_refused, begin_at, hears_message, asks};
ghost use Rattle.token_protocol.specs.Network.{network_after, answer};
ghost use Rattle.token_core.specs.Log.{lists_of, HasRoom};
ghost use Rattle.token_core.specs.Held.{node_of, FitsIn, waiting_fits, message_fits};
ghost use Rattle.token_core.specs.Left.{left_of, id_of, event_of, event_for, after_ran, after_void};
ghost use Rattle.token_core.specs.Left.{after_begun, IsAfterHeard, IsPrepared};
ghost use Rattle.token_core.specs.Fields.{network_with, held_replica, replica_at};
ghost use Rattle.token_manager.specs.Grants.{AreGrants};

use crate::log::{CallEvent, Happened, Log, make_room, number_of, put};
use crate::node::Node;
use items::SharedList;
use replica_replay::Runner;
use spec_core::Call;
use spec_states::State;
use std::alloc::{AllocError, Global};
use token_manager::{Manager, copy_call};
use token_protocol::{Begun, EventId, Heard, Message, NetDid, NetRefused, NodeRefused, WhyVoid};

/// The turns of a replica are fewer.
const MOST_TURNS: u32 = 4000000000;

/// A replica: its node, and the numbers of the events that it has taken, in that order.
#[derive(Drop)]
pub struct Replica {
    pub node: Node,
    pub taken: Vec<u32>,
    /// The first of these numbers, as a list of which its events have copies. It is brought up to date when an event needs it, and
    /// compared with the numbers then.
    pub front: SharedList<u32>,
    /// A state beside that of the node, over which its next effect is written.
    pub spare: Option<State>,
}

fn are_same(one: &[u32], other: &[u32]) -> bool
    ensures { result ≡ bytes_eq one.now other.now }
{
    one == other
}

// The list of the numbers that a replica has taken. Its copies share most of it.
fn list_of(
    alloc: Global,
    front: &mut SharedList<u32>,
    taken: &[u32],
) -> Result<SharedList<u32>, AllocError>
    ensures { IfOk result (λ list. list ≡ taken.now) }
{
    let mut known = front.to_items()?;
    for number in known.len()..taken.len() {
        front.push(taken[number])?;
        known.push(taken[number])?;
    }
    if !are_same(known.as_slice(), taken) {
        return SharedList::from_slice(alloc, taken);
    }
    front.share()
}

/// The id of the call of which a message tells.
pub fn id_of(message: &Message) -> EventId
    ensures { result ≡ id_of message.now }
{
    match message {
        Message::Grant { id, .. } => *id,
        Message::Done { id, .. } => *id,
        Message::Void { id } => *id,
    }
}

/// The event of a call at a replica that has taken these.
fn event_of(
    alloc: Global,
    call: &Call,
    front: &mut SharedList<u32>,
    taken: &[u32],
) -> Result<CallEvent, AllocError>
    ensures { IfOk result (λ event. event ≡ event_of call.now taken.now) }
{
    let seen = list_of(alloc, front, taken)?;
    let call = copy_call(alloc, call)?;
    Ok(CallEvent { call, seen })
}

// The event of a node's waiting call, if one waits.
fn waiting_event(
    alloc: Global,
    node: &Node,
    front: &mut SharedList<u32>,
    taken: &[u32],
) -> Result<Option<CallEvent>, AllocError>
    ensures { IfOk result
        (λ event. event ≡ option_map (λ (q : Waiting). event_of q.call taken.now)
        node.now.waiting) }
{
    match node.waiting() {
        Some(waiting) => {
            let event = event_of(alloc, &waiting.call, front, taken)?;
            Ok(Some(event))
        }
        None => Ok(None),
    }
}

// The event that a message may bring about: only a Grant lets the waiting call run.
fn event_for(
    alloc: Global,
    node: &Node,
    front: &mut SharedList<u32>,
    taken: &[u32],
    sent: &Message,
) -> Result<Option<CallEvent>, AllocError>
    ensures { IfOk result (λ event. event ≡ event_for taken.now node.now.waiting sent.now) }
{
    match sent {
        Message::Grant { .. } => waiting_event(alloc, node, front, taken),
        Message::Done { .. } => Ok(None),
        Message::Void { .. } => Ok(None),
    }
}

// A call was run: its Done is sent, and its event is the next one.
fn keep_ran(log: &mut Log, taken: &mut Vec<u32>, event: CallEvent, done: Message) -> NetDid
    requires room { HasRoom log.old }
    requires place { vec_len taken.old < vec_capacity taken.old }
    ensures { left_of result log.new taken.new.items
        ≡ after_ran (lists_of log.old) taken.old.items event done }
{
    let id = id_of(&done);
    let number = log.happened.len() as u32;
    put(&mut log.messages, done);
    put(&mut log.happened, Happened { id, event });
    put(taken, number);
    NetDid::Ran { event: number }
}

// A call is void, which is sent.
fn keep_void(log: &mut Log, why: WhyVoid, told: Message) -> NetDid
    requires room { HasRoom log.old }
    ensures { (taken : List ℕ) → left_of result log.new taken
        ≡ after_void (lists_of log.old) taken why told }
{
    let number = log.messages.len() as u32;
    put(&mut log.messages, told);
    NetDid::Void {
        why,
        message: number,
    }
}

// Keeps what a node answered to a call.
fn keep_begun(log: &mut Log, taken: &mut Vec<u32>, event: CallEvent, begun: Begun) -> NetDid
    requires room { HasRoom log.old }
    requires place { vec_len taken.old < vec_capacity taken.old }
    ensures { left_of result log.new taken.new.items
        ≡ after_begun (lists_of log.old) taken.old.items event begun }
{
    match begun {
        Begun::Asked(request) => {
            let number = log.requests.len() as u32;
            put(&mut log.requests, request);
            NetDid::Asked { request: number }
        }
        Begun::Ran(done) => keep_ran(log, taken, event, done),
        Begun::Void(why, told) => keep_void(log, why, told),
    }
}

// A replica takes the event of a call.
fn keep_took(happened: &[Happened], taken: &mut Vec<u32>, id: EventId) -> NetDid
    requires few { length happened.now < 2 ^ 32 }
    requires place { vec_len taken.old < vec_capacity taken.old }
    ensures did { result ≡ NetDid.Took (number_of_call happened.now id) }
    ensures taken { taken.new.items ≡ taken.old.items ++ number_of_call happened.now id ∷ [] }
{
    let number = number_of(happened, id) as u32;
    put(taken, number);
    NetDid::Took { event: number }
}

// Keeps what a node answered to a message that tells of this call.
fn keep_heard(
    log: &mut Log,
    taken: &mut Vec<u32>,
    id: EventId,
    event: Option<CallEvent>,
    heard: Heard,
) -> NetDid
    requires room { HasRoom log.old }
    requires place { vec_len taken.old < vec_capacity taken.old }
    requires prepared { IsPrepared event heard }
    ensures { IsAfterHeard (lists_of log.old) taken.old.items id event heard
        (left_of result log.new taken.new.items) }
{
    match heard {
        Heard::Ran(done) => {
            let Some(event) = event else { unreachable!() };
            keep_ran(log, taken, event, done)
        }
        Heard::Void(why, told) => keep_void(log, why, told),
        Heard::Awaits(id) => NetDid::Awaits { id },
        Heard::Took => keep_took(&log.happened, taken, id),
        Heard::Noted => NetDid::Noted,
        Heard::Old => NetDid::Old,
    }
}

// A node's refusal is the network's.
fn refused(why: NodeRefused) -> NetRefused
    ensures { result ≡ node_refused why }
{
    match why {
        NodeRefused::Arguments => NetRefused::Arguments,
        NodeRefused::Waiting { id } => NetRefused::Waiting { id },
        NodeRefused::Range {
            counter,
            key,
            value,
        } => NetRefused::Range {
            counter,
            key,
            value,
        },
        NodeRefused::Memory => NetRefused::Memory,
    }
}

/// A replica makes a call.
pub fn begin_at<R: Runner>(
    alloc: Global,
    runner: &R,
    log: &mut Log,
    at: &mut Replica,
    call: &Call,
) -> Result<NetDid, NetRefused>
    requires fits { FitsIn (R.specification runner.now) (R.setting runner.now) at.old.node.state
        at.old.spare }
    ensures answer { (replicas : List ReplicaOf) (granted : List Granted) (r : ℕ)
        → (result ≡ Err NetRefused.Memory)
        ⊎ (result
        ≡ answer (begin_at (network_with replicas granted (lists_of log.old)) r (replica_at at.old)
        (begin (R.specification runner.now) (R.setting runner.now)
        (node_of at.old.node) call.now))) }
    ensures ok { (replicas : List ReplicaOf) (granted : List Granted) (r : ℕ)
        → slice_get replicas r ≡ Some (replica_at at.old)
        → OnOk result
        (network_with (set replicas r (replica_at at.new)) granted (lists_of log.new)
        ≡ network_after (network_with replicas granted (lists_of log.old))
        (begin_at (network_with replicas granted (lists_of log.old)) r (replica_at at.old)
        (begin (R.specification runner.now) (R.setting runner.now)
        (node_of at.old.node) call.now))) }
    ensures fits { FitsIn (R.specification runner.now) (R.setting runner.now) at.new.node.state
        at.new.spare }
    ensures err { OnErr result
        ((held_replica at.new ≡ held_replica at.old) × (lists_of log.new ≡ lists_of log.old)) }
{
    if at.node.turn() >= MOST_TURNS {
        return Err(NetRefused::Memory);
    }
    log.make_room()?;
    make_room(&mut at.taken)?;
    let event = event_of(alloc, call, &mut at.front, at.taken.as_slice())?;
    match at.node.begin_over(runner, &mut at.spare, call) {
        Ok(begun) => Ok(keep_begun(log, &mut at.taken, event, begun)),
        Err(why) => Err(refused(why)),
    }
}

/// A replica gets the message of this number.
pub fn hear_at<R: Runner>(
    alloc: Global,
    runner: &R,
    log: &mut Log,
    at: &mut Replica,
    message: u32,
) -> Result<NetDid, NetRefused>
    requires fits { FitsIn (R.specification runner.now) (R.setting runner.now) at.old.node.state
        at.old.spare }
    requires waiting { waiting_fits (R.specification runner.now) (R.setting runner.now)
        at.old.node.waiting ≡ true }
    requires message { (m : Sent) → slice_get log.old.messages.items message ≡ Some m
        → message_fits (R.specification runner.now) (R.setting runner.now) m ≡ true }
    ensures answer { (replicas : List ReplicaOf) (granted : List Granted) (r : ℕ)
        → slice_get replicas r ≡ Some (replica_at at.old)
        → (result ≡ Err NetRefused.Memory)
        ⊎ (result
        ≡ answer (hears_message (R.specification runner.now) (R.setting runner.now)
        (network_with replicas granted (lists_of log.old)) r (replica_at at.old)
        (slice_get log.old.messages.items message))) }
    ensures ok { (replicas : List ReplicaOf) (granted : List Granted) (r : ℕ)
        → slice_get replicas r ≡ Some (replica_at at.old)
        → OnOk result
        (network_with (set replicas r (replica_at at.new)) granted (lists_of log.new)
        ≡ network_after (network_with replicas granted (lists_of log.old))
        (hears_message (R.specification runner.now) (R.setting runner.now)
        (network_with replicas granted (lists_of log.old)) r (replica_at at.old)
        (slice_get log.old.messages.items message))) }
    ensures fits { FitsIn (R.specification runner.now) (R.setting runner.now) at.new.node.state
        at.new.spare }
    ensures err { OnErr result
        ((held_replica at.new ≡ held_replica at.old) × (lists_of log.new ≡ lists_of log.old)) }
{
    if message as usize >= log.messages.len() {
        return Err(NetRefused::NoMessage);
    }
    log.make_room()?;
    make_room(&mut at.taken)?;
    let sent = &log.messages[message as usize];
    let event = event_for(alloc, &at.node, &mut at.front, at.taken.as_slice(), sent)?;
    let id = id_of(sent);
    match at.node.hear_over(runner, &mut at.spare, sent) {
        Ok(heard) => Ok(keep_heard(log, &mut at.taken, id, event, heard)),
        Err(why) => Err(refused(why)),
    }
}

/// The manager gets the request of this number, and what it answers is sent.
pub fn ask_at<R: Runner>(
    runner: &R,
    manager: &mut Manager,
    log: &mut Log,
    request: u32,
) -> Result<NetDid, NetRefused>
    requires { AreGrants (R.specification runner.now) (R.setting runner.now) manager.old }
    ensures answer { (replicas : List ReplicaOf)
        → (result ≡ Err NetRefused.Memory)
        ⊎ (result
        ≡ answer (asks (R.specification runner.now) (R.setting runner.now)
        (network_with replicas manager.old (lists_of log.old))
        (slice_get log.old.requests.items request))) }
    ensures ok { (replicas : List ReplicaOf)
        → OnOk result
        (network_with replicas manager.new (lists_of log.new)
        ≡ network_after (network_with replicas manager.old (lists_of log.old))
        (asks (R.specification runner.now) (R.setting runner.now)
        (network_with replicas manager.old (lists_of log.old))
        (slice_get log.old.requests.items request))) }
    ensures err { OnErr result
        ((manager.new ≡ manager.old) × (lists_of log.new ≡ lists_of log.old)) }
{
    if request as usize >= log.requests.len() {
        return Err(NetRefused::NoMessage);
    }
    log.make_room()?;
    let asked = &log.requests[request as usize];
    let message = manager.ask_by_tokens(runner.spec(), runner.world(), asked)?;
    let number = log.messages.len() as u32;
    put(&mut log.messages, message);
    Ok(NetDid::Granted { message: number })
}
