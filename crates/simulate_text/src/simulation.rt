// A simulation, and the parts of its steps.

ghost use Rattle.std.specs.Prelude.{◌≡◌, ◌≢◌, ◌<◌, Ok, Some, length, set, slice_get, IfOk, IfSome};
ghost use Rattle.std.specs.Prelude.{OnOk};
ghost use Rattle.spec_core.specs.declared.world.World.{World as Setting};
ghost use Rattle.spec_core.specs.{Specification.{Specification}, Meaning.{broken_at}};
ghost use Rattle.token_protocol.specs.Network.{Replica, outcome, events_of};
ghost use Rattle.token_core.specs.HeldNet.{network_held};
ghost use Rattle.simulate_text.specs.Course.{refusal_of, heard_by_all, broken_of, ran, void};
ghost use Rattle.simulate_text.specs.Course.{granted, hears_grant, asks, begun, begins};
ghost use Rattle.simulate_text.specs.Course.{is_waiting, tries_again, took, taken, takes};
ghost use Rattle.simulate_text.specs.Unbroken.{IsUnbrokenAfter, AreUnbroken, StaysUnbroken};
ghost use Rattle.simulate_text.specs.{Unbroken.{IsLastCall}, Reached.{IsOf, IsFirst, IsGone, Does}};

use crate::said::{Said, SimulateRefused, Stop};
use replay_text::{invariant_broken_after, invariant_broken_at};
use spec_core::Call;
use std::alloc::{AllocError, Global};
use token_core::{Happened, Net, Runner, number_of};
use token_protocol::{NetDid, NetRefused, NetStep, WhyVoid};

/// A simulation: its network, and the numbers of the messages that it delivers again: for each event that of its Done, and for each
/// replica that of the first grant of the last call that waited there. Beside them stands for each replica after how many events its
/// state is known to break no invariant, and what the step that is carried out says so far.
#[derive(Drop)]
pub struct Simulation<R: Runner + Drop> {
    pub net: Net<R>,
    pub dones: Vec<u32>,
    pub grants: Vec<u32>,
    pub unbroken: Vec<u32>,
    pub said: Vec<Said>,
}

/// A number as one of 32 bits, where it has no more.
pub fn as_number(count: usize) -> Result<u32, AllocError>
    ensures { IfOk result (λ number. number ≡ count) }
{
    if count > u32::MAX as usize {
        return Err(AllocError);
    }
    Ok(count as u32)
}

/// The number at a place of a list.
pub fn number_at(numbers: &[u32], place: u32) -> Option<u32>
    ensures { result ≡ slice_get numbers.now place }
{
    numbers.get(place as usize).copied()
}

fn set_number(numbers: &mut Vec<u32>, place: u32, number: u32)
    ensures { numbers.new.items ≡ set numbers.old.items place number }
{
    if let Some(old) = numbers.get_mut(place as usize) {
        *old = number;
    }
}

// Why a step is refused, where it isn't for want of memory.
fn refusal_of(why: NetRefused) -> Result<SimulateRefused, AllocError>
    ensures refusal { IfOk result (λ refusal. refusal ≡ refusal_of why) }
    ensures memory { OnOk result (why ≢ NetRefused.Memory) }
{
    match why {
        NetRefused::Replica => Ok(SimulateRefused::Replica),
        NetRefused::NoMessage => Ok(SimulateRefused::NoEvent),
        NetRefused::Arguments => Ok(SimulateRefused::Arguments),
        NetRefused::Waiting { .. } => Ok(SimulateRefused::Waiting),
        NetRefused::Range {
            counter,
            key,
            value,
        } => Ok(SimulateRefused::Range {
            counter,
            key,
            value,
        }),
        NetRefused::Memory => Err(AllocError),
    }
}

// Carries a step of the network out.
fn go<R: Runner + Drop>(
    net: &mut Net<R>,
    step: &NetStep,
) -> Result<Result<NetDid, SimulateRefused>, AllocError>
    ensures gone { IfOk result
        (λ it. (d : Specification) (w : Setting) → IsOf d w net.old
        → IsGone d w (outcome d w (network_held net.old) step.now) (network_held net.old) it
        net.new) }
    ensures unbroken { OnOk result (StaysUnbroken net.old net.new) }
{
    net.is_executed();
    match net.step(step) {
        Ok(did) => Ok(Ok(did)),
        Err(why) => Ok(Err(refusal_of(why)?)),
    }
}

// All replicas in turn hear a message.
fn tell_all<R: Runner + Drop>(net: &mut Net<R>, message: u32) -> Result<(), AllocError>
    ensures told { OnOk result
        ((d : Specification) (w : Setting) → IsOf d w net.old
        → IsOf d w net.new
        × (heard_by_all d w message (network_held net.old) ≡ network_held net.new)) }
    ensures unbroken { OnOk result (StaysUnbroken net.old net.new) }
{
    let count = as_number(net.replica_count())?;
    for replica in 0..count {
        let _ = go(net, &NetStep::Hear { replica, message })?;
    }
    Ok(())
}

/// The first invariant that the state of a replica breaks. All are asked, at all elements.
pub fn broken_of<R: Runner + Drop>(net: &Net<R>, replica: u32) -> Option<usize>
    ensures { (d : Specification) (w : Setting) → IsOf d w net.now
        → result ≡ broken_of d w (slice_get (network_held net.now).replicas replica) }
{
    if replica as usize >= net.replica_count() {
        return None;
    }
    let runner = net.runner();
    invariant_broken_at(runner.spec(), runner.world(), net.state_of(replica))
}

// The call of an event.
fn call_of(happened: &Happened) -> &Call
    ensures { result.now ≡ happened.now.event.call }
{
    &happened.event.call
}

// The call of the event that a replica has taken last, where it has taken one more than so many.
fn last_call<R: Runner + Drop>(net: &Net<R>, replica: u32, count: u32) -> Option<&Call>
    requires { replica < length net.now.replicas }
    ensures { IfSome result
        (λ call. (at : Replica) → slice_get (network_held net.now).replicas replica ≡ Some at
        → IsLastCall (events_of (network_held net.now)) at.taken count call.now) }
{
    let taken = net.taken(replica);
    let count = count as usize;
    if count >= taken.len() || taken.len() - count > 1 {
        return None;
    }
    let Some(happened) = net.events().get(taken[count] as usize) else {
        return None;
    };
    Some(call_of(happened))
}

// The first invariant that the state of a replica breaks, where that after its first so many events breaks none. After one event more
// each is asked only where it reads what the event's call writes.
fn broken_after<R: Runner + Drop>(net: &Net<R>, replica: u32, count: u32) -> Option<usize>
    requires { replica < length net.now.replicas }
    ensures { (at : Replica) → slice_get (network_held net.now).replicas replica ≡ Some at
        → IsUnbrokenAfter net.now.spec net.now.world (events_of (network_held net.now)) at.taken
        count
        → result ≡ broken_at net.now.spec net.now.world at.node.state }
{
    net.is_executed();
    match last_call(net, replica, count) {
        Some(call) => {
            let runner = net.runner();
            invariant_broken_after(runner.spec(), runner.world(), net.state_of(replica), call)
        }
        None => broken_of(net, replica),
    }
}

// The first invariant that the state of a replica breaks. Where it breaks none, that is known from then on.
fn ask_invariants<R: Runner + Drop>(
    net: &Net<R>,
    unbroken: &mut Vec<u32>,
    replica: u32,
) -> Option<usize>
    ensures broken { (d : Specification) (w : Setting) → IsOf d w net.now
        → AreUnbroken net.now unbroken.old.items
        → result ≡ broken_of d w (slice_get (network_held net.now).replicas replica) }
    ensures unbroken { AreUnbroken net.now unbroken.old.items
        → AreUnbroken net.now unbroken.new.items }
{
    if replica as usize >= net.replica_count() {
        return None;
    }
    net.is_executed();
    let count = number_at(unbroken, replica).unwrap_or(0);
    match broken_after(net, replica, count) {
        Some(place) => return Some(place),
        None => {}
    }
    if let Ok(count) = as_number(net.taken(replica).len()) {
        set_number(unbroken, replica, count);
    }
    None
}

// Whether a call of a replica waits for its grant.
fn is_waiting<R: Runner + Drop>(net: &Net<R>, replica: u32) -> bool
    ensures { result ≡ is_waiting (slice_get (network_held net.now).replicas replica) }
{
    (replica as usize) < net.replica_count() && net.is_waiting(replica)
}

impl<R: Runner + Drop> Simulation<R> {
    /// A simulation of so many replicas, before its first step.
    pub fn new(alloc: Global, runner: R, replicas: u32) -> Result<Simulation<R>, AllocError>
        ensures { IfOk result
            (λ sim. IsFirst (R.specification runner) (R.setting runner) replicas sim) }
    {
        let net = Net::new(alloc, runner, replicas)?;
        let mut grants = Vec::new(alloc);
        let mut unbroken = Vec::new(alloc);
        for _i in 0..replicas {
            grants.push(0)?;
            unbroken.push(0)?;
        }
        Ok(Simulation {
            net,
            dones: Vec::new(alloc),
            grants,
            unbroken,
            said: Vec::new(alloc),
        })
    }

    // A call of a replica was run: it is this event, whose Done has this number.
    fn ran(&mut self, replica: u32, event: u32, done: u32) -> Result<Option<Stop>, AllocError>
        ensures { Does (λ d w. ran d w replica event done) self.old self.new result }
    {
        self.dones.push(done)?;
        self.said.push(Said::Call(event))?;
        match ask_invariants(&self.net, &mut self.unbroken, replica) {
            Some(place) => Ok(Some(Stop::Broken(place))),
            None => Ok(None),
        }
    }

    // A call is void, and the message that says so has this number.
    fn void(&mut self, why: WhyVoid, message: u32) -> Result<Option<Stop>, AllocError>
        ensures { Does (λ d w. void d w why message) self.old self.new result }
    {
        self.said.push(Said::Void(why))?;
        tell_all(&mut self.net, message)?;
        Ok(None)
    }

    // What a replica answers to the grant of its waiting call, before which so many messages had been sent.
    fn granted(
        &mut self,
        replica: u32,
        sent: u32,
        tells: bool,
        answer: Result<NetDid, SimulateRefused>,
    ) -> Result<Option<Stop>, AllocError>
        ensures { Does
            (λ d w. granted d w (record { replica = replica; sent = sent; tells = tells }) answer)
            self.old self.new result }
    {
        match answer {
            Err(why) => Ok(Some(Stop::Refused(why))),
            Ok(NetDid::Ran { event }) => self.ran(replica, event, sent),
            Ok(NetDid::Void { why, message }) => self.void(why, message),
            Ok(NetDid::Awaits { id }) => {
                if !tells {
                    return Ok(None);
                }
                self.said.push(Said::Awaits(id))?;
                Ok(None)
            }
            Ok(_) => Ok(None),
        }
    }

    // A replica hears the grant of its waiting call. That the call waits on is told or not.
    fn hear_grant(
        &mut self,
        replica: u32,
        message: u32,
        tells: bool,
    ) -> Result<Option<Stop>, AllocError>
        ensures { Does (λ d w. hears_grant d w replica message tells) self.old self.new result }
    {
        let sent = as_number(self.net.messages().len())?;
        let answer = go(&mut self.net, &NetStep::Hear { replica, message })?;
        self.granted(replica, sent, tells, answer)
    }

    // A call waits: the manager gets its request twice, and its replica hears the first grant.
    fn ask(&mut self, replica: u32, request: u32) -> Result<Option<Stop>, AllocError>
        ensures { Does (λ d w. asks d w replica request) self.old self.new result }
    {
        let grant = as_number(self.net.messages().len())?;
        let _ = go(&mut self.net, &NetStep::Ask { request })?;
        let _ = go(&mut self.net, &NetStep::Ask { request })?;
        set_number(&mut self.grants, replica, grant);
        self.hear_grant(replica, grant, true)
    }

    // What a replica answers to a call, before which so many messages had been sent.
    fn begun(
        &mut self,
        replica: u32,
        sent: u32,
        answer: Result<NetDid, SimulateRefused>,
    ) -> Result<Option<Stop>, AllocError>
        ensures { Does (λ d w. begun d w replica sent answer) self.old self.new result }
    {
        match answer {
            Err(why) => Ok(Some(Stop::Refused(why))),
            Ok(NetDid::Ran { event }) => self.ran(replica, event, sent),
            Ok(NetDid::Void { why, message }) => self.void(why, message),
            Ok(NetDid::Asked { request }) => self.ask(replica, request),
            Ok(_) => Ok(None),
        }
    }

    /// A replica makes a call.
    pub fn call(&mut self, replica: u32, call: Call) -> Result<Option<Stop>, AllocError>
        ensures { Does (λ d w. begins d w replica call) self.old self.new result }
    {
        let sent = as_number(self.net.messages().len())?;
        let answer = go(&mut self.net, &NetStep::Begin { replica, call })?;
        self.begun(replica, sent, answer)
    }

    // Where a call of a replica waits, it hears its grant again.
    fn try_again(&mut self, replica: u32) -> Result<Option<Stop>, AllocError>
        ensures { Does (λ d w. tries_again d w replica) self.old self.new result }
    {
        if !is_waiting(&self.net, replica) {
            return Ok(None);
        }
        let grant = number_at(&self.grants, replica).unwrap_or(0);
        self.hear_grant(replica, grant, false)
    }

    // A replica took an event. The invariants are asked before a call that waits hears its grant again.
    fn took(&mut self, replica: u32, event: u32) -> Result<Option<Stop>, AllocError>
        ensures { Does (λ d w. took d w replica event) self.old self.new result }
    {
        self.said.push(Said::Take(event))?;
        match ask_invariants(&self.net, &mut self.unbroken, replica) {
            Some(place) => Ok(Some(Stop::Broken(place))),
            None => self.try_again(replica),
        }
    }

    // What a replica did when it heard the Done of this event.
    fn heard_done(
        &mut self,
        replica: u32,
        event: u32,
        did: &NetDid,
    ) -> Result<Option<Stop>, AllocError>
        ensures { Does (λ d w. taken d w replica event (Ok did.now)) self.old self.new result }
    {
        match did {
            NetDid::Took { .. } => self.took(replica, event),
            NetDid::Awaits { id } => {
                self.said
                    .push(Said::Early(number_of(self.net.events(), *id)))?;
                Ok(None)
            }
            NetDid::Old => {
                self.said.push(Said::Old(event))?;
                Ok(None)
            }
            _ => Ok(None),
        }
    }

    // What a replica answers to the Done of this event.
    fn taken(
        &mut self,
        replica: u32,
        event: u32,
        answer: Result<NetDid, SimulateRefused>,
    ) -> Result<Option<Stop>, AllocError>
        ensures { Does (λ d w. taken d w replica event answer) self.old self.new result }
    {
        match answer {
            Ok(did) => self.heard_done(replica, event, &did),
            Err(why) => Ok(Some(Stop::Refused(why))),
        }
    }

    /// A replica takes an event, whose Done has this number.
    pub fn take(&mut self, replica: u32, event: u32, done: u32) -> Result<Option<Stop>, AllocError>
        ensures { Does (λ d w. takes d w replica event (Some done)) self.old self.new result }
    {
        let heard = NetStep::Hear {
            replica,
            message: done,
        };
        let answer = go(&mut self.net, &heard)?;
        self.taken(replica, event, answer)
    }
}
