// A network: its replicas, its manager, and what was sent.

ghost use Rattle.std.specs.Prelude.{◌≡◌, ◌<◌, true, Some, length, slice_get, IfOk};
ghost use Rattle.std.specs.Option.{is_some};
ghost use Rattle.spec_core.specs.Fits.{is_state};
ghost use Rattle.token_protocol.specs.declared.network.NetStep.TheVariants as step;
ghost use Rattle.token_protocol.specs.{Network.{first_network}, Executed.{IsExecuted, IsGranted}};
ghost use Rattle.token_core.specs.{HeldNet.{HeldReplica, network_held}, Fields.{IsFirst}};
ghost use Rattle.token_core.specs.Stepped.{IsStepped, IsCounted};

use crate::log::{Happened, Log};
use crate::node::Node;
use crate::replica::{Replica, ask_at, begin_at, hear_at};
use items::SharedList;
use replica_replay::Runner;
use spec_core::Call;
use spec_states::State;
use std::alloc::{AllocError, Global};
use std::marker::Model;
use token_manager::Manager;
use token_protocol::{Message, NetDid, NetRefused, NetStep};

/// A network carries out no more steps.
const MOST_STEPS: u32 = 4000000000;

/// A network in which every message that was ever sent can be delivered to any replica at any step, any number of times, in any
/// order, or never. Its events form an execution, what each replica has taken is a delivery order of it, and the state of each
/// replica is the state after that.
#[derive(Drop)]
pub struct Net<R: Runner + Drop> {
    alloc: Global,
    runner: R,
    steps: u32,
    replicas: Vec<Replica>,
    manager: Manager,
    log: Log,
}

impl<R: Runner + Drop> Model for Net<R> {
    ghost use Rattle.std.specs.Coded.{codes};
    ghost use Rattle.spec_core.specs.Code.{coded_form};
    ghost use Rattle.token_core.specs.{HeldNet.{HeldNet}, Fields.{held_in, IsNet}};

    ghost Value = { HeldNet };

    ghost coded = { Prim.hlevel (codes, coded_form) };

    ghost view = { λ a. held_in (R.specification a.runner) (R.setting a.runner) a.steps a.replicas.items a.manager a.log };

    ghost invariant = { λ a. IsNet (R.specification a.runner) (R.setting a.runner) a.replicas.items a.manager a.log };
}

/// Replicas in the initial state that have taken nothing.
fn first_replicas<R: Runner>(
    alloc: Global,
    runner: &R,
    count: u32,
) -> Result<Vec<Replica>, AllocError>
    ensures { IfOk result
        (λ replicas. IsFirst (R.specification runner.now) (R.setting runner.now) count
        replicas.items) }
{
    let mut replicas = Vec::new(alloc);
    for number in 0..count {
        let node = Node::new(alloc, runner, number)?;
        replicas.push(Replica {
            node,
            taken: Vec::new(alloc),
            front: SharedList::new(alloc),
            spare: None,
        })?;
    }
    Ok(replicas)
}

impl<R: Runner + Drop> Net<R> {
    /// The network before the first step: each replica is in the initial state, and has taken nothing.
    pub fn new(alloc: Global, runner: R, replicas: u32) -> Result<Net<R>, AllocError>
        ensures spec { IfOk result (λ net. net.spec ≡ R.specification runner) }
        ensures world { IfOk result (λ net. net.world ≡ R.setting runner) }
        ensures network { IfOk result
            (λ net. network_held net ≡ first_network net.spec net.world replicas) }
        ensures steps { IfOk result (λ net. net.steps ≡ 0) }
    {
        let replicas = first_replicas(alloc, &runner, replicas)?;
        Ok(Net {
            alloc,
            runner,
            steps: 0,
            replicas,
            manager: Manager::new(alloc),
            log: Log::new(alloc),
        })
    }

    /// The specification in its world, with its code.
    pub fn runner(&self) -> &R
        ensures spec { R.specification result.now ≡ self.now.spec }
        ensures world { R.setting result.now ≡ self.now.world }
    {
        &self.runner
    }

    /// How many steps were carried out.
    pub fn steps(&self) -> u32
        ensures { result ≡ self.now.steps }
    {
        self.steps
    }

    /// How many replicas there are.
    pub fn replica_count(&self) -> usize
        ensures { result ≡ length self.now.replicas }
    {
        self.replicas.len()
    }

    /// The events, each with the id of its call, in the order of the steps that ran them.
    pub fn events(&self) -> &[Happened]
        ensures { result.now ≡ self.now.happened }
    {
        self.log.happened.as_slice()
    }

    /// What was sent, in that order.
    pub fn messages(&self) -> &[Message]
        ensures { result.now ≡ self.now.messages }
    {
        self.log.messages.as_slice()
    }

    /// The events that a replica has taken, in that order.
    pub fn taken(&self, replica: u32) -> &[u32]
        requires { replica < length self.now.replicas }
        ensures { (at : HeldReplica) → slice_get self.now.replicas replica ≡ Some at
            → result.now ≡ at.taken }
    {
        self.replicas[replica as usize].taken.as_slice()
    }

    /// The state of a replica: that after the events that it has taken.
    pub fn state_of(&self, replica: u32) -> &State
        requires { replica < length self.now.replicas }
        ensures state { (at : HeldReplica) → slice_get self.now.replicas replica ≡ Some at
            → result.now ≡ at.node.state }
        ensures fits { is_state self.now.spec self.now.world result.now ≡ true }
    {
        self.replicas[replica as usize].node.state()
    }

    /// Whether a call of a replica waits for a grant.
    pub fn is_waiting(&self, replica: u32) -> bool
        requires { replica < length self.now.replicas }
        ensures { (at : HeldReplica) → slice_get self.now.replicas replica ≡ Some at
            → result ≡ is_some at.node.waiting }
    {
        self.replicas[replica as usize].node.waiting().is_some()
    }

    /// A fact for proofs: the events form an execution, and what each replica has taken is a delivery order of it.
    pub fn is_executed(&self)
        ensures executed { IsExecuted self.now.spec self.now.world (network_held self.now) }
        ensures granted { IsGranted self.now.spec self.now.world (network_held self.now) }
    {
        let _log = &self.log;
    }

    fn begin(&mut self, replica: u32, call: &Call) -> Result<NetDid, NetRefused>
        ensures { IsStepped self.old self.new (step.Begin replica call.now) result }
    {
        if replica as usize >= self.replicas.len() {
            return Err(NetRefused::Replica);
        }
        let at = &mut self.replicas[replica as usize];
        begin_at(self.alloc, &self.runner, &mut self.log, at, call)
    }

    fn ask(&mut self, request: u32) -> Result<NetDid, NetRefused>
        ensures { IsStepped self.old self.new (step.Ask request) result }
    {
        ask_at(&self.runner, &mut self.manager, &mut self.log, request)
    }

    fn hear(&mut self, replica: u32, message: u32) -> Result<NetDid, NetRefused>
        ensures { IsStepped self.old self.new (step.Hear replica message) result }
    {
        if replica as usize >= self.replicas.len() {
            return Err(NetRefused::Replica);
        }
        let at = &mut self.replicas[replica as usize];
        hear_at(self.alloc, &self.runner, &mut self.log, at, message)
    }

    // Carries a step out, which isn't counted yet.
    fn go(&mut self, step: &NetStep) -> Result<NetDid, NetRefused>
        ensures { IsStepped self.old self.new step.now result }
    {
        match step {
            NetStep::Begin { replica, call } => self.begin(*replica, call),
            NetStep::Ask { request } => self.ask(*request),
            NetStep::Hear { replica, message } => self.hear(*replica, *message),
        }
    }

    // Carries a step out, and counts it.
    fn go_on(&mut self, step: &NetStep) -> Result<NetDid, NetRefused>
        ensures { IsCounted self.old self.new step.now result }
    {
        if self.steps >= MOST_STEPS {
            return Err(NetRefused::Memory);
        }
        match self.go(step) {
            Ok(did) => {
                self.steps += 1;
                Ok(did)
            }
            Err(why) => Err(why),
        }
    }

    /// Carries a step out, or says why not. Of a call the causes come in this order: no such replica, arguments, a waiting call. Of a
    /// request: it wasn't sent. Of a message: no such replica, it wasn't sent, range. A refusal changes nothing. Where a number would
    /// have more than 32 bits, a replica would have used up 4,000,000,000 turns, or the network has carried out 4,000,000,000 steps, the
    /// answer is want of memory.
    pub fn step(&mut self, step: &NetStep) -> Result<NetDid, NetRefused>
        ensures counted { IsCounted self.old self.new step.now result }
        ensures executed { IsExecuted self.new.spec self.new.world (network_held self.new) }
    {
        let answer = self.go_on(step);
        self.is_executed();
        answer
    }
}
