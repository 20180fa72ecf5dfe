// A replay: steps, taken one after the other.

ghost use Rattle.std.specs.Prelude.{◌≡◌, ℕ, ◌<◌, ◌≤◌, ◌⊎◌, true, [], length, map, replicate};
ghost use Rattle.std.specs.Prelude.{get_or, slice_get, List, Some, Result, Err, IfOk, OnOk, OnErr};
ghost use Rattle.spec_core.specs.{State.{reads}, Fits.{world_fits, is_state}};
ghost use Rattle.replica_replay.specs.Held.{IsHeld, none_held};
ghost use Rattle.replica_replay.specs.Steps.{state_of, replica_in, called, took, outcome};
ghost use Rattle.replica_replay.specs.Steps.{held_after, answer};

use crate::asking::{ask, operation_named, state_after_call, taking_asked};
use crate::keeping::{
    Happened, Replica, count, first_replicas, keep_call, keep_taking, no_spares, seen_by_event,
    take_spare,
};
use crate::runner::Runner;
use crate::step::{Step, StepRefused, Taken};
use items::Items;
use spec_core::{Call, World};
use spec_states::State;
use std::alloc::{AllocError, Global};
use std::marker::Model;
use token_rules::rivals_of;

/// A replay of a specification in a world, by a runner. Its events form an execution, and what each replica has taken is a delivery
/// order of it. The steps so far take memory for each event and for each taking, and none for what an event has seen.
#[derive(Drop)]
pub struct Replay<R: Runner + Drop> {
    alloc: Global,
    runner: R,
    happened: Vec<Happened>,
    replicas: Vec<Replica>,
    spares: Vec<Option<State>>,
}

impl<R: Runner + Drop> Model for Replay<R> {
    ghost use Rattle.std.specs.Coded.{codes};
    ghost use Rattle.spec_core.specs.Code.{coded_form};
    ghost use Rattle.replica_replay.specs.Replayed.{Replayed};

    ghost Value = { Replayed };

    ghost coded = { Prim.hlevel (codes, coded_form) };

    ghost use Rattle.replica_replay.specs.Holding.{held_by, IsReplay};

    ghost view = { λ a. record {
      spec = R.specification a.runner;
      world = R.setting a.runner;
      held = held_by a.happened.items a.replicas.items;
    } };

    ghost invariant = { λ a. IsReplay (R.specification a.runner) (R.setting a.runner)
        a.happened.items a.replicas.items a.spares.items };
}

impl<R: Runner + Drop> Replay<R> {
    /// The replay before the first step: each replica is in the initial state, and has taken nothing.
    pub fn new(alloc: Global, runner: R, replicas: u32) -> Result<Replay<R>, AllocError>
        ensures spec { IfOk result (λ replay. replay.spec ≡ R.specification runner) }
        ensures world { IfOk result (λ replay. replay.world ≡ R.setting runner) }
        ensures held { IfOk result (λ replay. replay.held ≡ none_held replicas) }
    {
        let happened = Vec::new(alloc);
        let spares = no_spares(alloc, replicas)?;
        let replicas = first_replicas(alloc, &runner, replicas)?;
        Ok(Replay {
            alloc,
            runner,
            happened,
            replicas,
            spares,
        })
    }

    /// The world in which it runs.
    pub fn world(&self) -> &World
        ensures value { result.now ≡ self.now.world }
        ensures fits { world_fits self.now.spec self.now.world ≡ true }
    {
        let _happened = &self.happened;
        self.runner.world()
    }

    /// How many replicas there are.
    pub fn replica_count(&self) -> usize
        ensures { result ≡ length self.now.held.taken }
    {
        count(&self.replicas)
    }

    /// The state of a replica: that after the events that it has taken.
    pub fn state_of(&self, replica: u32) -> &State
        requires { replica < length self.now.held.taken }
        ensures reads { reads result.now
            ≡ state_of self.now.spec self.now.world self.now.held
            (get_or self.now.held.taken replica []) }
        ensures fits { is_state self.now.spec self.now.world result.now ≡ true }
    {
        &self.replicas[replica as usize].state
    }

    /// The events that a replica has taken, in that order.
    pub fn seen_by(&self, replica: u32) -> &[u32]
        requires { replica < length self.now.held.taken }
        ensures { result.now ≡ get_or self.now.held.taken replica [] }
    {
        self.replicas[replica as usize].order.as_slice()
    }

    /// The call of an event.
    pub fn call_of(&self, event: u32) -> &Call
        requires { event < length self.now.held.events }
        ensures { slice_get (map (λ e. e.call) self.now.held.events) event ≡ Some result.now }
    {
        &self.happened[event as usize].call
    }

    /// A fact for proofs: the events form an execution, and what each replica has taken is a delivery order of it.
    pub fn is_held(&self)
        ensures { IsHeld self.now.spec self.now.world self.now.held }
    {
        let _happened = &self.happened;
    }

    fn call(&mut self, replica: u32, name: &[u8], args: &[i64]) -> Result<Taken, StepRefused>
        ensures answer { (result ≡ Err StepRefused.Memory)
            ⊎ (result
            ≡ answer (called self.old.spec self.old.world name.now args.now
            (replica_in self.old.held replica))) }
        ensures ok { OnOk result
            (self.new ≡ record self.old {
              held = held_after self.old.held
                  (called self.old.spec self.old.world name.now args.now
                  (replica_in self.old.held replica));
            }) }
        ensures err { OnErr result (self.new ≡ self.old) }
    {
        let Some(at) = self.replicas.get(replica as usize) else {
            return Err(StepRefused::Replica);
        };
        let Some(op) = operation_named(self.runner.spec(), name) else {
            return Err(StepRefused::Operation);
        };
        let rivals = rivals_of(self.alloc, self.runner.spec(), op)?;
        let args = Items::from_slice(self.alloc, args)?;
        let call = Call { op, args };
        match ask(&self.runner, &self.happened, at, &call, &rivals) {
            Err(why) => Err(why),
            Ok(()) => {
                let spare = take_spare(&mut self.spares, replica as usize);
                match state_after_call(&self.runner, at, spare, &call) {
                    Ok(state) => keep_call(
                        &self.runner,
                        &mut self.happened,
                        &mut self.replicas,
                        &mut self.spares,
                        replica,
                        call,
                        state,
                    ),
                    Err(why) => Err(why),
                }
            }
        }
    }

    fn take(&mut self, replica: u32, event: u32) -> Result<Taken, StepRefused>
        ensures answer { (result ≡ Err StepRefused.Memory)
            ⊎ (result
            ≡ answer (took self.old.spec self.old.world event
            (replica_in self.old.held replica))) }
        ensures ok { OnOk result
            (self.new ≡ record self.old {
              held = held_after self.old.held
                  (took self.old.spec self.old.world event
                  (replica_in self.old.held replica));
            }) }
        ensures err { OnErr result (self.new ≡ self.old) }
    {
        let Some(at) = self.replicas.get(replica as usize) else {
            return Err(StepRefused::Replica);
        };
        let Some(found) = self.happened.get(event as usize) else {
            return Err(StepRefused::NoEvent);
        };
        let seen = seen_by_event(&self.replicas, found);
        match taking_asked(&at.order, event, seen) {
            Some(why) => Err(why),
            None => {
                let spare = take_spare(&mut self.spares, replica as usize);
                match state_after_call(&self.runner, at, spare, &found.call) {
                    Ok(state) => keep_taking(
                        &self.runner,
                        &found.call,
                        &mut self.replicas,
                        &mut self.spares,
                        replica as usize,
                        event,
                        state,
                    ),
                    Err(why) => Err(why),
                }
            }
        }
    }

    /// Carries a step out, or says why not. The runner is asked for the requires lines, and the state after an event is what it gave; of
    /// this no clause speaks, since every runner answers as the specification does. A call makes the next event, which has seen what its
    /// replica had taken, and the replica takes it; a taking puts the event behind what the replica has taken. The first cause in the order
    /// of the tests is answered: of a call replica, operation, arguments, conflict, precondition, observation, range; of a taking replica,
    /// no event, seen, missing, range. A refusal changes nothing.
    pub fn step(&mut self, step: &Step) -> Result<Taken, StepRefused>
        ensures answer { (result ≡ Err StepRefused.Memory)
            ⊎ (result ≡ answer (outcome self.old.spec self.old.world self.old.held step.now)) }
        ensures ok { OnOk result
            (self.new ≡ record self.old {
              held = held_after self.old.held
                  (outcome self.old.spec self.old.world self.old.held step.now);
            }) }
        ensures err { OnErr result (self.new ≡ self.old) }
    {
        match step {
            Step::Call { replica, op, args } => self.call(*replica, op.bytes(), args.as_slice()),
            Step::Take { replica, event } => self.take(*replica, *event),
        }
    }
}
