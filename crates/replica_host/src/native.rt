// An application's own code for the calls of a specification, kept beside the facts about it.
//
// The application's code is a type of its own, with what it captures in its fields. By the traits `Effect` and `Guard` it says where it
// may be called and what it answers there, so that the invariant of `Native` can speak of it.

ghost use Rattle.std.specs.Prelude.{◌≡◌, ℕ, true, Option, Result};
ghost use Rattle.std.specs.declared.alloc.AllocError.{AllocError as NoMemory};
ghost use Rattle.spec_core.specs.{State.{Listing}, declared.world.Call.{Call as CallValue}};
ghost use Rattle.spec_core.specs.Fits.{world_fits, call_fits, is_state};
ghost use Rattle.effectors.specs.declared.applying.ApplyRefused.{ApplyRefused as Refused};
ghost use Rattle.replica_host.specs.Native.{IsEffect, IsGuard, Meets};

use effectors::ApplyRefused;
use replica_replay::Runner;
use spec_core::{Call, Spec, World};
use spec_states::State;
use std::alloc::AllocError;
use std::marker::Model;

/// Code that answers the state after a call.
pub trait Effect: Drop {
    /// The code may be called at this state and this call.
    ghost may_run: { Self → Listing → CallValue → Type 0 };

    /// There it may answer so.
    ghost gives: { Self → Listing → CallValue → Result Listing Refused → Type 0 };

    fn run(&self, state: &State, call: &Call) -> Result<State, ApplyRefused>
        requires { may_run self.now state.now call.now }
        ensures { gives self.now state.now call.now result };
}

/// Code that answers the first requires line of a call that is false, counted from 1.
pub trait Guard: Drop {
    /// The code may be called at this state and this call.
    ghost may_ask: { Self → Listing → CallValue → Type 0 };

    /// There it may answer so.
    ghost tells: { Self → Listing → CallValue → Result (Option ℕ) NoMemory → Type 0 };

    fn ask(&self, state: &State, call: &Call) -> Result<Option<u32>, AllocError>
        requires { may_ask self.now state.now call.now }
        ensures { tells self.now state.now call.now result };
}

/// A specification in a world, with the application's own effect and guard. At every state and call that fit, what the effect answers is
/// the state after the call, which fits, or the first value beyond the range of a state, where there is one; what the guard answers is
/// the first requires line that is false; want of memory is free for both.
#[derive(Drop)]
pub struct Native<'a, E: Effect, G: Guard> {
    spec: &'a Spec,
    world: &'a World,
    effect: E,
    guard: G,
}

impl<'a, E: Effect, G: Guard> Model for Native<'a, E, G> {
    ghost use Rattle.std.specs.{Prelude.{◌≡◌, true}, Coded.{codes}};
    ghost use Rattle.spec_core.specs.{Code.{coded_form}, Fits.{world_fits}};
    ghost use Rattle.replica_host.specs.Native.{IsEffect, IsGuard, Meets, Setting};

    ghost Value = { Setting };

    ghost coded = { Prim.hlevel (codes, coded_form) };

    ghost view = { λ a. record { spec = a.spec.now; world = a.world.now } };

    ghost invariant = { λ a. (world_fits a.spec.now a.world.now ≡ true) × Meets a.spec.now a.world.now (IsEffect a.spec.now a.world.now) (E.may_run a.effect) (E.gives a.effect) × Meets a.spec.now a.world.now (IsGuard a.spec.now a.world.now) (G.may_ask a.guard) (G.tells a.guard) };
}

impl<'a, E: Effect, G: Guard> Native<'a, E, G> {
    /// Keeps the code beside the facts about it.
    pub fn new(spec: &'a Spec, world: &'a World, effect: E, guard: G) -> Native<'a, E, G>
        requires world { world_fits spec.now world.now ≡ true }
        requires effect { Meets spec.now world.now (IsEffect spec.now world.now) (E.may_run effect)
            (E.gives effect) }
        requires guard { Meets spec.now world.now (IsGuard spec.now world.now) (G.may_ask guard)
            (G.tells guard) }
        ensures spec { result.spec ≡ spec.now }
        ensures world { result.world ≡ world.now }
    {
        Native {
            spec,
            world,
            effect,
            guard,
        }
    }

    // What the effect answers.
    fn run(&self, state: &State, call: &Call) -> Result<State, ApplyRefused>
        requires state { is_state self.now.spec self.now.world state.now ≡ true }
        requires call { call_fits self.now.spec self.now.world call.now ≡ true }
        ensures { IsEffect self.now.spec self.now.world state.now call.now result }
    {
        self.effect.run(state, call)
    }

    // What the guard answers.
    fn ask(&self, state: &State, call: &Call) -> Result<Option<u32>, AllocError>
        requires state { is_state self.now.spec self.now.world state.now ≡ true }
        requires call { call_fits self.now.spec self.now.world call.now ≡ true }
        ensures { IsGuard self.now.spec self.now.world state.now call.now result }
    {
        self.guard.ask(state, call)
    }
}

impl<'a, E: Effect, G: Guard> Runner for Native<'a, E, G> {
    ghost specification = { λ a. a.spec };

    ghost setting = { λ a. a.world };

    fn spec(&self) -> &Spec {
        self.spec
    }

    fn world(&self) -> &World {
        self.world
    }

    fn line_broken(&self, state: &State, call: &Call) -> Result<Option<u32>, AllocError> {
        self.ask(state, call)
    }

    fn effect(&self, state: &State, call: &Call) -> Result<State, ApplyRefused> {
        self.run(state, call)
    }

    // The application's code makes states of its own, so none is written over.
    fn effect_over(
        &self,
        state: &State,
        _spare: Option<State>,
        call: &Call,
    ) -> Result<State, ApplyRefused> {
        self.run(state, call)
    }

    fn spare(&self, _call: &Call, _latest: &State, _before: State) -> Option<State> {
        None
    }
}
