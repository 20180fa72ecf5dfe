// Who evaluates a call's precondition and applies its effect.

ghost use Rattle.std.specs.{Prelude.{◌≡◌, ◌+◌, true, IfOk, OnOk, Err, Option}, Option.{option_map}};
ghost use Rattle.spec_core.specs.declared.world.World.{World as Setting};
ghost use Rattle.spec_core.specs.{Specification.{Specification, op_of}, State.{reads}};
ghost use Rattle.spec_core.specs.{Meaning.{first_false}, Fits.{world_fits, call_fits, is_state}};
ghost use Rattle.effectors.specs.Effect.{after, after_call};
ghost use Rattle.effectors.specs.{Beyond.{Beyond, AllInRange, IsFirstBeyond}, Spare.{IsSpare}};

use crate::conditions::requires_line;
use effectors::{ApplyRefused, apply, apply_over, caught_up};
use spec_core::{Call, Spec, World};
use spec_states::State;
use std::alloc::{AllocError, Global};

/// A specification in a world, with code that evaluates preconditions and applies effects as they say.
pub trait Runner {
    /// The specification.
    ghost specification: { Self → Specification };

    /// The world.
    ghost setting: { Self → Setting };

    fn spec(&self) -> &Spec
        ensures { result.now ≡ specification self.now };

    fn world(&self) -> &World
        ensures value { result.now ≡ setting self.now }
        ensures fits { world_fits (specification self.now) (setting self.now) ≡ true };

    /// The first requires line of the call that is false, counted from 1; none where its precondition holds.
    fn line_broken(&self, state: &State, call: &Call) -> Result<Option<u32>, AllocError>
        requires state { is_state (specification self.now) (setting self.now) state.now ≡ true }
        requires call { call_fits (specification self.now) (setting self.now) call.now ≡ true }
        ensures { IfOk result
            (λ line. line
            ≡ option_map (λ place. place + 1)
            (first_false (setting self.now) (reads state.now) call.now.args
            (op_of (specification self.now) call.now.op).requires_)) };

    /// The state after the call's effect, refused where a value would be beyond the range of a state.
    fn effect(&self, state: &State, call: &Call) -> Result<State, ApplyRefused>
        requires state { is_state (specification self.now) (setting self.now) state.now ≡ true }
        requires call { call_fits (specification self.now) (setting self.now) call.now ≡ true }
        ensures reads { IfOk result
            (λ s. reads s
            ≡ after (specification self.now) (setting self.now) call.now (reads state.now)) }
        ensures fits { IfOk result
            (λ s. is_state (specification self.now) (setting self.now) s ≡ true) }
        ensures in_range { OnOk result
            (AllInRange (after_call (specification self.now) (setting self.now) call.now
            (reads state.now))) }
        ensures range { (b : Beyond) → result ≡ Err (ApplyRefused.Range b.counter b.key b.value)
            → IsFirstBeyond
            (after_call (specification self.now) (setting self.now) call.now (reads state.now)) b };

    /// What `effect` answers. The state may be written over the spare one, so that nothing is copied.
    fn effect_over(
        &self,
        state: &State,
        spare: Option<State>,
        call: &Call,
    ) -> Result<State, ApplyRefused>
        requires state { is_state (specification self.now) (setting self.now) state.now ≡ true }
        requires spare { IsSpare (specification self.now) (setting self.now) state.now spare }
        requires call { call_fits (specification self.now) (setting self.now) call.now ≡ true }
        ensures reads { IfOk result
            (λ s. reads s
            ≡ after (specification self.now) (setting self.now) call.now (reads state.now)) }
        ensures fits { IfOk result
            (λ s. is_state (specification self.now) (setting self.now) s ≡ true) }
        ensures in_range { OnOk result
            (AllInRange (after_call (specification self.now) (setting self.now) call.now
            (reads state.now))) }
        ensures range { (b : Beyond) → result ≡ Err (ApplyRefused.Range b.counter b.key b.value)
            → IsFirstBeyond
            (after_call (specification self.now) (setting self.now) call.now (reads state.now)) b };

    /// A spare state for the next call, made of the state before this one; none is allowed.
    fn spare(&self, call: &Call, latest: &State, before: State) -> Option<State>
        requires call { call_fits (specification self.now) (setting self.now) call.now ≡ true }
        requires before { is_state (specification self.now) (setting self.now) before ≡ true }
        requires reads { reads latest.now
            ≡ after (specification self.now) (setting self.now) call.now (reads before) }
        ensures { IsSpare (specification self.now) (setting self.now) latest.now result };
}

/// The runner that evaluates a specification as it is written.
#[derive(Drop)]
pub struct Plain<'a> {
    alloc: Global,
    spec: &'a Spec,
    world: &'a World,
    ghost fits: { world_fits spec.now world.now ≡ true },
}

impl<'a> Plain<'a> {
    /// It borrows both and copies neither. The allocator is asked for each state that an effect makes.
    pub fn new(alloc: Global, spec: &'a Spec, world: &'a World) -> Plain<'a>
        requires { world_fits spec.now world.now ≡ true }
        ensures spec { result.spec.now ≡ spec.now }
        ensures world { result.world.now ≡ world.now }
    {
        Plain { alloc, spec, world }
    }
}

impl<'a> Runner for Plain<'a> {
    ghost specification = { λ a. a.spec.now };

    ghost setting = { λ a. a.world.now };

    fn spec(&self) -> &Spec {
        self.spec
    }

    fn world(&self) -> &World {
        self.world
    }

    fn line_broken(&self, state: &State, call: &Call) -> Result<Option<u32>, AllocError> {
        Ok(requires_line(self.spec, self.world, state, call))
    }

    fn effect(&self, state: &State, call: &Call) -> Result<State, ApplyRefused> {
        apply(self.alloc, self.spec, self.world, state, call)
    }

    fn effect_over(
        &self,
        state: &State,
        spare: Option<State>,
        call: &Call,
    ) -> Result<State, ApplyRefused> {
        apply_over(self.alloc, self.spec, self.world, state, spare, call)
    }

    fn spare(&self, call: &Call, latest: &State, before: State) -> Option<State> {
        caught_up(self.alloc, self.spec, self.world, call, latest, before)
    }
}
