// An effect and a guard that evaluate a specification, as an application's own code.

ghost use Rattle.std.specs.{Prelude.{◌≡◌, ◌+◌, true, Option}, Option.{option_map}};
ghost use Rattle.spec_core.specs.{Specification.{op_of}, State.{reads}, Meaning.{first_false}};
ghost use Rattle.spec_core.specs.Fits.{world_fits, call_fits, is_state};
ghost use Rattle.replica_host.specs.Native.{IsEffect, IsGuard};

use effectors::{ApplyRefused, apply};
use replica_host::{Effect, Guard};
use spec_core::{Call, Spec, World, requires_broken_at};
use spec_states::State;
use std::alloc::{AllocError, Global};

/// Evaluates a specification in a world that fits it.
#[derive(Drop)]
pub struct Evaluated<'a> {
    pub alloc: Global,
    pub spec: &'a Spec,
    pub world: &'a World,
    ghost fits: { world_fits spec.now world.now ≡ true },
}

impl<'a> Effect for Evaluated<'a> {
    ghost may_run = { λ f s call. (is_state f.spec.now f.world.now s ≡ true)
        × (call_fits f.spec.now f.world.now call ≡ true) };

    ghost gives = { λ f s call answer. IsEffect f.spec.now f.world.now s call answer };

    fn run(&self, state: &State, call: &Call) -> Result<State, ApplyRefused> {
        apply(self.alloc, self.spec, self.world, state, call)
    }
}

/// The first requires line of a call that is false, counted from 1.
fn false_line(spec: &Spec, world: &World, state: &State, call: &Call) -> Option<u32>
    requires world { world_fits spec.now world.now ≡ true }
    requires call { call_fits spec.now world.now call.now ≡ true }
    ensures { result ≡ option_map (λ place. place + 1) (first_false world.now (reads state.now)
        call.now.args (op_of spec.now call.now.op).requires_) }
{
    spec.well_formed();
    match requires_broken_at(spec, world, state, call) {
        Some(place) => Some(place as u32 + 1),
        _ => None,
    }
}

impl<'a> Guard for Evaluated<'a> {
    ghost may_ask = { λ f s call. (is_state f.spec.now f.world.now s ≡ true)
        × (call_fits f.spec.now f.world.now call ≡ true) };

    ghost tells = { λ f s call answer. IsGuard f.spec.now f.world.now s call answer };

    fn ask(&self, state: &State, call: &Call) -> Result<Option<u32>, AllocError> {
        Ok(false_line(self.spec, self.world, state, call))
    }
}
