// Lines of a call that are false.

ghost use Rattle.std.specs.{Prelude.{◌≡◌, ◌+◌, true, Option}, Option.{option_map}};
ghost use Rattle.spec_core.specs.{Specification.{op_of}, State.{reads}, Meaning.{first_false}};
ghost use Rattle.spec_core.specs.Fits.{world_fits, call_fits};

use spec_core::{Call, Spec, World, observes_broken_at, requires_broken_at};
use spec_states::State;

/// The first requires line of a call that is false, counted from 1.
pub fn requires_line(spec: &Spec, world: &World, state: &State, call: &Call) -> Option<u32>
    requires world { world_fits spec.now world.now ≡ true }
    requires call { call_fits spec.now world.now call.now ≡ true }
    ensures { result
        ≡ option_map (λ place. place + 1)
        (first_false world.now (reads state.now) call.now.args
        (op_of spec.now call.now.op).requires_) }
{
    spec.well_formed();
    match requires_broken_at(spec, world, state, call) {
        Some(place) => Some(place as u32 + 1),
        None => None,
    }
}

/// The first observes line of a call that is false, counted from 1.
pub fn observes_line(spec: &Spec, world: &World, state: &State, call: &Call) -> Option<u32>
    requires world { world_fits spec.now world.now ≡ true }
    requires call { call_fits spec.now world.now call.now ≡ true }
    ensures { result
        ≡ option_map (λ place. place + 1)
        (first_false world.now (reads state.now) call.now.args
        (op_of spec.now call.now.op).observes) }
{
    spec.well_formed();
    match observes_broken_at(spec, world, state, call) {
        Some(place) => Some(place as u32 + 1),
        None => None,
    }
}
