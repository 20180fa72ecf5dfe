// The invariants of a state to which a call has led from one in which they held.

ghost use Rattle.std.specs.Prelude.{◌≡◌, true, None};
ghost use Rattle.spec_core.specs.{State.{Reads}, Meaning.{broken_at}, Fits.{world_fits}};
ghost use Rattle.effectors.specs.Effect.{after};

use crate::reached::line_holds_after;
use spec_core::{Call, Readings, Spec, World};

/// The place of the first invariant that is false after a call, where all were true before it.
pub fn invariant_broken_after<R: Readings>(
    spec: &Spec,
    world: &World,
    at: &R,
    call: &Call,
) -> Option<usize>
    requires { world_fits spec.now world.now ≡ true }
    ensures { (before : Reads) → R.reads at.now ≡ after spec.now world.now call.now before
        → broken_at spec.now world.now before ≡ None
        → result ≡ broken_at spec.now world.now (R.reads at.now) }
{
    for (i, invariant) in spec.invariants.as_slice().iter().enumerate() {
        if !line_holds_after(spec, world, at, call, &invariant.line) {
            return Some(i);
        }
    }
    None
}
