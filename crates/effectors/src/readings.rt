// What the state after a call reads, at one tuple or key, without building that state.

ghost use Rattle.std.specs.Prelude.{◌≡◌, true};
ghost use Rattle.spec_core.specs.{Specification.{op_of}, Fits.{world_fits, call_fits}};
ghost use Rattle.effectors.specs.Effect.{has_after, count_after, after};
ghost use Rattle.effectors.specs.Places.{fits_relation, fits_counter};

use crate::updates::{count_after, has_after};
use spec_core::{Call, Readings, Spec, World};

/// Whether a relation is there, and a tuple fits it.
pub fn fits_relation(spec: &Spec, world: &World, relation: u8, tuple: &[u32]) -> bool
    ensures { result ≡ fits_relation spec.now world.now relation tuple.now }
{
    match spec.relations.as_slice().get(relation as usize) {
        Some(it) => world.has_tuple(it.places.as_slice(), tuple),
        None => false,
    }
}

/// Whether a counter is there, and a key fits it.
pub fn fits_counter(spec: &Spec, world: &World, counter: u8, key: &[u32]) -> bool
    ensures { result ≡ fits_counter spec.now world.now counter key.now }
{
    match spec.counters.as_slice().get(counter as usize) {
        Some(it) => world.has_tuple(it.keys.as_slice(), key),
        None => false,
    }
}

/// What a tuple reads after the updates of a call.
pub fn has_updated<R: Readings>(
    spec: &Spec,
    world: &World,
    at: &R,
    call: &Call,
    relation: u8,
    tuple: &[u32],
) -> bool
    requires world { world_fits spec.now world.now ≡ true }
    requires call { call_fits spec.now world.now call.now ≡ true }
    ensures { result ≡ has_after world.now (R.reads at.now) call.now.args relation tuple.now
        (op_of spec.now call.now.op).updates ((R.reads at.now).has relation tuple.now) }
{
    spec.well_formed();
    has_after(
        spec,
        world,
        at,
        call.args.as_slice(),
        spec.updates_of(call.op),
        relation,
        tuple,
    )
}

/// What a key reads after the updates of a call.
pub fn count_updated<R: Readings>(
    spec: &Spec,
    world: &World,
    at: &R,
    call: &Call,
    counter: u8,
    key: &[u32],
) -> i128
    requires world { world_fits spec.now world.now ≡ true }
    requires call { call_fits spec.now world.now call.now ≡ true }
    ensures { result ≡ count_after world.now (R.reads at.now) call.now.args counter key.now
        (op_of spec.now call.now.op).updates ((R.reads at.now).count counter key.now) }
{
    spec.well_formed();
    count_after(
        spec,
        world,
        at,
        call.args.as_slice(),
        spec.updates_of(call.op),
        counter,
        key,
    )
}

/// Whether the state after a call holds a tuple of a relation.
pub fn has_after_call<R: Readings>(
    spec: &Spec,
    world: &World,
    at: &R,
    call: &Call,
    relation: u8,
    tuple: &[u32],
) -> bool
    requires world { world_fits spec.now world.now ≡ true }
    requires call { call_fits spec.now world.now call.now ≡ true }
    ensures { result ≡ (after spec.now world.now call.now (R.reads at.now)).has relation tuple.now }
{
    fits_relation(spec, world, relation, tuple)
        && has_updated(spec, world, at, call, relation, tuple)
}

/// The value of a counter at a key in the state after a call, at most 8 * 10^37 in size.
pub fn count_after_call<R: Readings>(
    spec: &Spec,
    world: &World,
    at: &R,
    call: &Call,
    counter: u8,
    key: &[u32],
) -> i128
    requires world { world_fits spec.now world.now ≡ true }
    requires call { call_fits spec.now world.now call.now ≡ true }
    ensures { result ≡ (after spec.now world.now call.now (R.reads at.now)).count counter key.now }
{
    if fits_counter(spec, world, counter, key) {
        count_updated(spec, world, at, call, counter, key)
    } else {
        0
    }
}
