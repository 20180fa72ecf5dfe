// A state after one call, as what reads like a state; and what two calls leave.
//
// Nothing here takes memory. After one call a value is at most 3 * 10^26 in size, so a second call can be read over it.

ghost use Rattle.std.specs.Prelude.{◌≡◌, true};
ghost use Rattle.spec_core.specs.{State.{reads}, Fits.{world_fits, call_fits, is_state}};
ghost use Rattle.effectors.specs.Effect.{after};

use crate::readings::{count_after_call, has_after_call};
use spec_core::{Call, Readings, Spec, World};
use spec_states::State;

/// The state after a call, which is read and not built. What isn't declared, and a tuple or key that doesn't fit, reads false or 0.
#[derive(Drop)]
pub struct After<'a> {
    pub spec: &'a Spec,
    pub world: &'a World,
    pub state: &'a State,
    pub call: &'a Call,
    ghost world_fits: { world_fits spec.now world.now ≡ true },
    ghost state_fits: { is_state spec.now world.now state.now ≡ true },
    ghost call_fits: { call_fits spec.now world.now call.now ≡ true },
}

impl Readings for After<'_> {
    ghost reads = { λ s. after s.spec.now s.world.now s.call.now (reads s.state.now) };

    fn has(&self, relation: u8, tuple: &[u32]) -> bool {
        has_after_call(
            self.spec, self.world, self.state, self.call, relation, tuple,
        )
    }

    fn count(&self, counter: u8, key: &[u32]) -> i128 {
        self.spec.well_formed();
        self.state.stays_in_range();
        count_after_call(self.spec, self.world, self.state, self.call, counter, key)
    }
}

/// Whether a tuple is in a relation after a call.
pub fn post_has(
    spec: &Spec,
    world: &World,
    state: &State,
    call: &Call,
    relation: u8,
    tuple: &[u32],
) -> bool
    requires world { world_fits spec.now world.now ≡ true }
    requires state { is_state spec.now world.now state.now ≡ true }
    requires call { call_fits spec.now world.now call.now ≡ true }
    ensures { result ≡ (after spec.now world.now call.now
        (reads state.now)).has relation tuple.now }
{
    has_after_call(spec, world, state, call, relation, tuple)
}

/// The value of a counter at a key after a call, at most 3 * 10^26 in size.
pub fn post_count(
    spec: &Spec,
    world: &World,
    state: &State,
    call: &Call,
    counter: u8,
    key: &[u32],
) -> i128
    requires world { world_fits spec.now world.now ≡ true }
    requires state { is_state spec.now world.now state.now ≡ true }
    requires call { call_fits spec.now world.now call.now ≡ true }
    ensures { result ≡ (after spec.now world.now call.now (reads state.now)).count counter key.now }
{
    count_after_call(spec, world, state, call, counter, key)
}

/// Whether a tuple is in a relation after two calls.
pub fn post2_has(
    spec: &Spec,
    world: &World,
    state: &State,
    first: &Call,
    second: &Call,
    relation: u8,
    tuple: &[u32],
) -> bool
    requires world { world_fits spec.now world.now ≡ true }
    requires state { is_state spec.now world.now state.now ≡ true }
    requires first { call_fits spec.now world.now first.now ≡ true }
    requires second { call_fits spec.now world.now second.now ≡ true }
    ensures { result ≡ (after spec.now world.now second.now
        (after spec.now world.now first.now (reads state.now))).has relation tuple.now }
{
    let between = After {
        spec,
        world,
        state,
        call: first,
    };
    has_after_call(spec, world, &between, second, relation, tuple)
}

/// The value of a counter at a key after two calls, at most 8 * 10^37 in size.
pub fn post2_count(
    spec: &Spec,
    world: &World,
    state: &State,
    first: &Call,
    second: &Call,
    counter: u8,
    key: &[u32],
) -> i128
    requires world { world_fits spec.now world.now ≡ true }
    requires state { is_state spec.now world.now state.now ≡ true }
    requires first { call_fits spec.now world.now first.now ≡ true }
    requires second { call_fits spec.now world.now second.now ≡ true }
    ensures { result ≡ (after spec.now world.now second.now
        (after spec.now world.now first.now (reads state.now))).count counter key.now }
{
    let between = After {
        spec,
        world,
        state,
        call: first,
    };
    count_after_call(spec, world, &between, second, counter, key)
}
