// The state after a call, written over a second one.
//
// A second state that reads alike is kept beside it. A call is written over the second one, so that a refusal in the midst of
// writing leaves the first one as it was. Once all is written the two change places, and what the call reached is copied into
// the one that was left behind. Where memory fails for that, the second state is given up, and the next call copies the first.

ghost use Rattle.std.specs.Prelude.{◌≡◌, true, Err, IfOk, OnOk};
ghost use Rattle.spec_core.specs.{State.{reads}, Fits.{world_fits, call_fits, is_state}};
ghost use Rattle.effectors.specs.Effect.{after_call, after};
ghost use Rattle.effectors.specs.Beyond.{Beyond, AllInRange, IsFirstBeyond};
ghost use Rattle.effectors.specs.Spare.{IsTwin, IsSpare};

use crate::after::After;
use crate::applying::{ApplyRefused, why_refused};
use crate::writing::write_updates;
use spec_core::{Call, Spec, World};
use spec_states::State;
use std::alloc::{AllocError, Global};

// A state to write over: the spare one, else a copy.
fn room(
    spec: &Spec,
    world: &World,
    state: &State,
    spare: Option<State>,
) -> Result<State, AllocError>
    requires fits { is_state spec.now world.now state.now ≡ true }
    requires spare { IsSpare spec.now world.now state.now spare }
    ensures { IfOk result (λ s. IsTwin spec.now world.now state.now s) }
{
    match spare {
        Some(twin) => Ok(twin),
        None => state.copy(),
    }
}

/// The state after a call, with the answers of `apply`, written over the spare one, else over a copy. The old one stays.
pub fn apply_over(
    alloc: Global,
    spec: &Spec,
    world: &World,
    state: &State,
    spare: Option<State>,
    call: &Call,
) -> Result<State, ApplyRefused>
    requires world { world_fits spec.now world.now ≡ true }
    requires state { is_state spec.now world.now state.now ≡ true }
    requires call { call_fits spec.now world.now call.now ≡ true }
    requires spare { IsSpare spec.now world.now state.now spare }
    ensures reads { IfOk result (λ s. reads s
        ≡ after spec.now world.now call.now (reads state.now)) }
    ensures fits { IfOk result (λ s. is_state spec.now world.now s ≡ true) }
    ensures in_range { OnOk result (AllInRange
        (after_call spec.now world.now call.now (reads state.now))) }
    ensures range { (b : Beyond) → result ≡ Err (ApplyRefused.Range b.counter b.key b.value)
        → IsFirstBeyond (after_call spec.now world.now call.now (reads state.now)) b }
{
    spec.well_formed();
    state.stays_in_range();
    let mut new = room(spec, world, state, spare)?;
    let from = After {
        spec,
        world,
        state,
        call,
    };
    if write_updates(
        alloc,
        spec,
        world,
        call,
        &from,
        &mut new,
        spec.updates_of(call.op),
    )? {
        Ok(new)
    } else {
        Err(why_refused(alloc, spec, world, state, call))
    }
}

/// The state before a call, brought to read as the state after it; none where memory fails.
pub fn caught_up(
    alloc: Global,
    spec: &Spec,
    world: &World,
    call: &Call,
    latest: &State,
    before: State,
) -> Option<State>
    requires world { world_fits spec.now world.now ≡ true }
    requires call { call_fits spec.now world.now call.now ≡ true }
    requires before { is_state spec.now world.now before ≡ true }
    requires reads { reads latest.now ≡ after spec.now world.now call.now (reads before) }
    ensures { IsSpare spec.now world.now latest.now result }
{
    spec.well_formed();
    let mut state = before;
    match write_updates(
        alloc,
        spec,
        world,
        call,
        latest,
        &mut state,
        spec.updates_of(call.op),
    ) {
        Ok(true) => Some(state),
        _ => None,
    }
}
