// The state after a call, as a state.
//
// A copy of the old state gets the new readings of what the updates reach. Only where a value is out of range are all counters
// gone through, for the first one that is.

ghost use Rattle.std.specs.Prelude.{◌≡◌, ◌≢◌, ◌+◌, ◌≤◌, ℕ, ℤ, List, ◌∷◌, true, map, length, suc};
ghost use Rattle.std.specs.{Prelude.{nat_le, IfOk, OnOk, Err, Some, None}, List.{list_all}};
ghost use Rattle.spec_core.specs.{Specification.{op_of}, World.{tuples}, State.{reads}};
ghost use Rattle.spec_core.specs.Fits.{world_fits, call_fits, is_state};
ghost use Rattle.effectors.specs.Effect.{count_after, numbered, after_call, after};
ghost use Rattle.effectors.specs.Beyond.{Beyond, AllInRange, IsFirstBeyond, first_beyond};
ghost use Rattle.effectors.specs.{Outside.{outside_or}, Refusal.{refused_by}};

use crate::in_place::apply_over;
use crate::outside::Outside;
use crate::readings::count_updated;
use crate::writing::in_range;
use items::Items;
use spec_core::{Call, Counter, Spec, World};
use spec_states::State;
use std::alloc::{AllocError, Global};

/// Why a call isn't applied.
#[derive(Drop)]
pub enum ApplyRefused {
    /// A value is beyond -10^15 to 10^15: that of the first such counter at its least such key.
    Range {
        counter: u8,
        key: Items<u32>,
        value: i128,
    },
    /// There was no memory for the new state.
    Memory,
}

impl From<AllocError> for ApplyRefused {
    ghost use Rattle.std.specs.Prelude.{◌≡◌};
    ghost use Rattle.effectors.specs.declared.applying.ApplyRefused.TheVariants.{Memory};

    ghost from_gives = { λ e r. r ≡ Memory };

    fn from(_: AllocError) -> Self {
        ApplyRefused::Memory
    }
}

// The first of these keys at which the new value of a counter is out of range.
fn first_outside_in(
    alloc: Global,
    spec: &Spec,
    world: &World,
    state: &State,
    call: &Call,
    counter: u8,
    keys: &[Items<u32>],
) -> Result<Option<Outside>, AllocError>
    requires world { world_fits spec.now world.now ≡ true }
    requires call { call_fits spec.now world.now call.now ≡ true }
    ensures { IfOk result (λ o. (rest : List (List (List ℕ × ℤ)))
        → first_beyond counter (map (λ t. (
          t,
          count_after world.now
              (reads state.now) call.now.args counter t (op_of spec.now call.now.op).updates
              ((reads state.now).count counter t),
        )) keys.now ∷ rest)
        ≡ outside_or counter o (first_beyond (suc counter) rest)) }
{
    for key in keys {
        let value = count_updated(spec, world, state, call, counter, key.as_slice());
        if !in_range(value) {
            let key = Items::from_slice(alloc, key.as_slice())?;
            return Ok(Some(Outside { key, value }));
        }
    }
    Ok(None)
}

// The first of these counters, numbered on from one, that has a new value out of range.
fn first_outside(
    alloc: Global,
    spec: &Spec,
    world: &World,
    state: &State,
    call: &Call,
    counter: u8,
    counters: &[Counter],
) -> Result<Option<ApplyRefused>, AllocError>
    requires world { world_fits spec.now world.now ≡ true }
    requires call { call_fits spec.now world.now call.now ≡ true }
    requires few { counter + length counters.now ≤ 8 }
    ensures { IfOk result (λ o. refused_by o (first_beyond counter
        (numbered (λ k it. map (λ t. (
          t,
          count_after world.now (reads state.now) call.now.args k t
              (op_of spec.now call.now.op).updates ((reads state.now).count k t),
        ))
        (tuples world.now it.keys)) counter counters.now))) }
{
    match counters {
        [] => Ok(None),
        [it, counters @ ..] => {
            let keys = world.tuples(alloc, it.keys.as_slice())?;
            match first_outside_in(alloc, spec, world, state, call, counter, keys.as_slice())? {
                Some(Outside { key, value }) => Ok(Some(ApplyRefused::Range {
                    counter,
                    key,
                    value,
                })),
                None => first_outside(alloc, spec, world, state, call, counter + 1, counters),
            }
        }
    }
}

/// Why no state comes after a call that leaves a value out of range.
pub fn why_refused(
    alloc: Global,
    spec: &Spec,
    world: &World,
    state: &State,
    call: &Call,
) -> ApplyRefused
    requires world { world_fits spec.now world.now ≡ true }
    requires call { call_fits spec.now world.now call.now ≡ true }
    requires outside { first_beyond 0 (after_call spec.now world.now call.now
        (reads state.now)).counters ≢ None }
    ensures { (b : Beyond) → result ≡ ApplyRefused.Range b.counter b.key b.value
        → IsFirstBeyond (after_call spec.now world.now call.now (reads state.now)) b }
{
    spec.well_formed();
    match first_outside(alloc, spec, world, state, call, 0, spec.counters.as_slice()) {
        Ok(Some(refused)) => refused,
        Ok(None) => unreachable!(),
        Err(_) => ApplyRefused::Memory,
    }
}

/// The state after a call. The old one stays. It is refused as `Range` exactly where a value that the call leaves is beyond
/// -10^15 to 10^15, with the first such counter, its least such key and the value there.
pub fn apply(
    alloc: Global,
    spec: &Spec,
    world: &World,
    state: &State,
    call: &Call,
) -> Result<State, ApplyRefused>
    requires world { world_fits spec.now world.now ≡ true }
    requires state { is_state spec.now world.now state.now ≡ true }
    requires call { call_fits spec.now world.now call.now ≡ true }
    ensures reads { IfOk result (λ s. reads s
        ≡ after spec.now world.now call.now (reads state.now)) }
    ensures fits { IfOk result (λ s. is_state spec.now world.now s ≡ true) }
    ensures in_range { OnOk result (AllInRange
        (after_call spec.now world.now call.now (reads state.now))) }
    ensures range { (b : Beyond) → result ≡ Err (ApplyRefused.Range b.counter b.key b.value)
        → IsFirstBeyond (after_call spec.now world.now call.now (reads state.now)) b }
{
    apply_over(alloc, spec, world, state, None, call)
}
