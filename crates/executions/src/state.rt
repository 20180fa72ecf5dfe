// The state after an order.

ghost use Rattle.std.specs.Prelude.{◌≡◌, ◌<◌, true, length, All, IfOk, OnOk, Err};
ghost use Rattle.std.specs.List.{list_all};
ghost use Rattle.spec_core.specs.{State.{reads}, Fits.{is_state, world_fits, call_fits}};
ghost use Rattle.effectors.specs.Beyond.{Beyond};
ghost use Rattle.executions.specs.Executions.{state_after as state_after_of};
ghost use Rattle.executions.specs.{Convergence.{system_of}, Ranges.{StayInRange, IsFirstBeyondIn}};

use crate::event::Event;
use effectors::{ApplyRefused, apply};
use spec_core::{Spec, World};
use spec_states::State;
use std::alloc::Global;

/// The state after an order: the effects of its events' calls, one after the other, from the initial state.
///
/// It is refused as `Range` where an effect leads beyond the range of a state, with the first such value of the first event that
/// does, and as `Memory` where memory ends.
pub fn state_after(
    alloc: Global,
    spec: &Spec,
    world: &World,
    events: &[Event],
    order: &[u32],
) -> Result<State, ApplyRefused>
    requires world { world_fits spec.now world.now ≡ true }
    requires calls { list_all (λ event. call_fits spec.now world.now event.call) events.now ≡ true }
    requires events { All (λ event. event < length events.now) order.now }
    ensures state { IfOk result (λ state. reads state
        ≡ state_after_of (system_of spec.now world.now) events.now order.now) }
    ensures fits { IfOk result (λ state. is_state spec.now world.now state ≡ true) }
    ensures in_range { OnOk result (StayInRange spec.now world.now events.now order.now
        (length order.now)) }
    ensures range { (b : Beyond) → result ≡ Err (ApplyRefused.Range b.counter b.key b.value)
        → IsFirstBeyondIn spec.now world.now events.now order.now b }
{
    let mut state = State::initial(alloc, spec, world)?;
    for number in order {
        let event = &events[*number as usize];
        match apply(alloc, spec, world, &state, &event.call) {
            Ok(next) => state = next,
            Err(refused) => return Err(refused),
        }
    }
    Ok(state)
}
