// What is asked of a call before its effect, and the state after an effect.
//
// The search for the least conflicting event goes over all events. It passes over those whose operations no rule can match by
// their tokens, over those whose argument isn't the one that all such rules want, and over those that were taken, before it asks
// the rules.

ghost use Rattle.std.specs.Prelude.{◌≡◌, ℕ, ◌<◌, ◌≤◌, ◌^◌, ◌⊎◌, ◌&&◌, not, true, length, map};
ghost use Rattle.std.specs.{Prelude.{Option, None, Some, IfOk, IfErr, OnOk}, Option.{option_or}};
ghost use Rattle.std.specs.{List.{position_from}, Str.{bytes_eq}};
ghost use Rattle.spec_core.specs.{Limits.{most_operations}, State.{reads}};
ghost use Rattle.spec_core.specs.Fits.{call_fits, is_state};
ghost use Rattle.effectors.specs.{Effect.{after}, Spare.{IsSpare}};
ghost use Rattle.token_rules.specs.{Conflict.{conflicts}, Rivals.{rivals_of}};
ghost use Rattle.replica_replay.specs.Held.{is_taken};
ghost use Rattle.replica_replay.specs.Refusals.{least_unseen, lines_asked, call_asked};
ghost use Rattle.replica_replay.specs.{Refusals.{taking_asked, effect_refused}, Holding.{calls_of}};
ghost use Rattle.replica_replay.specs.Steps.{operation_named as operation_named_of};

use crate::conditions::observes_line;
use crate::keeping::{Happened, Replica};
use crate::order::Order;
use crate::runner::Runner;
use crate::step::StepRefused;
use effectors::ApplyRefused;
use spec_core::{Call, Operation, Spec, World};
use spec_states::State;
use token_rules::{Rivalry, conflicts, may_conflict};

fn named(operations: &[Operation], name: &[u8]) -> Option<u8>
    requires { length operations.now ≤ most_operations }
    ensures { result ≡ position_from (λ o. bytes_eq o.name name.now) 0 operations.now }
{
    for (place, operation) in operations.iter().enumerate() {
        if operation.name.bytes() == name {
            return Some(place as u8);
        }
    }
    None
}

/// The place of the operation of this name.
pub fn operation_named(spec: &Spec, name: &[u8]) -> Option<u8>
    ensures { result ≡ operation_named_of spec.now name.now }
{
    spec.well_formed();
    named(spec.operations.as_slice(), name)
}

// Another call conflicts with the call, and its event wasn't taken.
fn is_unseen(
    spec: &Spec,
    world: &World,
    is_taken: bool,
    call: &Call,
    rivals: &[Rivalry],
    other: &Call,
) -> bool
    requires { rivals.now ≡ rivals_of spec.now call.now.op }
    ensures { result ≡ (conflicts spec.now world.now other.now call.now && not is_taken) }
{
    if !may_conflict(rivals, other, call) {
        return false;
    }
    !is_taken && conflicts(spec, world, other, call)
}

/// The least event whose call conflicts with a call and that isn't among those taken.
pub fn least_unseen(
    spec: &Spec,
    world: &World,
    taken: &Order,
    call: &Call,
    rivals: &[Rivalry],
    happened: &[Happened],
) -> Option<u32>
    requires few { length happened.now < 2 ^ 32 }
    requires rivals { rivals.now ≡ rivals_of spec.now call.now.op }
    ensures { result
        ≡ least_unseen spec.now world.now taken.now call.now 0 (calls_of happened.now) }
{
    for (event, other) in happened.iter().enumerate() {
        let is_taken = taken.has(event as u32);
        if is_unseen(spec, world, is_taken, call, rivals, &other.call) {
            return Some(event as u32);
        }
    }
    None
}

// Asks the lines of a call: refused for the first one that is false. The runner is asked for the requires lines.
fn ask_lines<R: Runner>(runner: &R, state: &State, call: &Call) -> Result<(), StepRefused>
    requires state { is_state (R.specification runner.now) (R.setting runner.now) state.now ≡ true }
    requires call { call_fits (R.specification runner.now) (R.setting runner.now) call.now ≡ true }
    ensures ok { OnOk result
        ((next : Option StepRefused)
        → lines_asked (R.specification runner.now) (R.setting runner.now) (reads state.now) call.now
        next
        ≡ next) }
    ensures err { IfErr result
        (λ why. (why ≡ StepRefused.Memory)
        ⊎ ((next : Option StepRefused)
        → lines_asked (R.specification runner.now) (R.setting runner.now) (reads state.now) call.now
        next
        ≡ Some why)) }
{
    if let Some(line) = runner.line_broken(state, call)? {
        return Err(StepRefused::Precondition { line });
    }
    match observes_line(runner.spec(), runner.world(), state, call) {
        Some(line) => Err(StepRefused::Observation { line }),
        None => Ok(()),
    }
}

/// Asks of a call at a replica what is asked before its effect is tried: refused for the first cause against it.
pub fn ask<R: Runner>(
    runner: &R,
    happened: &[Happened],
    at: &Replica,
    call: &Call,
    rivals: &[Rivalry],
) -> Result<(), StepRefused>
    requires state { is_state (R.specification runner.now) (R.setting runner.now) at.now.state
        ≡ true }
    requires few { length happened.now < 2 ^ 32 }
    requires rivals { rivals.now ≡ rivals_of (R.specification runner.now) call.now.op }
    ensures ok { OnOk result
        ((next : Option StepRefused)
        → call_asked (R.specification runner.now) (R.setting runner.now) (calls_of happened.now)
        (record { taken = at.now.order; state = reads at.now.state }) call.now next
        ≡ next) }
    ensures err { IfErr result
        (λ why. (why ≡ StepRefused.Memory)
        ⊎ ((next : Option StepRefused)
        → call_asked (R.specification runner.now) (R.setting runner.now) (calls_of happened.now)
        (record { taken = at.now.order; state = reads at.now.state }) call.now next
        ≡ Some why)) }
    ensures fits { OnOk result
        (call_fits (R.specification runner.now) (R.setting runner.now) call.now ≡ true) }
{
    let spec = runner.spec();
    let world = runner.world();
    if !call.fits(spec, world) {
        return Err(StepRefused::Arguments);
    }
    if let Some(event) = least_unseen(spec, world, &at.order, call, rivals, happened) {
        return Err(StepRefused::Conflict { event });
    }
    ask_lines(runner, &at.state, call)
}

/// Why a taking is refused before its effect is tried.
pub fn taking_asked(taken: &Order, event: u32, seen: &[u32]) -> Option<StepRefused>
    ensures { (next : Option StepRefused)
        → taking_asked taken.now event seen.now next ≡ option_or result next }
{
    if taken.has(event) {
        return Some(StepRefused::Seen);
    }
    if let Some(event) = taken.first_untaken(seen) {
        return Some(StepRefused::Missing { event });
    }
    None
}

/// The state of a replica after a call's effect, written over a spare one that reads as the old one, if there is one.
pub fn state_after_call<R: Runner>(
    runner: &R,
    at: &Replica,
    spare: Option<State>,
    call: &Call,
) -> Result<State, StepRefused>
    requires state { is_state (R.specification runner.now) (R.setting runner.now) at.now.state
        ≡ true }
    requires call { call_fits (R.specification runner.now) (R.setting runner.now) call.now ≡ true }
    requires spare { IsSpare (R.specification runner.now) (R.setting runner.now) at.now.state
        spare }
    ensures reads { IfOk result
        (λ s. reads s
        ≡ after (R.specification runner.now) (R.setting runner.now) call.now (reads at.now.state)) }
    ensures fits { IfOk result
        (λ s. is_state (R.specification runner.now) (R.setting runner.now) s ≡ true) }
    ensures ok { OnOk result
        (effect_refused (R.specification runner.now) (R.setting runner.now) (reads at.now.state)
        call.now
        ≡ None) }
    ensures err { IfErr result
        (λ why. (why ≡ StepRefused.Memory)
        ⊎ (effect_refused (R.specification runner.now) (R.setting runner.now) (reads at.now.state)
        call.now
        ≡ Some why)) }
{
    match runner.effect_over(&at.state, spare, call) {
        Ok(next) => Ok(next),
        Err(
            ApplyRefused::Range {
                counter,
                key,
                value,
            },
        ) => Err(StepRefused::Range {
            counter,
            key,
            value,
        }),
        Err(ApplyRefused::Memory) => Err(StepRefused::Memory),
    }
}
