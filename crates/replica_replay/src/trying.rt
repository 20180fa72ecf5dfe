// A call that is tried in a state.

ghost use Rattle.std.specs.{Prelude.{◌≡◌, ◌+◌, true, None, IfOk}, Option.{option_map}};
ghost use Rattle.spec_core.specs.{Specification.{op_of}, Meaning.{first_false}, State.{reads}};
ghost use Rattle.spec_core.specs.Fits.{call_fits, is_state};
ghost use Rattle.effectors.specs.Spare.{IsSpare};
ghost use Rattle.replica_replay.specs.Tried.{IsTried};

use crate::conditions::observes_line;
use crate::runner::Runner;
use effectors::ApplyRefused;
use spec_core::Call;
use spec_states::State;
use std::alloc::AllocError;
use token_protocol::WhyVoid;

/// The state after the call, or why it will never run.
#[derive(Drop)]
pub enum Tried {
    Ready(State),
    Never(WhyVoid),
}

// Tries the effect of a call of which no line is false.
fn try_effect<R: Runner>(
    runner: &R,
    state: &State,
    spare: Option<State>,
    call: &Call,
) -> Result<Tried, AllocError>
    requires state { is_state (R.specification runner.now) (R.setting runner.now) state.now ≡ true }
    requires spare { IsSpare (R.specification runner.now) (R.setting runner.now) state.now spare }
    requires call { call_fits (R.specification runner.now) (R.setting runner.now) call.now ≡ true }
    requires ready { None
        ≡ option_map (λ place. place + 1)
        (first_false (R.setting runner.now) (reads state.now) call.now.args
        (op_of (R.specification runner.now) call.now.op).requires_) }
    requires observed { None
        ≡ option_map (λ place. place + 1)
        (first_false (R.setting runner.now) (reads state.now) call.now.args
        (op_of (R.specification runner.now) call.now.op).observes) }
    ensures { IfOk result
        (IsTried (R.specification runner.now) (R.setting runner.now) (reads state.now) call.now) }
{
    match runner.effect_over(state, spare, call) {
        Ok(next) => Ok(Tried::Ready(next)),
        Err(
            ApplyRefused::Range {
                counter,
                key,
                value,
            },
        ) => Ok(Tried::Never(WhyVoid::Range {
            counter,
            key,
            value,
        })),
        Err(ApplyRefused::Memory) => Err(AllocError),
    }
}

/// What `try_call` answers, with a spare state that the effect may be written over.
pub fn try_call_over<R: Runner>(
    runner: &R,
    state: &State,
    spare: &mut Option<State>,
    call: &Call,
) -> Result<Tried, AllocError>
    requires state { is_state (R.specification runner.now) (R.setting runner.now) state.now ≡ true }
    requires spare { IsSpare (R.specification runner.now) (R.setting runner.now) state.now
        spare.old }
    requires call { call_fits (R.specification runner.now) (R.setting runner.now) call.now ≡ true }
    ensures tried { IfOk result
        (IsTried (R.specification runner.now) (R.setting runner.now) (reads state.now) call.now) }
    ensures spare { IsSpare (R.specification runner.now) (R.setting runner.now) state.now
        spare.new }
{
    if let Some(line) = runner.line_broken(state, call)? {
        return Ok(Tried::Never(WhyVoid::Precondition { line }));
    }
    if let Some(line) = observes_line(runner.spec(), runner.world(), state, call) {
        return Ok(Tried::Never(WhyVoid::Observation { line }));
    }
    try_effect(runner, state, spare.take(), call)
}

/// Tries a call in a state: its requires lines, then its observes lines, then its effect.
pub fn try_call<R: Runner>(runner: &R, state: &State, call: &Call) -> Result<Tried, AllocError>
    requires state { is_state (R.specification runner.now) (R.setting runner.now) state.now ≡ true }
    requires call { call_fits (R.specification runner.now) (R.setting runner.now) call.now ≡ true }
    ensures { IfOk result
        (IsTried (R.specification runner.now) (R.setting runner.now) (reads state.now) call.now) }
{
    let mut spare = None;
    try_call_over(runner, state, &mut spare, call)
}
