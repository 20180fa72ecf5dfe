// The lines of a replay's text.

ghost use Rattle.std.specs.Prelude.{◌≡◌, ◌++◌, get_or, OnOk, decimal};
ghost use Rattle.spec_core.specs.Specification.{no_counter};
ghost use Rattle.spec_states.specs.StateText.{spaced};
ghost use Rattle.replay_text.specs.Text.{step_words, step_line, range_words, refusal_words};
ghost use Rattle.replay_text.specs.Text.{broken_words, invariant_name, stop_line};

use crate::stop::Stop;
use replica_replay::{Step, StepRefused};
use spec_core::Spec;
use std::alloc::{AllocError, Global};

/// Adds bytes to a text.
pub fn push(text: &mut Vec<u8>, bytes: &[u8]) -> Result<(), AllocError>
    ensures { OnOk result (text.new.items ≡ text.old.items ++ bytes.now) }
{
    text.extend_from_slice(bytes)
}

/// Adds bytes and a number.
pub fn push_number(
    alloc: Global,
    text: &mut Vec<u8>,
    before: &[u8],
    number: usize,
) -> Result<(), AllocError>
    ensures { OnOk result (text.new.items ≡ text.old.items ++ (before.now ++ decimal number)) }
{
    let digits = number.to_string(alloc)?;
    push(text, before)?;
    push(text, digits.as_bytes())
}

fn push_step_words(alloc: Global, text: &mut Vec<u8>, step: &Step) -> Result<(), AllocError>
    ensures { OnOk result (text.new.items ≡ text.old.items ++ step_words step.now) }
{
    match step {
        Step::Call { replica, .. } => {
            push_number(alloc, text, b"replica ", *replica as usize)?;
            push(text, b" call ")
        }
        Step::Take { replica, .. } => {
            push_number(alloc, text, b"replica ", *replica as usize)?;
            push(text, b" take ")
        }
    }
}

/// Adds the line of an accepted step.
pub fn push_step(
    alloc: Global,
    text: &mut Vec<u8>,
    number: usize,
    step: &Step,
    event: u32,
) -> Result<(), AllocError>
    ensures { OnOk result (text.new.items ≡ text.old.items ++ step_line number step.now event) }
{
    push_number(alloc, text, b"step ", number)?;
    push(text, b" ")?;
    push_step_words(alloc, text, step)?;
    push_number(alloc, text, b"", event as usize)?;
    push(text, b"\n")
}

/// Adds elements, each behind a space.
fn push_spaced(alloc: Global, text: &mut Vec<u8>, elements: &[u32]) -> Result<(), AllocError>
    ensures { OnOk result (text.new.items ≡ text.old.items ++ spaced elements.now) }
{
    for element in elements {
        push_number(alloc, text, b" ", *element as usize)?;
    }
    Ok(())
}

/// Adds the counter, the key and the value of a refused effect.
pub fn push_range(
    alloc: Global,
    text: &mut Vec<u8>,
    spec: &Spec,
    counter: u8,
    key: &[u32],
    value: i128,
) -> Result<(), AllocError>
    ensures { OnOk result
        (text.new.items ≡ text.old.items ++ range_words spec.now counter key.now value) }
{
    let digits = value.to_string(alloc)?;
    push(text, b"range ")?;
    push(text, counter_name(spec, counter))?;
    push_spaced(alloc, text, key)?;
    push(text, b" ")?;
    push(text, digits.as_bytes())
}

/// The name of a counter; empty where there is none.
fn counter_name(spec: &Spec, counter: u8) -> &[u8]
    ensures { result.now ≡ (get_or spec.now.counters counter no_counter).name }
{
    match spec.counters.as_slice().get(counter as usize) {
        Some(found) => found.name.bytes(),
        None => &[],
    }
}

/// The name of an invariant; empty where there is none.
pub fn invariant_name(spec: &Spec, place: usize) -> &[u8]
    ensures { result.now ≡ invariant_name spec.now place }
{
    match spec.invariants.as_slice().get(place) {
        Some(found) => found.name.bytes(),
        None => &[],
    }
}

/// Adds why a step is refused.
fn push_refusal(
    alloc: Global,
    text: &mut Vec<u8>,
    spec: &Spec,
    why: &StepRefused,
) -> Result<(), AllocError>
    ensures { OnOk result (text.new.items ≡ text.old.items ++ refusal_words spec.now why.now) }
{
    match why {
        StepRefused::Replica => push(text, b"replica"),
        StepRefused::Operation => push(text, b"operation"),
        StepRefused::Arguments => push(text, b"arguments"),
        StepRefused::Conflict { event } => push_number(alloc, text, b"conflict ", *event as usize),
        StepRefused::Precondition { line } => {
            push_number(alloc, text, b"precondition ", *line as usize)
        }
        StepRefused::NoEvent => push(text, b"noevent"),
        StepRefused::Seen => push(text, b"seen"),
        StepRefused::Missing { event } => push_number(alloc, text, b"missing ", *event as usize),
        StepRefused::Range {
            counter,
            key,
            value,
        } => push_range(alloc, text, spec, *counter, key.as_slice(), *value),
        StepRefused::Memory => Ok(()),
        StepRefused::Observation { line } => {
            push_number(alloc, text, b"observation ", *line as usize)
        }
    }
}

/// Adds where a state broke, after so many accepted steps.
fn push_broken(alloc: Global, text: &mut Vec<u8>, accepted: usize) -> Result<(), AllocError>
    ensures { OnOk result (text.new.items ≡ text.old.items ++ broken_words accepted) }
{
    if accepted == 0 {
        push(text, b"start")
    } else {
        push_number(alloc, text, b"", accepted - 1)
    }
}

/// Adds the line that says how a replay stops, after so many accepted steps.
pub fn push_stop(
    alloc: Global,
    text: &mut Vec<u8>,
    spec: &Spec,
    accepted: usize,
    stop: &Stop,
) -> Result<(), AllocError>
    ensures { OnOk result
        (text.new.items ≡ text.old.items ++ stop_line spec.now accepted stop.now) }
{
    match stop {
        Stop::Done => push_number(alloc, text, b"done ", accepted)?,
        Stop::Broken(place) => {
            push(text, b"broken ")?;
            push_broken(alloc, text, accepted)?;
            push(text, b" ")?;
            push(text, invariant_name(spec, *place))?;
        }
        Stop::Refused(why) => {
            push_number(alloc, text, b"refused ", accepted)?;
            push(text, b" ")?;
            push_refusal(alloc, text, spec, why)?;
        }
    }
    push(text, b"\n")
}
