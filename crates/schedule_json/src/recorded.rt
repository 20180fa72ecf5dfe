// The steps of a schedule.

ghost use Rattle.std.specs.Prelude.{◌≡◌, ◌⊎◌, ◌≤◌, length, option_map, option_and_then, Ok, Err};
ghost use Rattle.std.specs.Prelude.{IfOk, IfErr, codes};
ghost use Rattle.serde_json.specs.{View.{view, items_view}, Find.{as_array}};
ghost use Rattle.schedule_json.specs.Parts.{has_exactly};
ghost use Rattle.schedule_json.specs.Recorded.{number as number_of, name as name_of, wholes};
ghost use Rattle.schedule_json.specs.Recorded.{arguments, call_keys, taking_keys, call_from};
ghost use Rattle.schedule_json.specs.Recorded.{taking_from, step_of, most_steps, steps_at};
ghost use Rattle.schedule_json.specs.Recorded.{steps_of};

use crate::parts::{has_members, natural};
use crate::refusal::{Path, ScheduleRefused};
use items::Items;
use replica_replay::Step;
use serde_json::Value;
use spec_core::Name;
use std::alloc::{AllocError, Global};

/// The most steps of a schedule.
const MOST_STEPS: usize = 10_000;

/// The most bytes of an operation's name.
const MOST_NAME_BYTES: usize = 32;

/// The number of a replica or an event.
fn number(value: &Value) -> Option<u32>
    ensures { result ≡ number_of (view value.now) }
{
    match natural(value) {
        Some(number) => u32::try_from(number).ok(),
        None => None,
    }
}

/// The name of a called operation.
fn name(value: &Value) -> Option<&str>
    ensures { option_map (λ text. text.now) result ≡ name_of (view value.now) }
{
    match value.as_str() {
        Some(text) if 1 <= text.len() && text.len() <= MOST_NAME_BYTES => Some(text),
        _ => None,
    }
}

/// The arguments of a call: a list of whole numbers.
fn read_arguments(alloc: Global, list: &[Value]) -> Result<Option<Items<i64>>, AllocError>
    ensures { IfOk result (λ arguments. arguments ≡ wholes (items_view list.now)) }
{
    let mut arguments = Items::new(alloc);
    for value in list {
        match value.as_i64() {
            Some(number) => arguments.push(number)?,
            None => return Ok(None),
        }
    }
    Ok(Some(arguments))
}

/// Whether it is an object with exactly the keys of a call.
fn is_keyed_as_call(value: &Value) -> bool
    ensures { result ≡ has_exactly call_keys (view value.now) }
{
    has_members(value, 3)
        && value.get("replica").is_some()
        && value.get("call").is_some()
        && value.get("args").is_some()
}

/// Whether it is an object with exactly the keys of a taking.
fn is_keyed_as_taking(value: &Value) -> bool
    ensures { result ≡ has_exactly taking_keys (view value.now) }
{
    has_members(value, 2) && value.get("replica").is_some() && value.get("take").is_some()
}

/// A call, from what stands at its keys.
fn read_call(
    alloc: Global,
    replica: Option<&Value>,
    called: Option<&Value>,
    args: Option<&Value>,
) -> Result<Option<Step>, AllocError>
    ensures { IfOk result
        (λ step. step
        ≡ call_from (option_map (λ v. view v.now) replica.entry)
        (option_map (λ v. view v.now) called.entry) (option_map (λ v. view v.now) args.entry)) }
{
    let Some(replica) = replica.and_then(number) else {
        return Ok(None);
    };
    let Some(called) = called.and_then(name) else {
        return Ok(None);
    };
    let Some(list) = args.and_then(Value::as_array) else {
        return Ok(None);
    };
    match read_arguments(alloc, list)? {
        Some(args) => {
            let op = Name::new(alloc, called.as_bytes())?;
            Ok(Some(Step::Call { replica, op, args }))
        }
        None => Ok(None),
    }
}

/// A taking, from what stands at its keys.
fn read_taking(replica: Option<&Value>, taken: Option<&Value>) -> Option<Step>
    ensures { result
        ≡ taking_from (option_map (λ v. view v.now) replica.entry)
        (option_map (λ v. view v.now) taken.entry) }
{
    let replica = replica.and_then(number)?;
    let event = taken.and_then(number)?;
    Some(Step::Take { replica, event })
}

/// The step that a value is.
fn read_step(alloc: Global, value: &Value) -> Result<Option<Step>, AllocError>
    ensures { IfOk result (λ step. step ≡ step_of (view value.now)) }
{
    if is_keyed_as_call(value) {
        return read_call(
            alloc,
            value.get("replica"),
            value.get("call"),
            value.get("args"),
        );
    }
    if is_keyed_as_taking(value) {
        return Ok(read_taking(value.get("replica"), value.get("take")));
    }
    Ok(None)
}

/// The steps, of which there aren't too many.
fn read_each_step(alloc: Global, list: &[Value]) -> Result<Items<Step>, ScheduleRefused>
    requires { length list.now ≤ most_steps }
    ensures ok { IfOk result (λ steps. steps_at 0 (items_view list.now) ≡ Ok steps) }
    ensures err { IfErr result
        (λ why. (why ≡ ScheduleRefused.Memory) ⊎ (steps_at 0 (items_view list.now) ≡ Err why)) }
{
    let mut steps = Items::new(alloc);
    for (place, value) in list.iter().enumerate() {
        match read_step(alloc, value)? {
            Some(step) => steps.push(step)?,
            None => {
                return Err(ScheduleRefused::Shape {
                    path: Path::Step(place as u32),
                });
            }
        }
    }
    Ok(steps)
}

/// The elements of a list.
fn elements(value: Option<&Value>) -> Option<&[Value]>
    ensures { option_map (λ list. items_view list.now) result
        ≡ option_and_then as_array (option_map (λ v. view v.now) value.entry) }
{
    match value.and_then(Value::as_array) {
        Some(list) => Some(list.as_slice()),
        None => None,
    }
}

/// The steps of a schedule.
pub fn read_steps(alloc: Global, value: Option<&Value>) -> Result<Items<Step>, ScheduleRefused>
    ensures ok { IfOk result
        (λ steps. steps_of (option_map (λ v. view v.now) value.entry) ≡ Ok steps) }
    ensures err { IfErr result
        (λ why. (why ≡ ScheduleRefused.Memory)
        ⊎ (steps_of (option_map (λ v. view v.now) value.entry) ≡ Err why)) }
{
    let Some(list) = elements(value) else {
        return Err(ScheduleRefused::Shape { path: Path::Steps });
    };
    if MOST_STEPS < list.len() {
        return Err(ScheduleRefused::Size { path: Path::Steps });
    }
    read_each_step(alloc, list)
}
