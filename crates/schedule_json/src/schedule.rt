// Schedules, and reading them.

ghost use Rattle.std.specs.Prelude.{◌≡◌, ◌⊎◌, length, option_map, option_and_then, Ok, Err, IfOk};
ghost use Rattle.std.specs.Prelude.{IfErr, codes};
ghost use Rattle.serde_json.specs.{View.{view}, Find.{get}};
ghost use Rattle.schedule_json.specs.Parts.{whole, has_exactly};
ghost use Rattle.schedule_json.specs.Schedules.{count_of, schedule_keys, schedule_of};
ghost use Rattle.schedule_json.specs.{Schedules.{schedule_from}, Fitting.{IsScheduleOf}};

use crate::parts::has_members;
use crate::recorded::read_steps;
use crate::refusal::{Fault, Path, ScheduleRefused};
use crate::worlds::read_world;
use items::Items;
use replica_replay::Step;
use serde_json::Value;
use spec_core::{Spec, World};
use std::alloc::Global;

/// A recorded schedule: a world, a number of replicas, and steps.
#[derive(Drop)]
pub struct Schedule {
    pub world: World,
    pub replicas: u32,
    pub steps: Items<Step>,
}

const MOST_REPLICAS: i64 = 16;

/// A number of replicas.
fn replica_count(value: Option<&Value>) -> Result<u32, Fault>
    ensures { result ≡ count_of (option_and_then whole (option_map (λ v. view v.now) value.entry)) }
{
    match value.and_then(Value::as_i64) {
        None => Err(Fault::Shape),
        Some(count) => {
            if 1 <= count && count <= MOST_REPLICAS {
                Ok(count as u32)
            } else {
                Err(Fault::Size)
            }
        }
    }
}

/// Whether it is an object with exactly the keys of a schedule.
fn is_keyed(value: &Value) -> bool
    ensures { result ≡ has_exactly schedule_keys (view value.now) }
{
    has_members(value, 4)
        && value.get("sizes").is_some()
        && value.get("constants").is_some()
        && value.get("replicas").is_some()
        && value.get("steps").is_some()
}

/// The schedule that a value is.
fn from_value(alloc: Global, spec: &Spec, value: &Value) -> Result<Schedule, ScheduleRefused>
    ensures ok { IfOk result (λ schedule. schedule_of spec.now (view value.now) ≡ Ok schedule) }
    ensures err { IfErr result
        (λ why. (why ≡ ScheduleRefused.Memory)
        ⊎ (schedule_of spec.now (view value.now) ≡ Err why)) }
{
    if !is_keyed(value) {
        return Err(ScheduleRefused::Shape { path: Path::Top });
    }
    let world = read_world(alloc, spec, value)?;
    let replicas = match replica_count(value.get("replicas")) {
        Ok(replicas) => replicas,
        Err(fault) => return Err(fault.at(Path::Replicas)),
    };
    let steps = read_steps(alloc, value.get("steps"))?;
    Ok(Schedule {
        world,
        replicas,
        steps,
    })
}

/// Reads a schedule of a specification. The first check that fails is answered, in the order of the members `sizes`, `constants`,
/// `replicas` and `steps`.
pub fn read_schedule(alloc: Global, spec: &Spec, bytes: &[u8]) -> Result<Schedule, ScheduleRefused>
    ensures ok { IfOk result (λ schedule. schedule_from spec.now bytes.now ≡ Ok schedule) }
    ensures err { IfErr result
        (λ why. (why ≡ ScheduleRefused.Memory) ⊎ (schedule_from spec.now bytes.now ≡ Err why)) }
    ensures fits { IfOk result (IsScheduleOf spec.now) }
{
    match Value::from_slice(alloc, bytes) {
        Ok(value) => from_value(alloc, spec, &value),
        Err(error) => {
            if error.is_memory() {
                Err(ScheduleRefused::Memory)
            } else {
                Err(ScheduleRefused::Json)
            }
        }
    }
}
