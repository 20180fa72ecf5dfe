// A host and the nodes of a network ask the application's code: where that lacks memory, so does a step that fits.

ghost use Rattle.std.specs.Prelude.{◌≡◌, ◌≤◌, true};
ghost use Rattle.spec_core.specs.Fits.{world_fits};

use crate::hosts::bank::TWO_DEPOSITS;
use crate::hosts::evaluated::Evaluated;
use crate::hosts::memory::NoMemory;
use crate::hosts::running::bank;
use crate::specifications::spec_of;
use replica_host::{Effect, Guard, Host, Native};
use replica_replay::{Step, StepRefused};
use schedule_json::{Schedule, read_schedule};
use simulate_text::simulate_by;
use spec_core::Spec;
use std::alloc::Global;
use std::process::Abort;

/// Whether a host refuses the first step of a schedule for want of memory.
fn lacks_memory<'a, E: Effect, G: Guard>(
    rt: &impl Abort,
    alloc: Global,
    native: Native<'a, E, G>,
    schedule: &Schedule,
) -> bool {
    let mut host = Host::new(alloc, native, schedule.replicas).expect(rt, "memory");
    let Some(step) = schedule.steps.as_slice().first() else {
        panic!(rt; "no step");
    };
    let answer = host.step(step);
    let lacks = matches!(answer, Err(StepRefused::Memory));
    drop(answer);
    drop(host);
    lacks
}

/// Whether a step lacks memory where the effect does.
fn effect_lacks(rt: &impl Abort, alloc: Global, spec: &Spec, schedule: &Schedule) -> bool
    requires { world_fits spec.now schedule.now.world ≡ true }
{
    let world = &schedule.world;
    let guard = Evaluated { alloc, spec, world };
    let native = Native::new(spec, world, NoMemory {}, guard);
    lacks_memory(rt, alloc, native, schedule)
}

/// Whether a step lacks memory where the guard does.
fn guard_lacks(rt: &impl Abort, alloc: Global, spec: &Spec, schedule: &Schedule) -> bool
    requires { world_fits spec.now schedule.now.world ≡ true }
{
    let world = &schedule.world;
    let effect = Evaluated { alloc, spec, world };
    let native = Native::new(spec, world, effect, NoMemory {});
    lacks_memory(rt, alloc, native, schedule)
}

/// The schedule of two deposits of the bank.
fn two_deposits(rt: &impl Abort, alloc: Global, spec: &Spec) -> Schedule
    ensures world { world_fits spec.now result.world ≡ true }
    ensures some { 1 ≤ result.replicas }
{
    match read_schedule(alloc, spec, TWO_DEPOSITS) {
        Ok(schedule) => schedule,
        Err(_) => panic!(rt; "no schedule"),
    }
}

#[test]
fn the_effect_is_called(rt: HostRuntime) {
    let alloc = rt.alloc();
    let reading = bank(&rt, alloc);
    let spec = spec_of(&rt, &reading);
    let schedule = two_deposits(&rt, alloc, spec);
    let lacks = effect_lacks(&rt, alloc, spec, &schedule);
    drop(schedule);
    reading.let_go();
    assert!(&rt; lacks);
}

#[test]
fn the_guard_is_asked(rt: HostRuntime) {
    let alloc = rt.alloc();
    let reading = bank(&rt, alloc);
    let spec = spec_of(&rt, &reading);
    let schedule = two_deposits(&rt, alloc, spec);
    let lacks = guard_lacks(&rt, alloc, spec, &schedule);
    drop(schedule);
    reading.let_go();
    assert!(&rt; lacks);
}

/// Whether a network that runs a schedule of the bank with an application's code lacks memory.
fn network_lacks_memory<'a, E: Effect, G: Guard>(
    alloc: Global,
    spec: &Spec,
    native: Native<'a, E, G>,
    schedule: &Schedule,
) -> bool
    requires spec { native.spec ≡ spec.now }
    requires some { 1 ≤ schedule.now.replicas }
{
    let steps = schedule.steps.as_slice();
    simulate_by(alloc, spec, native, schedule.replicas, steps).is_err()
}

#[test]
fn the_effect_is_called_by_a_network(rt: HostRuntime) {
    let alloc = rt.alloc();
    let reading = bank(&rt, alloc);
    let spec = spec_of(&rt, &reading);
    let schedule = two_deposits(&rt, alloc, spec);
    let world = &schedule.world;
    let guard = Evaluated { alloc, spec, world };
    let native = Native::new(spec, world, NoMemory {}, guard);
    let lacks = network_lacks_memory(alloc, spec, native, &schedule);
    drop(schedule);
    reading.let_go();
    assert!(&rt; lacks);
}

#[test]
fn the_guard_is_asked_by_a_network(rt: HostRuntime) {
    let alloc = rt.alloc();
    let reading = bank(&rt, alloc);
    let spec = spec_of(&rt, &reading);
    let schedule = two_deposits(&rt, alloc, spec);
    let world = &schedule.world;
    let effect = Evaluated { alloc, spec, world };
    let native = Native::new(spec, world, effect, NoMemory {});
    let lacks = network_lacks_memory(alloc, spec, native, &schedule);
    drop(schedule);
    reading.let_go();
    assert!(&rt; lacks);
}
