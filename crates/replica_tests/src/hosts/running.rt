// Hosts of the bank. What is no specification or no schedule, and what lacks memory, ends the test.

ghost use Rattle.std.specs.Prelude.{◌≡◌, ◌≤◌, true};
ghost use Rattle.spec_core.specs.Fits.{world_fits};

use crate::hosts::evaluated::Evaluated;
use crate::specifications::{read, spec_of};
use byte_ports::Answer;
use example_specs::PURSES;
use replay_text::replay_by;
use replica_host::{Effect, Guard, Host, Native};
use schedule_json::{Schedule, read_schedule};
use spec_core::{Spec, World};
use spec_from_bytes::Reading;
use std::alloc::Global;
use std::process::Abort;

/// What the text of the bank is read as.
pub fn bank(rt: &impl Abort, alloc: Global) -> Reading {
    read(rt, alloc, PURSES)
}

/// The text and the status of a schedule that a host goes through.
fn report_of<'a, E: Effect, G: Guard>(
    rt: &impl Abort,
    alloc: Global,
    spec: &Spec,
    native: Native<'a, E, G>,
    schedule: &Schedule,
) -> Answer
    requires spec { native.spec ≡ spec.now }
    requires some { 1 ≤ schedule.now.replicas }
{
    let mut host = Host::new(alloc, native, schedule.replicas).expect(rt, "memory");
    let report = replay_by(
        alloc,
        spec,
        &mut host,
        schedule.replicas,
        schedule.steps.as_slice(),
    );
    drop(host);
    report.expect(rt, "memory")
}

/// A specification in a world, with code that evaluates it.
pub fn evaluating<'a>(
    alloc: Global,
    spec: &'a Spec,
    world: &'a World,
) -> Native<'a, Evaluated<'a>, Evaluated<'a>>
    requires { world_fits spec.now world.now ≡ true }
    ensures { result.spec ≡ spec.now }
{
    let effect = Evaluated { alloc, spec, world };
    let guard = Evaluated { alloc, spec, world };
    Native::new(spec, world, effect, guard)
}

/// The text and the status of a schedule of the bank, by a host whose code evaluates its lines and updates.
pub fn hosted(rt: &impl Abort, alloc: Global, text: &[u8]) -> Answer {
    let reading = bank(rt, alloc);
    let spec = spec_of(rt, &reading);
    let Ok(schedule) = read_schedule(alloc, spec, text) else {
        panic!(rt; "no schedule");
    };
    let native = evaluating(alloc, spec, &schedule.world);
    let report = report_of(rt, alloc, spec, native, &schedule);
    drop(schedule);
    reading.let_go();
    report
}
