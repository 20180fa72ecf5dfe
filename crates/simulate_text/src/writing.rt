// Going through the steps of a schedule, and writing the text.

ghost use Rattle.std.specs.Prelude.{◌≡◌, ◌++◌, ℕ, ◌≤◌, ◌<◌, true, Some, length, slice_get, IfOk};
ghost use Rattle.std.specs.Prelude.{OnOk};
ghost use Rattle.spec_core.specs.{declared.world.World.{World as Setting}, Fits.{world_fits}};
ghost use Rattle.replica_replay.specs.Steps.{operation_named as named_operation};
ghost use Rattle.token_core.specs.HeldNet.{HeldReplica, replica_of as replica_held, network_held};
ghost use Rattle.simulate_text.specs.Lines.{said_lines};
ghost use Rattle.simulate_text.specs.Course.{calls, takes, part_of, replica_of, course_from};
ghost use Rattle.simulate_text.specs.Course.{course};
ghost use Rattle.simulate_text.specs.Text.{replica_text, replica_texts, simulate_text};
ghost use Rattle.simulate_text.specs.Text.{simulate_status, status_of};
ghost use Rattle.simulate_text.specs.Reached.{simulated_in, IsAsked, IsFirst, Does, IsStep};
ghost use Rattle.simulate_text.specs.Reached.{IsReached};

use crate::lines::{push_lines, push_stop};
use crate::said::{SimulateRefused, Stop};
use crate::simulation::{Simulation, as_number, broken_of, number_at};
use byte_ports::{ACCEPTED, Answer, REFUSED, REJECTED};
use items::Items;
use replay_text::{push, push_number};
use replica_replay::{Step, operation_named};
use spec_core::{Call, Spec, World};
use spec_states::write_state;
use std::alloc::{AllocError, Global};
use token_core::{Net, Plain, Runner};

/// The replica of a step.
fn replica_of(step: &Step) -> u32
    ensures { result ≡ replica_of step.now }
{
    match step {
        Step::Call { replica, .. } => *replica,
        Step::Take { replica, .. } => *replica,
    }
}

// A replica calls an operation by its name.
fn call_named<R: Runner + Drop>(
    alloc: Global,
    sim: &mut Simulation<R>,
    replica: u32,
    name: &[u8],
    args: &[i64],
) -> Result<Option<Stop>, AllocError>
    ensures { Does (λ d w. calls d w replica args.now (named_operation d name.now)) sim.old sim.new
        result }
{
    let Some(op) = operation_named(sim.net.runner().spec(), name) else {
        return Ok(Some(Stop::Refused(SimulateRefused::Operation)));
    };
    let args = Items::from_slice(alloc, args)?;
    sim.call(replica, Call { op, args })
}

// A replica takes an event by its number.
fn take_numbered<R: Runner + Drop>(
    sim: &mut Simulation<R>,
    replica: u32,
    event: u32,
) -> Result<Option<Stop>, AllocError>
    ensures { Does (λ d w s. takes d w replica event (slice_get s.dones event) s) sim.old sim.new
        result }
{
    match number_at(&sim.dones, event) {
        Some(done) => sim.take(replica, event, done),
        None => Ok(Some(Stop::Refused(SimulateRefused::NoEvent))),
    }
}

/// Carries a recorded step out.
fn carry_out<R: Runner + Drop>(
    alloc: Global,
    sim: &mut Simulation<R>,
    step: &Step,
) -> Result<Option<Stop>, AllocError>
    ensures { Does (λ d w. part_of d w step.now) sim.old sim.new result }
{
    if replica_of(step) as usize >= sim.net.replica_count() {
        return Ok(Some(Stop::Refused(SimulateRefused::Replica)));
    }
    match step {
        Step::Call { replica, op, args } => {
            call_named(alloc, sim, *replica, op.bytes(), args.as_slice())
        }
        Step::Take { replica, event } => take_numbered(sim, *replica, *event),
    }
}

/// Carries a recorded step out, and adds its lines.
fn write_step<R: Runner + Drop>(
    alloc: Global,
    spec: &Spec,
    sim: &mut Simulation<R>,
    number: usize,
    step: &Step,
    text: &mut Vec<u8>,
) -> Result<Option<Stop>, AllocError>
    ensures { IfOk result
        (λ stop. (w : Setting) → IsAsked spec.now w sim.old
        → IsStep spec.now w (part_of spec.now w step.now (simulated_in sim.old))
        (said_lines spec.now number (replica_of step.now)) text.old.items
        (record { text = text.new.items; stop = stop; sim = sim.new })) }
{
    sim.said.clear();
    let stop = carry_out(alloc, sim, step)?;
    let replica = replica_of(step);
    match push_lines(alloc, text, spec, number, replica, sim.said.as_slice()) {
        Ok(()) => Ok(stop),
        Err(error) => {
            drop(stop);
            Err(error)
        }
    }
}

/// How a simulation has stopped, and at which step.
#[derive(Drop)]
struct Stopped {
    at: usize,
    stop: Stop,
}

/// Carries steps out, up to the one at which it stops, and adds their lines.
fn write_steps<R: Runner + Drop>(
    alloc: Global,
    spec: &Spec,
    sim: &mut Simulation<R>,
    steps: &[Step],
    text: &mut Vec<u8>,
) -> Result<Stopped, AllocError>
    ensures { IfOk result
        (λ s. (w : Setting) → IsAsked spec.now w sim.old
        → IsReached spec.now w (course_from spec.now w 0 steps.now (simulated_in sim.old))
        text.old.items
        (record { text = text.new.items; at = s.at; stop = s.stop; sim = sim.new })) }
{
    for (number, step) in steps.iter().enumerate() {
        match write_step(alloc, spec, sim, number, step, text)? {
            Some(stop) => return Ok(Stopped { at: number, stop }),
            None => {}
        }
    }
    Ok(Stopped {
        at: steps.len(),
        stop: Stop::Done,
    })
}

/// Carries a whole schedule out, and adds the lines of its steps.
fn write_course<R: Runner + Drop>(
    alloc: Global,
    spec: &Spec,
    sim: &mut Simulation<R>,
    steps: &[Step],
    text: &mut Vec<u8>,
) -> Result<Stopped, AllocError>
    ensures { IfOk result
        (λ s. (w : Setting) (replicas : ℕ) → 1 ≤ replicas → IsFirst spec.now w replicas sim.old
        → IsReached spec.now w (course spec.now w replicas steps.now) text.old.items
        (record { text = text.new.items; at = s.at; stop = s.stop; sim = sim.new })) }
{
    match broken_of(&sim.net, 0) {
        Some(place) => Ok(Stopped {
            at: 0,
            stop: Stop::BrokenFirst(place),
        }),
        None => write_steps(alloc, spec, sim, steps, text),
    }
}

/// Adds the lines of a replica.
fn push_replica<R: Runner + Drop>(
    alloc: Global,
    text: &mut Vec<u8>,
    net: &Net<R>,
    replica: u32,
) -> Result<(), AllocError>
    requires { replica < length net.now.replicas }
    ensures { OnOk result
        ((at : HeldReplica) → slice_get net.now.replicas replica ≡ Some at
        → text.new.items
        ≡ text.old.items ++ replica_text net.now.spec net.now.world replica (replica_held at)) }
{
    push_number(alloc, text, b"replica ", replica as usize)?;
    push_number(alloc, text, b" taken ", net.taken(replica).len())?;
    push(text, b"\n")?;
    write_state(alloc, net.runner().spec(), net.state_of(replica), text)
}

/// Adds the lines of all replicas.
fn push_replicas<R: Runner + Drop>(
    alloc: Global,
    text: &mut Vec<u8>,
    net: &Net<R>,
) -> Result<(), AllocError>
    ensures { OnOk result
        (text.new.items
        ≡ text.old.items
        ++ replica_texts net.now.spec net.now.world 0 (network_held net.now).replicas) }
{
    let count = as_number(net.replica_count())?;
    for replica in 0..count {
        push_replica(alloc, text, net, replica)?;
    }
    Ok(())
}

/// The status that a stop comes to.
fn status_of(stop: &Stop) -> u8
    ensures { result ≡ status_of stop.now }
{
    match stop {
        Stop::Done => ACCEPTED,
        Stop::BrokenFirst(_) => REJECTED,
        Stop::Broken(_) => REJECTED,
        Stop::Refused(_) => REFUSED,
    }
}

/// Writes a course and how it stops, and answers the status.
fn write_simulation<R: Runner + Drop>(
    alloc: Global,
    spec: &Spec,
    sim: &mut Simulation<R>,
    steps: &[Step],
    text: &mut Vec<u8>,
) -> Result<u8, AllocError>
    ensures text { OnOk result
        ((w : Setting) (replicas : ℕ) → 1 ≤ replicas → IsFirst spec.now w replicas sim.old
        → text.new.items ≡ text.old.items ++ simulate_text spec.now w replicas steps.now) }
    ensures status { IfOk result
        (λ status. (w : Setting) (replicas : ℕ) → 1 ≤ replicas
        → IsFirst spec.now w replicas sim.old
        → status ≡ simulate_status spec.now w replicas steps.now) }
{
    push(text, b"cise simulate 1\n")?;
    let stopped = write_course(alloc, spec, sim, steps, text)?;
    push_stop(alloc, text, spec, stopped.at, &stopped.stop)?;
    push_replicas(alloc, text, &sim.net)?;
    Ok(status_of(&stopped.stop))
}

/// Simulates the steps of a schedule, at so many replicas, with the code of a runner for the specification's preconditions and effects:
/// a text, and a status, which is 0 where all steps were carried out and no state broke, 1 where a state broke, 4 where a step was
/// refused.
pub fn simulate_by<R: Runner + Drop>(
    alloc: Global,
    spec: &Spec,
    runner: R,
    replicas: u32,
    steps: &[Step],
) -> Result<Answer, AllocError>
    requires spec { R.specification runner ≡ spec.now }
    requires some { 1 ≤ replicas }
    ensures text { IfOk result
        (λ report. report.text.items
        ≡ simulate_text spec.now (R.setting runner) replicas steps.now) }
    ensures status { IfOk result
        (λ report. report.status ≡ simulate_status spec.now (R.setting runner) replicas steps.now) }
{
    let mut text = Vec::new(alloc);
    let mut sim = Simulation::new(alloc, runner, replicas)?;
    let status = write_simulation(alloc, spec, &mut sim, steps, &mut text)?;
    drop(sim);
    Ok(Answer { status, text })
}

/// Simulates the steps of a schedule, at so many replicas in a world, with the text and the status of `simulate_by`.
pub fn simulate(
    alloc: Global,
    spec: &Spec,
    world: &World,
    replicas: u32,
    steps: &[Step],
) -> Result<Answer, AllocError>
    requires world { world_fits spec.now world.now ≡ true }
    requires some { 1 ≤ replicas }
    ensures text { IfOk result
        (λ report. report.text.items ≡ simulate_text spec.now world.now replicas steps.now) }
    ensures status { IfOk result
        (λ report. report.status ≡ simulate_status spec.now world.now replicas steps.now) }
{
    let plain = Plain::new(alloc, spec, world);
    simulate_by(alloc, spec, plain, replicas, steps)
}
