// Going through the steps of a schedule, and writing the text.

ghost use Rattle.std.specs.Prelude.{◌≡◌, ◌++◌, [], ◌∷◌, ◌+◌, ◌<◌, ◌≤◌, ◌^◌, true, length, take};
ghost use Rattle.std.specs.Prelude.{get_or, IfOk, OnOk, codes};
ghost use Rattle.spec_core.specs.Fits.{world_fits};
ghost use Rattle.spec_states.specs.StateText.{state_text};
ghost use Rattle.replay_text.specs.Course.{state_at, replica_of, course_from, course};
ghost use Rattle.replay_text.specs.Text.{step_lines, stop_line, replica_text, replica_texts};
ghost use Rattle.replay_text.specs.Text.{replay_text, replay_status, status_of};
ghost use Rattle.replay_text.specs.Reached.{HasReplica, IsNew, SameSetting, broken_of, IsStepped};
ghost use Rattle.replay_text.specs.Reached.{IsReached};
ghost use Rattle.replay_text.specs.Asked.{AllHeld, OthersHeld, IsFrontElsewhere, LedBy};
ghost use Rattle.replica_replay.specs.Held.{none_held};

use crate::lines::{push, push_number, push_step, push_stop};
use crate::stop::Stop;
use byte_ports::{ACCEPTED, Answer, REFUSED, REJECTED};
use replica_replay::{Plain, Replay, Runner, Step, StepRefused};
use spec_core::{Spec, World, invariant_broken_at};
use spec_states::write_state;
use std::alloc::{AllocError, Global};
use touched_lines::invariant_broken_after;

/// The replica of a step.
fn replica_of(step: &Step) -> u32
    ensures { result ≡ replica_of step.now }
{
    match step {
        Step::Call { replica, .. } => *replica,
        Step::Take { replica, .. } => *replica,
    }
}

/// The first invariant that the state of a replica breaks.
fn broken_invariant<R: Runner + Drop>(
    spec: &Spec,
    replay: &Replay<R>,
    replica: u32,
) -> Option<usize>
    requires replica { HasReplica spec.now replay.now replica }
    ensures { result ≡ broken_of spec.now replay.now replica }
{
    invariant_broken_at(spec, replay.world(), replay.state_of(replica))
}

// Whether the one list is a front of the other.
fn is_front(mine: &[u32], theirs: &[u32]) -> bool
    ensures { result ≡ true → mine.now ≡ take (length mine.now) theirs.now }
{
    mine.len() <= theirs.len() && mine == &theirs[..mine.len()]
}

// Whether a replica has taken what another one has taken first.
fn is_front_elsewhere<R: Runner + Drop>(replay: &Replay<R>, replica: u32) -> bool
    requires { replica < length replay.now.held.taken }
    ensures { result ≡ true → IsFrontElsewhere replay.now.held replica }
{
    let count = replay.replica_count();
    if count > u32::MAX as usize {
        return false;
    }
    let mine = replay.seen_by(replica);
    for other in 0..count as u32 {
        if other != replica && is_front(mine, replay.seen_by(other)) {
            return true;
        }
    }
    false
}

/// The first invariant that the state of a replica breaks, which an event has led to it from a state in which all held. Those aren't
/// asked that read nothing that the event's operation writes.
fn broken_by<R: Runner + Drop>(
    spec: &Spec,
    replay: &Replay<R>,
    replica: u32,
    event: u32,
) -> Option<usize>
    requires replica { HasReplica spec.now replay.now replica }
    requires event { event < length replay.now.held.events }
    requires led { LedBy spec.now replay.now.world
        replay.now.held replica event }
    ensures { result ≡ broken_of spec.now replay.now replica }
{
    invariant_broken_after(
        spec,
        replay.world(),
        replay.state_of(replica),
        replay.call_of(event),
    )
}

/// The first invariant that the state of a replica breaks after an event that it took. None is asked where another replica has had that
/// state.
fn broken_after<R: Runner + Drop>(
    spec: &Spec,
    replay: &Replay<R>,
    replica: u32,
    event: u32,
) -> Option<usize>
    requires replica { HasReplica spec.now replay.now replica }
    requires event { event < length replay.now.held.events }
    requires others { OthersHeld spec.now replay.now.world
        replay.now.held replica }
    requires led { LedBy spec.now replay.now.world
        replay.now.held replica event }
    ensures { result ≡ broken_of spec.now replay.now replica }
{
    if is_front_elsewhere(replay, replica) {
        return None;
    }
    broken_by(spec, replay, replica, event)
}

/// What a step led to.
#[derive(Drop)]
enum Stepped {
    /// It was accepted, with its event, and its replica's state breaks no invariant.
    Accepted(u32),
    /// It was accepted, with its event, and its replica's state breaks this invariant.
    Broken(u32, usize),
    Refused(StepRefused),
}

/// Carries a step out, and asks the invariants of its replica's state.
fn carry_out<R: Runner + Drop>(
    spec: &Spec,
    replay: &mut Replay<R>,
    step: &Step,
) -> Result<Stepped, AllocError>
    requires spec { replay.old.spec ≡ spec.now }
    requires holds { AllHeld spec.now replay.old.world replay.old.held }
    ensures stepped { IfOk result
        (λ s. IsStepped spec.now replay.old.world replay.old.held step.now
        s replay.new.held) }
    ensures setting { OnOk result (SameSetting replay.old replay.new) }
{
    replay.is_held();
    match replay.step(step) {
        Ok(taken) => match broken_after(spec, replay, replica_of(step), taken.event) {
            Some(place) => Ok(Stepped::Broken(taken.event, place)),
            None => Ok(Stepped::Accepted(taken.event)),
        },
        Err(StepRefused::Memory) => Err(AllocError),
        Err(why) => Ok(Stepped::Refused(why)),
    }
}

/// How a replay has stopped, and after how many accepted steps.
#[derive(Drop)]
struct Stopped {
    accepted: usize,
    stop: Stop,
}

/// Carries steps out, up to the first that is refused or breaks an invariant, and adds the lines of the accepted ones.
fn write_steps<R: Runner + Drop>(
    alloc: Global,
    spec: &Spec,
    replay: &mut Replay<R>,
    steps: &[Step],
    text: &mut Vec<u8>,
) -> Result<Stopped, AllocError>
    requires spec { replay.old.spec ≡ spec.now }
    requires holds { AllHeld spec.now replay.old.world replay.old.held }
    ensures reached { IfOk result
        (λ s. IsReached
        (course_from spec.now replay.old.world replay.old.held steps.now)
        steps.now text.old.items
        (record { text = text.new.items; stopped = s; held = replay.new.held })) }
    ensures setting { OnOk result (SameSetting replay.old replay.new) }
{
    for (number, step) in steps.iter().enumerate() {
        replay.is_held();
        match carry_out(spec, replay, step)? {
            Stepped::Accepted(event) => push_step(alloc, text, number, step, event)?,
            Stepped::Broken(event, place) => {
                push_step(alloc, text, number, step, event)?;
                return Ok(Stopped {
                    accepted: number + 1,
                    stop: Stop::Broken(place),
                });
            }
            Stepped::Refused(why) => {
                return Ok(Stopped {
                    accepted: number,
                    stop: Stop::Refused(why),
                });
            }
        }
    }
    Ok(Stopped {
        accepted: steps.len(),
        stop: Stop::Done,
    })
}

/// Adds the lines of a replica's state.
fn push_state<R: Runner + Drop>(
    alloc: Global,
    text: &mut Vec<u8>,
    spec: &Spec,
    replay: &Replay<R>,
    replica: u32,
) -> Result<(), AllocError>
    requires replica { HasReplica spec.now replay.now replica }
    ensures { OnOk result
        (text.new.items
        ≡ text.old.items
        ++ state_text spec.now replay.now.world
        (state_at spec.now replay.now.world replay.now.held replica)) }
{
    write_state(alloc, spec, replay.state_of(replica), text)
}

/// Adds the lines of a replica.
fn push_replica<R: Runner + Drop>(
    alloc: Global,
    text: &mut Vec<u8>,
    spec: &Spec,
    replay: &Replay<R>,
    replica: u32,
) -> Result<(), AllocError>
    requires replica { HasReplica spec.now replay.now replica }
    ensures { OnOk result
        (text.new.items
        ≡ text.old.items
        ++ replica_text spec.now replay.now.world replay.now.held replica
        (get_or replay.now.held.taken replica [])) }
{
    push_number(alloc, text, b"replica ", replica as usize)?;
    push_number(alloc, text, b" taken ", replay.seen_by(replica).len())?;
    push(text, b"\n")?;
    push_state(alloc, text, spec, replay, replica)
}

/// Adds the lines of all replicas.
fn push_replicas<R: Runner + Drop>(
    alloc: Global,
    text: &mut Vec<u8>,
    spec: &Spec,
    replay: &Replay<R>,
    count: u32,
) -> Result<(), AllocError>
    requires spec { replay.now.spec ≡ spec.now }
    requires count { length replay.now.held.taken ≡ count }
    ensures { OnOk result
        (text.new.items
        ≡ text.old.items
        ++ replica_texts spec.now replay.now.world replay.now.held 0
        replay.now.held.taken) }
{
    for replica in 0..count {
        push_replica(alloc, text, spec, replay, replica)?;
    }
    Ok(())
}

/// Carries a whole schedule out, and adds the lines of the accepted steps.
fn write_course<R: Runner + Drop>(
    alloc: Global,
    spec: &Spec,
    replay: &mut Replay<R>,
    replicas: u32,
    steps: &[Step],
    text: &mut Vec<u8>,
) -> Result<Stopped, AllocError>
    requires { IsNew spec.now replicas replay.old }
    ensures reached { IfOk result
        (λ s. IsReached (course spec.now replay.old.world replicas steps.now) steps.now
        text.old.items
        (record { text = text.new.items; stopped = s; held = replay.new.held })) }
    ensures setting { OnOk result (SameSetting replay.old replay.new) }
{
    match broken_invariant(spec, replay, 0) {
        Some(place) => Ok(Stopped {
            accepted: 0,
            stop: Stop::Broken(place),
        }),
        None => write_steps(alloc, spec, replay, steps, text),
    }
}

/// The status that a stop comes to.
fn status_of(stop: &Stop) -> u8
    ensures { result ≡ status_of stop.now }
{
    match stop {
        Stop::Done => ACCEPTED,
        Stop::Broken(_) => REJECTED,
        Stop::Refused(_) => REFUSED,
    }
}

/// Writes a course and how it stops, and answers the status.
fn write_replay<R: Runner + Drop>(
    alloc: Global,
    spec: &Spec,
    replay: &mut Replay<R>,
    replicas: u32,
    steps: &[Step],
    text: &mut Vec<u8>,
) -> Result<u8, AllocError>
    requires { IsNew spec.now replicas replay.old }
    ensures text { OnOk result
        (text.new.items
        ≡ text.old.items ++ replay_text spec.now replay.old.world replicas steps.now) }
    ensures status { IfOk result
        (λ status. status
        ≡ replay_status spec.now replay.old.world replicas steps.now) }
{
    push(text, b"cise replay 1\n")?;
    let stopped = write_course(alloc, spec, replay, replicas, steps, text)?;
    push_stop(alloc, text, spec, stopped.accepted, &stopped.stop)?;
    push_replicas(alloc, text, spec, replay, replicas)?;
    Ok(status_of(&stopped.stop))
}

/// Carries the steps of a schedule out, by a replay over any runner that has accepted none yet: the text of the replay, and a status, which is 0 where all steps were accepted and no state broke, 1 where a state broke, 4 where a step was refused.
pub fn replay_by<R: Runner + Drop>(
    alloc: Global,
    spec: &Spec,
    replay: &mut Replay<R>,
    replicas: u32,
    steps: &[Step],
) -> Result<Answer, AllocError>
    requires spec { replay.old.spec ≡ spec.now }
    requires held { replay.old.held ≡ none_held replicas }
    requires some { 1 ≤ replicas }
    ensures text { IfOk result
        (λ report. report.text.items
        ≡ replay_text spec.now replay.old.world replicas steps.now) }
    ensures status { IfOk result
        (λ report. report.status
        ≡ replay_status spec.now replay.old.world replicas steps.now) }
{
    let mut text = Vec::new(alloc);
    let status = write_replay(alloc, spec, replay, replicas, steps, &mut text)?;
    Ok(Answer { status, text })
}

/// Replays the steps of a schedule, at so many replicas in a world, with the text and the status of `replay_by`.
pub fn replay(
    alloc: Global,
    spec: &Spec,
    world: World,
    replicas: u32,
    steps: &[Step],
) -> Result<Answer, AllocError>
    requires world { world_fits spec.now world ≡ true }
    requires some { 1 ≤ replicas }
    ensures text { IfOk result
        (λ report. report.text.items ≡ replay_text spec.now world replicas steps.now) }
    ensures status { IfOk result
        (λ report. report.status ≡ replay_status spec.now world replicas steps.now) }
{
    let runner = Plain::new(alloc, spec, &world);
    let mut replay = Replay::new(alloc, runner, replicas)?;
    replay_by(alloc, spec, &mut replay, replicas, steps)
}
