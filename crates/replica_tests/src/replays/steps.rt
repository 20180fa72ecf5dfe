// Worked examples of steps: those that are accepted, and each refusal.

use crate::replays::building::{goods, name};
use crate::specifications::spec_of;
use items::Items;
use replica_replay::{Plain, Replay, Step, StepRefused, Taken};
use spec_core::World;
use std::alloc::Global;
use std::process::Abort;

/// A step: a replica calls an operation of this name with arguments, or takes an event.
enum StepOutline {
    Call(u32, &'static [u8], &'static [i64]),
    Take(u32, u32),
}

/// What a step answers.
#[derive(Clone, Copy, PartialEq)]
enum Answer {
    Event(u32),
    Replica,
    Operation,
    Arguments,
    Conflict(u32),
    Precondition(u32),
    NoEvent,
    Seen,
    Missing(u32),
    Range(u8, i128),
    Memory,
    Observation(u32),
}

fn answer_of(answer: &Result<Taken, StepRefused>) -> Answer {
    match answer {
        Ok(taken) => Answer::Event(taken.event),
        Err(StepRefused::Replica) => Answer::Replica,
        Err(StepRefused::Operation) => Answer::Operation,
        Err(StepRefused::Arguments) => Answer::Arguments,
        Err(StepRefused::Conflict { event }) => Answer::Conflict(*event),
        Err(StepRefused::Precondition { line }) => Answer::Precondition(*line),
        Err(StepRefused::NoEvent) => Answer::NoEvent,
        Err(StepRefused::Seen) => Answer::Seen,
        Err(StepRefused::Missing { event }) => Answer::Missing(*event),
        Err(StepRefused::Range { counter, value, .. }) => Answer::Range(*counter, *value),
        Err(StepRefused::Memory) => Answer::Memory,
        Err(StepRefused::Observation { line }) => Answer::Observation(*line),
    }
}

fn step_of(rt: &impl Abort, alloc: Global, outline: &StepOutline) -> Step {
    match outline {
        StepOutline::Call(replica, op, args) => Step::Call {
            replica: *replica,
            op: name(rt, alloc, op),
            args: Items::from_slice(alloc, args).expect(rt, "memory"),
        },
        StepOutline::Take(replica, event) => Step::Take {
            replica: *replica,
            event: *event,
        },
    }
}

fn tell(
    rt: &impl Abort,
    alloc: Global,
    replay: &mut Replay<Plain>,
    outline: &StepOutline,
) -> Answer {
    let step = step_of(rt, alloc, outline);
    let answer = replay.step(&step);
    drop(step);
    let found = answer_of(&answer);
    drop(answer);
    found
}

static STEPS: [(StepOutline, Answer); 20] = [
    (StepOutline::Call(2, b"deliver", &[5]), Answer::Replica),
    (StepOutline::Call(0, b"steal", &[5]), Answer::Operation),
    (StepOutline::Call(0, b"deliver", &[]), Answer::Arguments),
    (StepOutline::Call(0, b"deliver", &[5]), Answer::Event(0)),
    (StepOutline::Call(1, b"sell", &[1]), Answer::Precondition(1)),
    (StepOutline::Call(0, b"sell", &[2]), Answer::Event(1)),
    (StepOutline::Call(0, b"sell", &[1]), Answer::Event(2)),
    (StepOutline::Call(1, b"sell", &[0]), Answer::Conflict(1)),
    (
        StepOutline::Call(0, b"report", &[3]),
        Answer::Observation(1),
    ),
    (StepOutline::Call(0, b"report", &[2]), Answer::Event(3)),
    (StepOutline::Take(2, 0), Answer::Replica),
    (StepOutline::Take(1, 4), Answer::NoEvent),
    (StepOutline::Take(1, 1), Answer::Missing(0)),
    (StepOutline::Take(1, 0), Answer::Event(0)),
    (StepOutline::Take(1, 0), Answer::Seen),
    (StepOutline::Take(1, 1), Answer::Event(1)),
    (
        StepOutline::Call(1, b"deliver", &[999_999_999_999_998]),
        Answer::Range(0, 1_000_000_000_000_001),
    ),
    (StepOutline::Call(0, b"sell", &[2]), Answer::Event(4)),
    (StepOutline::Call(1, b"deliver", &[1]), Answer::Event(5)),
    (StepOutline::Take(0, 5), Answer::Event(5)),
];

fn check_steps(rt: &impl Abort, alloc: Global, replay: &mut Replay<Plain>) {
    for (place, (outline, want)) in STEPS.iter().enumerate() {
        let found = tell(rt, alloc, replay, outline);
        assert!(rt; found == *want, "at step {place}");
    }
}

/// What is in stock at both replicas after the steps, and what the second has seen.
fn check_end(rt: &impl Abort, replay: &Replay<Plain>) {
    assert!(rt; replay.replica_count() == 2);
    let stocks = (
        replay.state_of(0).count(0, &[]),
        replay.state_of(1).count(0, &[]),
    );
    let seen = replay.seen_by(1) == [0, 1, 5].as_slice();
    assert!(rt; stocks == (1, 4) && seen);
}

#[test]
fn each_step_is_accepted_or_refused_for_its_first_cause(rt: HostRuntime) {
    let alloc = rt.alloc();
    let reading = goods(&rt, alloc);
    let spec = spec_of(&rt, &reading);
    let world = World {
        sizes: Items::new(alloc),
        consts: Items::new(alloc),
    };
    assert!(rt; world.fits(spec));
    let runner = Plain::new(alloc, spec, &world);
    let mut replay = Replay::new(alloc, runner, 2).expect(&rt, "memory");
    check_steps(&rt, alloc, &mut replay);
    check_end(&rt, &replay);
    drop(replay);
    drop(world);
    reading.let_go();
}
