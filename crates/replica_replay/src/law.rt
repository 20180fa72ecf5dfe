// Why a replay is an execution.

ghost use Rattle.replica_replay.specs.{Held.{Held, IsHeld}, Steps.{outcome, held_after}};

use crate::step::Step;
use spec_core::{Spec, World};

/// Whatever is replayed is an execution: a step, accepted or refused, keeps that the events form an execution and that each
/// replica has taken a delivery order of it.
pub fn law_steps_keep_executions(spec: &Spec, world: &World, step: &Step)
    ensures { (held : Held) → IsHeld spec.now world.now held
        → IsHeld spec.now world.now (held_after held (outcome spec.now world.now held step.now)) }
{}
