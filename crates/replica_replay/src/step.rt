// Steps, and why one is refused.

use effectors::ApplyRefused;
use items::Items;
use spec_core::Name;
use std::alloc::AllocError;

/// One step of a recorded schedule. Replicas and events go by their numbers, from 0.
#[derive(Drop)]
pub enum Step {
    /// A replica calls an operation, which goes by its name, with arguments.
    Call {
        replica: u32,
        op: Name,
        args: Items<i64>,
    },
    /// A replica takes an event.
    Take {
        replica: u32,
        event: u32,
    },
}

/// An accepted step, and the event that it made or took.
#[derive(Drop)]
pub struct Taken {
    pub event: u32,
}

/// Why a step is refused. Lines are counted from 1.
#[derive(Drop)]
pub enum StepRefused {
    /// There is no such replica.
    Replica,
    /// The called name is no operation.
    Operation,
    /// The arguments aren't those of the operation.
    Arguments,
    /// The call conflicts with an event that the replica hasn't taken: the least one.
    Conflict {
        event: u32,
    },
    /// A requires line is false in the replica's state: the first one.
    Precondition {
        line: u32,
    },
    /// There is no such event to take.
    NoEvent,
    /// The replica has taken the event.
    Seen,
    /// The event has seen another that the replica hasn't taken: the first in the order seen.
    Missing {
        event: u32,
    },
    /// A value of the new state would be beyond -10^15 to 10^15: that of the first such counter at its least such key.
    Range {
        counter: u8,
        key: Items<u32>,
        value: i128,
    },
    /// There was no memory.
    Memory,
    /// An observes line is false in the replica's state: the first one.
    Observation {
        line: u32,
    },
}

impl From<AllocError> for StepRefused {
    ghost use Rattle.std.specs.Prelude.{◌≡◌};
    ghost use Rattle.replica_replay.specs.declared.step.StepRefused.TheVariants.{Memory};

    ghost from_gives = { λ e r. r ≡ Memory };

    fn from(_: AllocError) -> Self {
        StepRefused::Memory
    }
}
