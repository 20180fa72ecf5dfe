// What a simulation says of its steps, and how it stops.

use items::Items;
use token_protocol::{EventId, WhyVoid};

/// What a line says that a replica did.
#[derive(Drop)]
pub enum Said {
    /// A call was run: its event.
    Call(u32),
    /// An event was taken.
    Take(u32),
    /// An event had been taken before.
    Old(u32),
    /// An event can't be taken yet: the first event that has to be taken before.
    Early(usize),
    /// A call waits: the first call that has to be taken, or known as void, before.
    Awaits(EventId),
    /// A call will never run.
    Void(WhyVoid),
}

/// Why a step is refused.
#[derive(Drop)]
pub enum SimulateRefused {
    /// There is no such replica.
    Replica,
    /// The called name is no operation.
    Operation,
    /// The arguments aren't those of the operation.
    Arguments,
    /// A call of the replica waits.
    Waiting,
    /// There is no such event.
    NoEvent,
    /// With the event a value would be beyond -10^15 to 10^15: that of the first such counter at its least such key.
    Range {
        counter: u8,
        key: Items<u32>,
        value: i128,
    },
}

/// How a simulation stops.
#[derive(Drop)]
pub enum Stop {
    /// All steps were carried out, and no state broke.
    Done,
    /// The initial state breaks an invariant: the first one, by its place.
    BrokenFirst(usize),
    /// A state breaks an invariant after an event was run or taken: the first one, by its place.
    Broken(usize),
    /// A step is refused.
    Refused(SimulateRefused),
}
