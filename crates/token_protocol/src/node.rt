// What a node answers.

use crate::message::{EventId, Message, Request};
use items::Items;
use std::alloc::AllocError;

/// Why a call will never run. Lines are counted from 1.
#[derive(Drop)]
pub enum WhyVoid {
    /// A requires line was false in the replica's state: the first one.
    Precondition {
        line: u32,
    },
    /// An observes line was false in the replica's state: the first one.
    Observation {
        line: u32,
    },
    /// A value of the new state would be beyond -10^15 to 10^15: that of the first such counter at its least such key.
    Range {
        counter: u8,
        key: Items<u32>,
        value: i128,
    },
}

/// What a node answers to a call.
#[derive(Drop)]
pub enum Begun {
    /// The call waits for the grant of this request.
    Asked(Request),
    /// The call was run, and this is its Done.
    Ran(Message),
    /// The call will never run, and this is its Void.
    Void(WhyVoid, Message),
}

/// What a node answers to a message.
#[derive(Drop)]
pub enum Heard {
    /// The waiting call was run, and this is its Done.
    Ran(Message),
    /// The waiting call will never run, and this is its Void.
    Void(WhyVoid, Message),
    /// The first call that has to be taken before.
    Awaits(EventId),
    /// The event of the Done was taken.
    Took,
    /// The Void was noted.
    Noted,
    /// The message says nothing that is still of use here.
    Old,
}

/// Why a node refuses a call or a message.
#[derive(Drop)]
pub enum NodeRefused {
    /// The arguments of the call aren't those of the operation.
    Arguments,
    /// A call is waiting, that of this id.
    Waiting {
        id: EventId,
    },
    /// With the event of the Done a value would be beyond -10^15 to 10^15: that of the first such counter at its least such key.
    Range {
        counter: u8,
        key: Items<u32>,
        value: i128,
    },
    /// There was no memory.
    Memory,
}

impl From<AllocError> for NodeRefused {
    ghost use Rattle.std.specs.Prelude.{◌≡◌};
    ghost use Rattle.token_protocol.specs.declared.node.NodeRefused.TheVariants.{Memory};

    ghost from_gives = { λ e r. r ≡ Memory };

    fn from(_: AllocError) -> Self {
        NodeRefused::Memory
    }
}
