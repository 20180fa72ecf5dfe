// Steps of a network, and what each answers.

use crate::message::EventId;
use crate::node::WhyVoid;
use items::Items;
use spec_core::Call;
use std::alloc::AllocError;

/// One step of a network. Replicas, requests and messages go by their numbers, from 0.
#[derive(Drop)]
pub enum NetStep {
    /// A replica makes a call.
    Begin { replica: u32, call: Call },
    /// The manager gets a request.
    Ask { request: u32 },
    /// A replica gets a message.
    Hear { replica: u32, message: u32 },
}

/// What an accepted step did.
#[derive(Drop)]
pub enum NetDid {
    /// A call was run; the number of its event.
    Ran { event: u32 },
    /// A call became void; the number of the message that says so.
    Void { why: WhyVoid, message: u32 },
    /// A call waits; the number of its request.
    Asked { request: u32 },
    /// The manager granted a call; the number of the message.
    Granted { message: u32 },
    /// An event was taken; its number.
    Took { event: u32 },
    /// The first call that has to be taken before.
    Awaits { id: EventId },
    /// A Void was noted.
    Noted,
    /// The message said nothing that was still of use.
    Old,
}

/// Why a step is refused.
#[derive(Drop)]
pub enum NetRefused {
    /// There is no such replica.
    Replica,
    /// No such request or message was sent.
    NoMessage,
    /// The arguments of the call aren't those of the operation.
    Arguments,
    /// A call is waiting at the replica, that of this id.
    Waiting {
        id: EventId,
    },
    /// With the event a value would be beyond -10^15 to 10^15: that of the first such counter at its least such key.
    Range {
        counter: u8,
        key: Items<u32>,
        value: i128,
    },
    /// There was no memory.
    Memory,
}

impl From<AllocError> for NetRefused {
    ghost use Rattle.std.specs.Prelude.{◌≡◌};
    ghost use Rattle.token_protocol.specs.declared.network.NetRefused.TheVariants.{Memory};

    ghost from_gives = { λ e r. r ≡ Memory };

    fn from(_: AllocError) -> Self {
        NetRefused::Memory
    }
}
