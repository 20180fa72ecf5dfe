// What the nodes and the manager send each other.

use items::SharedList;
use spec_core::Call;

/// The id of a call: the replica that made it, and which of that replica's turns it used up, counted from 0.
#[derive(Clone, Copy)]
pub struct EventId {
    pub replica: u32,
    pub turn: u32,
}

/// A call that waits for a grant.
#[derive(Drop)]
pub struct Request {
    pub id: EventId,
    pub call: Call,
}

/// A message, which any replica may get at any time, any number of times, or never.
#[derive(Drop)]
pub enum Message {
    /// The call may run once each of these calls is taken or void, where it runs.
    Grant {
        id: EventId,
        after: SharedList<EventId>,
    },
    /// The call was run at a replica that had taken these before, in that order.
    Done {
        id: EventId,
        call: Call,
        seen: SharedList<EventId>,
    },
    /// The call will never run.
    Void {
        id: EventId,
    },
}
