// What the manager keeps of a grant.

use crate::message::EventId;
use items::SharedList;
use spec_core::Call;

/// A granted call, and the calls that have to be taken, or known as void, before it runs.
#[derive(Drop)]
pub struct Granted {
    pub id: EventId,
    pub call: Call,
    pub after: SharedList<EventId>,
}
