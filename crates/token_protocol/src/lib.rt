// The token protocol: how replicas ask for the right to make a call, so that what they run is an execution.
//
// A call whose operation takes no token runs at once, where it is made. Any other call waits for a grant. The manager grants each
// call once, and the grant names the calls granted before with which the call conflicts; the replica runs the call when it has
// taken each of these or knows that it will never run. Messages may be lost, repeated and reordered.
//
// `specs/Ids.antt` has the ids of calls, `specs/Manager.antt` what the manager grants, `specs/Node.antt` what a node answers to a call
// and to a message, and `specs/Network.antt` the network after a list of steps. `specs/Executed.antt` has what holds of every network:
// its events form an execution, and each replica has taken a delivery order of it.
//
// Why this is so. Of two calls that conflict both have grants, and the later grant names the earlier call. If the event that ran
// later has the later grant, its node had taken what the grant names or knew it as void; what ran isn't void, so it was taken, so
// it was seen. If the event that ran first had the later grant, it ran only where the other was taken, which it wasn't, or void,
// and a void call never runs.
//
// Decisions:
// - Turns count from 0. A refused call uses none, a void one does. A call is void to the network
//   where a Void of it was sent.
// - A grant's list is made once and kept, so that a repeated request gets the same.
// - Events are numbered in the order in which they ran, each kept with its call's id. Of a step
//   that hears a message, a missing replica is refused before a missing message.
// - The theorem asks nothing of the world; only convergence needs one that fits.
#![tactic(auto)]

mod granted;
mod ids;
mod law;
mod message;
mod network;
mod node;

pub use granted::Granted;
pub use ids::same_id;
pub use law::{law_conflicts_take_tokens, law_networks_are_executions, law_networks_converge};
pub use message::{EventId, Message, Request};
pub use network::{NetDid, NetRefused, NetStep};
pub use node::{Begun, Heard, NodeRefused, WhyVoid};
