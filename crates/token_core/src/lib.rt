// The token protocol in code: nodes, which run calls that are granted, and a network of them and a manager.
//
// It stands on `token_protocol`, whose definitions say what a node answers to a call and to a message, what a network holds after each
// step, and why what its nodes run is an execution; on `token_manager`, which grants calls; and on `replica_replay`, whose `Runner` runs
// them. `Net` keeps that its events form an execution, that what each replica has taken is a delivery order of it, and that the state of
// each replica is the state after that.
//
// `log` keeps what was sent in a network and the calls that were run, in their orders; `ids` has the ids of the events that a node has
// taken, and answers whether an id is one of them; `node` and `replica` have a node, `net` the network. The lists of messages and events
// share their elements, by `items`.
//
// `specs/Log.antt` has the lists of a log, and when each has room for one element more; `specs/Held.antt` and `specs/HeldNet.antt` have a
// node and a network as a program holds them, `specs/Stepped.antt` what a step of such a network is; the other files of `specs/` mirror
// the code.
//
// A step first makes room for all that it may send and keep, and changes a node only then, so a step that finds no memory changes
// nothing.
//
// Decisions:
// - Numbers beyond 32 bits, 4,000,000,000 turns of a replica and as many steps of a network
//   (`Net::steps`) are want of memory, where a condition of the call could stand. So a caller has
//   nothing to show, and no step is counted past the number that counts it.
// - The spare state of a replica is kept beside its node: that it fits is a fact about a
//   specification, of which a node knows nothing. `Node::begin` and `Node::hear` go without.
// - Grants, messages and events share the elements of their lists (`items`); who reads one
//   makes it whole first. The list that a replica's events share is compared with what the replica
//   has taken, so it has no invariant.
// - Marks are for the turns of 64 replicas. An id whose mark would be far after the others is kept
//   in a set, so that no id takes more than 4 KB; either answers, so nothing depends on which.
#![tactic(auto)]

mod ids;
mod log;
mod net;
mod node;
mod replica;

pub use ids::Ids;
pub use log::{CallEvent, Happened, number_of};
pub use net::Net;
pub use node::Node;
pub use replica_replay::{Plain, Runner, Tried, try_call, try_call_over};
pub use token_manager::Manager;
pub use token_protocol::{
    Begun, EventId, Granted, Heard, Message, NetDid, NetRefused, NetStep, NodeRefused, Request,
    WhyVoid,
};
