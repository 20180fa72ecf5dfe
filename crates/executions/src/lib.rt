// Executions of a replicated system: events, delivery orders, the state after an order, and why a safe specification converges.
//
// A call runs at one replica and reaches the others in any order in which it stands after all that its replica had taken
// before. `specs/Orders.antt` says what a delivery order is, `specs/Executions.antt` what an execution is and what it means
// that a system converges, `specs/Convergence.antt` which system a specification is. `proofs/Convergence.antt` has the proof, of
// events and steps alone; `proofs/Systems.antt` is the theorem in the words of the definitions, `proofs/Safety.antt` that of
// specifications.
//
// Decisions:
// - An order is judged one event at a time: the event exists, isn't before itself, and all that it
//   has seen is. So the empty list is an order, and a number of no event is in none.
// - What an event has seen is a delivery order of its own: it is closed under what those events
//   have seen, and they are in an order in which they can have been taken.
// - That calls name operations and have fitting arguments is part of being an execution. The state
//   after an order asks it of all events, not only of those in the order.
// - Two states are one where all readings agree. In the theorem a state is what a listed state
//   reads as, so that this is equality.
// - A causally closed set is a list of events with whatever its members have seen; repetitions
//   don't matter.
// - A refusal of `state_after` names the value of the first event in the order that leaves the
//   range. Want of memory may come before it.
#![tactic(auto)]

mod event;
mod law;
mod order;
mod state;

pub use event::Event;
pub use law::{law_closed_sets, law_converges};
pub use order::{is_order, may_follow};
pub use state::state_after;
