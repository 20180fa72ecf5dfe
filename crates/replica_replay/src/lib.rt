// Recorded schedules, step by step: which steps are accepted, and the state of each replica after them; and who runs a call: its
// precondition and its effect, as they are written or by an application's own code.
//
// It stands on `executions`, and on `token_protocol`, whose definitions say why a call can't run.
//
// A `Runner` is a specification in a world with code for its preconditions and effects. `Plain` evaluates them as they are written; an
// application's own code can stand in their place. `specs/Tried.antt` says what trying a call in a state gives.
//
// `specs/Held.antt` says what a replay holds, `specs/Refusals.antt` which calls and takings are refused and for what,
// `specs/Steps.antt` what a step answers and what is held after it. A `Replay` carries steps out over a runner, so a replay of the written
// lines and updates and one of an application's own code are one.
//
// Decisions:
// - An event's number has 32 bits; the next one after those is refused as want of memory.
//   `Replay::new` asks for no number of replicas: a schedule's reader does.
// - Where memory for a replica's second state lacks, it is given up, and the next step copies.
// - A replica of what is held, with what it has taken, is one record (`AtReplica`), which isn't
//   there where the replica isn't; what a step is refused by, what the replica has taken and its
//   state are another (`LocalView`).
// - An effect may be written over a spare state, which a `Runner` then brings up to date. An
//   application's code makes states of its own, so it takes and leaves none.
#![tactic(auto)]

mod asking;
mod conditions;
mod keeping;
mod law;
mod order;
mod replay;
mod runner;
mod step;
mod trying;

pub use asking::operation_named;
pub use law::law_steps_keep_executions;
pub use replay::Replay;
pub use runner::{Plain, Runner};
pub use step::{Step, StepRefused, Taken};
pub use trying::{Tried, try_call, try_call_over};
