// Simulations of whole schedules under the token protocol: their course, and its text.
//
// It stands on `token_core`, whose network it steps, and on `schedule_json`, which reads schedules. The definitions stand in specs/, in
// this order: Lines (the lines, and the line that says how it stops), Course (what each step does to the network, and where it stops),
// Text (the whole text, and the status), Recorded (from the bytes of a schedule), Safely (what a simulation of a safe specification
// keeps). Reached serves the code and its proofs.
//
// Decisions:
// - `simulate_by` takes its runner by value, since a network owns the one that its nodes run;
//   `replay_by` borrows what carries steps out.
// - For each replica it is kept after how many events its state is known to break no invariant.
//   Where it has taken one more, only what that event's call can have made false is asked. The
//   number is tested when it is used, so no step needs to say what it left unbroken.
#![tactic(auto)]

mod law;
mod lines;
mod recorded;
mod said;
mod simulation;
mod writing;

pub use law::{law_safe_simulations, law_simulations_are_executions};
pub use recorded::simulate_bytes;
pub use said::{Said, SimulateRefused, Stop};
pub use writing::{simulate, simulate_by};
