// Replays of whole schedules: their course, and its text.
//
// It stands on `replica_replay`, whose steps it carries out one by one, and on `schedule_json`, which reads schedules. The definitions stand in
// specs/, in this order: Course (which steps are accepted, where it stops, what is held then), Text (the lines, and the status), Recorded
// (from the bytes of a schedule), Safely (what a replay of a safe specification keeps). Reached and Asked serve the code and its proofs.
//
// Decisions:
// - Course and text are below the program, since the bank's program prints the same. The whole text
//   is made before its first byte is written.
// - A course is the events of the accepted steps, how it stops, and what is held then; the lines
//   are made of it. A broken initial state is one after no accepted steps.
// - The invariants aren't asked of the state after a front of what another replica has taken: they
//   were asked when that replica had it. It is proved to answer the same.
#![tactic(auto)]

mod law;
mod lines;
mod recorded;
mod stop;
mod writing;

pub use law::law_safe_replays;
pub use lines::{invariant_name, push, push_number, push_range};
pub use recorded::{refused_answer, replay_bytes};
pub use spec_core::invariant_broken_at;
pub use stop::Stop;
pub use touched_lines::invariant_broken_after;
pub use writing::{replay, replay_by};
