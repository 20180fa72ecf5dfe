// Recorded schedules as JSON: which schedule some bytes are, or why they are none.
//
// It stands on `serde_json`, whose `Value` is what a text means, and on `replica_replay`, whose steps a schedule records. The
// definitions stand in specs/, in this order: Parts (numbers and members of a JSON value), Checks (checks one after the other),
// Worlds (sizes of sorts, elements of constants), Recorded (steps), Schedules (the whole, and what some bytes are), Fitting (what every
// schedule keeps), Texts (the line of each refusal).
//
// Decisions:
// - An object has exactly some keys where it has a member at each of them and no more members than
//   they are. An object of `serde_json` has each key once, with its last value.
// - A whole number is what `as_i64` gives. A number of replicas has no sign to be refused by its
//   shape, so a negative one is too small.
// - A member that is asked for again, after its object was found to have its keys, is read as
//   absent where it isn't there, so that no part rests on an earlier test of the code.
#![tactic(auto)]

mod parts;
mod recorded;
mod refusal;
mod schedule;
mod texts;
mod worlds;

pub use refusal::{Path, ScheduleRefused};
pub use schedule::{Schedule, read_schedule};
pub use texts::{LONG, MOST_SCHEDULE_BYTES, refusal_text};
