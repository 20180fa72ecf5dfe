// How a replay stops.

use replica_replay::StepRefused;

/// How a replay stops.
#[derive(Drop)]
pub enum Stop {
    /// All steps were accepted, and no state broke.
    Done,
    /// A state breaks an invariant: the first one, by its place.
    Broken(usize),
    /// A step is refused.
    Refused(StepRefused),
}
