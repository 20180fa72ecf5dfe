// A host: a replay with the application's own effect and guard.

use crate::native::Native;
use replica_replay::Replay;

/// A replay whose states the application's own effect gives, and whose requires lines its own guard asks. Contracts see what a replay of
/// the specification would hold: its events form an execution, and what each replica has taken is a delivery order of it.
pub type Host<'a, E, G> = Replay<Native<'a, E, G>>;
