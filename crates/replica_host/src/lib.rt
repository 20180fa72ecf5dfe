// Hosts: an application's own code in place of the written requires lines and updates.
//
// It stands on `replica_replay`, which says what a step answers and leaves, and whose `Runner` a `Native` is, so a network of nodes runs
// over it too. `specs/Native.antt` says what the application's code has to answer: at every state and call that fit, an effect the state
// after the call, a guard the first requires line that is false. `Native` keeps both beside these facts, and a `Host` is a replay over it:
// it answers and leaves what a replay of the specification as it is written does.
//
// Decisions:
// - An application's effect and guard are types that implement `Effect` and `Guard`, and no
//   closures: the invariant of a type can speak of a trait's members, and not of what a closure in
//   a field answers. The compiler refuses such a field with "if a bound on `Fn`, `FnMut` or
//   `FnOnce` is meant, a ghost field or an `impl Model` cannot yet cite its `pre`, `post` or
//   `step`".
// - An `impl` of these traits for every closure would leave a caller's own type "an impl that is
//   not the only match". One for a struct around a closure, `struct Kept<F> { f: F }`, passes in a
//   small example and is no such match; that isn't done.
// - Observes lines are evaluated; the guard is asked for the requires lines alone.
#![tactic(auto)]

mod host;
mod native;

pub use host::Host;
pub use native::{Effect, Guard, Native};
