// The obligations of a specification, and what breaks them.
//
// It stands on `spec_core`, `effectors` and `token_rules`. The definitions are in specs/: `Obligations` (the list, in its order)
// and `Breaking` (when values break an obligation, by its kind, when it holds, and when a specification is safe). `Refuting` says
// which witnesses `breaks` accepts, and `Starting` serves the proofs of the code alone.
//
// Decisions:
// - For Init the state of a witness has to read as the initial one; which zeros it lists doesn't
//   matter.
// - An obligation of an invariant with `exists`, which no well-formed specification has, has no
//   elements.
// - What breaks an obligation is a record for each kind, for the kinds with two calls over one
//   record of two calls that may run together. Another number of calls than the kind has breaks
//   nothing.
#![tactic(auto)]

mod breaking;
mod initial;
mod lines;
mod listing;
mod obligation;
mod witness;

pub use breaking::breaks;
pub use listing::{law_obligations, list};
pub use obligation::Obligation;
pub use witness::Witness;
