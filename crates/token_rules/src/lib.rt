// Conflicts of calls, by the tokens that they take.
//
// It stands on `spec_core`. The definition is in specs/Conflict, over specs/Assignment: when one assignment of elements to the
// variables of a rule gives two lists of elements.
//
// Most calls can be passed over before they are compared rule by rule: where no rule matches the tokens of their operations, and where
// each rule that does asks for one element for an argument of each and they differ. `rivals_of` and `may_conflict` say which. What is passed
// over doesn't conflict, by the lemma `no_conflict` of proofs/Tokens. `specs/Rivals.antt` mirrors this code.
//
// Decisions:
// - `conflicts` asks for no fit of its world and calls: an operation that isn't there takes
//   nothing, and an element that isn't there is 0.
// - Two lists of elements and of variables match only where their lengths agree.
#![tactic(auto)]

mod assignment;
mod conflict;
mod rivals;

pub use assignment::law_one_assignment;
pub use conflict::conflicts;
pub use rivals::{Rivalry, may_conflict, rivals_of};
