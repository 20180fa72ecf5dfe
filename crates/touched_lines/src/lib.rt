// The truth of lines after a call, where they were true before: a line is asked at those elements alone at which it reads what the call's
// updates reach, and of the invariants the first one that is false is named.
//
// It stands on `items`, `spec_core`, `effectors` and `spec_core`. A reading of the line and an update of its thing leave to each
// variable a span of elements: one element where the update names what stands at the variable's place, else all of its sort. At all
// other elements the line reads what it read before. The definitions are in specs/Touched. Nothing here takes memory.
//
// Decisions:
// - An update counts as reaching what its spots match, whether its guard is true or not.
#![tactic(auto)]

mod invariants;
mod reached;
mod spans;
mod within;

pub use invariants::invariant_broken_after;
pub use reached::line_holds_after;
