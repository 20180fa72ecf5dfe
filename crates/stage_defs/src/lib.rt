// Formulas of a specification at a stage, and the definitions of readings after a call.
//
// It stands on `ground_atoms`, by which formulas are numbered as they are made, and on `ground_problem`, whose definitions these
// formulas are. Definitions, in specs/: `Settings` (what a formula is read in, and when a program's formula is a definition's);
// `Parts` serves the proofs alone.
//
// Decisions:
// - The formulas of guards and amounts are here with those of invariants and requires lines, since
//   all are formulas at a stage.
// - `define_has` and `define_count` ask for no condition: what doesn't exist has a definition too,
//   which no obligation names.
// - A reading that a call leaves is one value (`Defined`), with all that its definition speaks of, so
//   that a relation's and a counter's are defined by the same few arguments. The loop over a
//   counter's updates takes these one by one: with the record in its place the proof of a round took
//   more steps than a tactic may.
#![tactic(auto)]

pub mod acting;
pub mod comparing;
pub mod connecting;
pub mod counting;
pub mod defined;
pub mod formulas;
pub mod having;
pub mod setting;
pub mod stages;
pub mod sums;

pub use comparing::{equal, has, same_const, unequal};
pub use connecting::{both, either, negated};
pub use counting::define_count;
pub use defined::Defined;
pub use formulas::formula;
pub use having::define_has;
pub use setting::{Setting, Stage};
pub use sums::reading_part;
