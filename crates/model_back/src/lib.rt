// From an interpretation of an obligation's ground problem to values that break the obligation.
//
// It stands on `instances`, whose ground problem it is given, and on the law of `ground_problem` that such values break the obligation.
// Whoever has an interpretation that makes the formulas of the problem true, with whole numbers in the range of a state, gets a witness
// by `witness_of`. The constants that the interpretation makes equal are listed once (`equals`). The classes of each sort are its
// elements (`classes`, `values`) and make the world (`world`, `classed`). The readings that have a number are put into an empty state
// (`state`). The calls and the elements of the conclusion are those of their constants (`calls`, `witness`).
//
// Whoever has values of which nothing is known gets by `tried_witness` what they give in the same way, where `breaks` says that it breaks
// the obligation.
//
// Definitions, in specs/: `Witnesses` (the witness that an interpretation gives), `Calls` (calls at elements and whole numbers).
// `Equals`, `Classed` and `Filling` say what a program lists and fills in, and serve the proofs.
//
// Decisions:
// - The classes of equal constants are found from the atoms that are true, once for a sort; a class
//   is numbered by its least constant.
// - What the witness is stands in its contract beside that it breaks: exactly the values that the
//   definitions read from the interpretation. An argument's value is in the range of a state by
//   what `witness_of` asks.
// - `tried_witness` asks of the interpretation only that range, so it tests what `witness_of` knows:
//   that sorts are declared and that the world fits. Equal constants needn't be an equivalence
//   there, since not every clause on equality was searched.
#![tactic(auto)]

mod calls;
mod classed;
mod classes;
mod equals;
mod named;
mod state;
mod values;
mod witness;
mod world;

pub use named::Named;
pub use witness::{tried_witness, witness_of};
