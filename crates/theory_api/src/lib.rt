// What a solver of linear rows promises to a clause search.
//
// The layer is a trait alone: a search is proved once, from the trait's laws, and works with any solver. Each answer carries its
// certificate in the terms of the lines of a log, so nothing is believed of a solver but what its laws say. It stands on `lin_rows`
// and `proof_lines`. Definitions, in the order in which a reader needs them: specs/Chosen (values that rows drive),
// specs/Elimination (steps in an order of names), specs/Laws (what each answer promises).
//
// Decisions:
// - A row drives a value where all its other names have values and the row allows this value and
//   not the next one nearer to 0, as it would bound it in elimination. A name without a value has
//   none, not 0: a row that names one drives nothing.
// - That no row is a contradiction is asked where values are chosen: of a Split, and of a value or
//   a sum beyond the range. Rows, Range and Split use at least one given row, as a line of a log
//   does.
// - `NoInts::check` repeats what its trait asks, since a method with clauses of its own isn't given
//   those of the trait.
#![tactic(auto)]

pub mod answer;
pub mod refuting;
pub mod theory;

pub use answer::TheoryAnswer;
pub use refuting::{law_rows, refutes};
pub use theory::{NoInts, Theory};
