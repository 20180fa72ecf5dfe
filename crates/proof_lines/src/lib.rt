// Clauses, problems and the lines of a log: what a proof kernel, a search and the reader of a report pass to one another.
//
// A problem is clauses over plain atoms and over atoms that stand for rows. A line of a log makes a clause from earlier ones, or
// from rows that contradict one another, or names a row that two rows leave room for, or drops clauses. What rows a line has stands
// in `line_rows`, and what stands after a line is the kernel's matter. The layer stands on `items` and `lin_rows` alone.
//
// Definitions, in the order in which a reader needs them: specs/Numbers (lists of numbers), specs/Clauses (literals and clauses), specs/Problems (problems and
// what makes them true), specs/Forced (the literals that clauses force). specs/Marks mirrors a table by which long clauses are resolved.
//
// Decisions:
// - These types are below what rows show, since the reader of a report and the clauses of a ground
//   problem need no more.
// - `Problem::new` gives nothing where parts don't fit, so that a caller who can't prove the fit
//   can ask.
#![tactic(auto)]

pub mod clause;
pub mod line;
mod literals;
pub mod marks;
pub mod problem;

pub use clause::{Clause, Lit};
pub use line::{Line, LineRefused, RangeEvidence, RangeWhat, RowStep, RowsEvidence, Why};
pub use problem::{AtomKind, Interpretation, Problem};
