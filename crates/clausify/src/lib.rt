// From numbered formulas to the clauses of a problem.
//
// Truth values are folded, "not" is moved to the literals, and each "and" inside an "or" is named by a new atom: so the clauses grow
// with the formulas, and no part is written twice. It stands on `ground_numbers`, where the clauses of formulas are defined
// (specs/Clauses and specs/Problem), on `ground_atoms`, whose formulas and atoms it reads, and on `proof_lines`, whose problems it
// makes. specs/Formulas says what the formulas of the code are, specs/Straight what is written of those on equality, and specs/Kept what
// is kept for problems that begin with the same formulas.
//
// Decisions:
// - `problem_of` takes a table and formulas of any origin, and asks that these name atoms of the
//   table and that rows name its integers.
// - No form with "not" at the literals is made first where a formula has no truth values: it is
//   written as it stands, with a sign for each part. So there is one writer of clauses, but for
//   `Implied` and `Congruent`, which are written from their numbers.
// - Room is made at once for as many clauses as there are formulas; most give one to three. Where
//   the clauses are that name an atom is a hint: each is asked for by its place, and proved to be
//   there.
#![tactic(auto)]

mod bare;
mod by_atom;
mod folding;
mod kept;
mod listing;
mod problem;
mod straight;
mod writing;

pub use by_atom::ClausesByAtom;
pub use kept::{KeptClauses, keep_clauses, write_from};
pub use listing::write_clauses;
pub use problem::{problem_from, problem_of};
