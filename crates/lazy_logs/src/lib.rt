// Whether a log refutes the lazy ground problem of an obligation, told over the clauses that it names alone.
//
// A log names few of the clauses of its problem. These are made, and the pairs of tuples whose clauses it names are told by their numbers
// (src/choosing.rt); they are a problem of their own over the atoms that they name, which is tested to be a part of the whole, as in a
// search (`lazy_search`). The lines are written with the numbers of that part (src/renaming.rt), and the kernel takes them there. Written
// back, they have to be the lines of the log; then the whole problem's kernel takes the log too, as is proved of logs of a part
// (`needed_clauses`).
//
// Lines that drop clauses give none and move no number, so they are left out of all this. The log is accepted with them where it is
// without them and each line names and drops only clauses that are left by then (src/dropping.rt; proofs/Drops has the law).
//
// So the whole problem isn't made. Where a log isn't known to refute it, nothing is said: the kernel has to take it on the whole
// problem.
//
// Definitions: specs/Refuted (when a log refutes a problem), specs/Drops (a log without its lines that drop clauses, and when
// these stand).
//
// Decisions:
// - A log with a Split line, and one that names a clause or an atom that no clause of the part has, isn't looked at further.
// - What is left is noted for each clause of the whole problem, a byte each, and not for those alone that the log names: a number is
//   found at once.
#![tactic(auto)]

mod choosing;
mod comparing;
mod dropping;
mod refuting;
mod renaming;

pub use refuting::is_refuted_by;
