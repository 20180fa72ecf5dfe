// The proof kernel: it takes the lines of a log one by one and says whether each keeps its rule.
//
// Nothing is assumed of who made the log. Each line gives a clause that every interpretation of the problem's clauses makes
// true, or a new atom for a row, or drops clauses; so an accepted log with an empty clause shows that no interpretation makes
// all clauses of the problem true. The layer stands on `items`, `lin_rows`, `proof_lines`, whose types it passes on, `line_rows` (the
// rules that speak of rows alone) and `log_freshness` (which lines of a log are new), and knows nothing of a search.
//
// Definitions, in the order in which a reader needs them, after those of `proof_lines`: specs/Rules (what stands after a line, or
// the first rule that it breaks), specs/Evidence (fresh logs, the evidence of undecided verdicts), specs/Answers (the answers to
// whole logs). A private index of the rows among the atoms makes Split lines fast, and no clause of a call names it: src/atoms.rt,
// specs/Atoms.
//
// Decisions:
// - Contracts see a dropped clause as a number without literals. Its literals are let go of later,
//   as `log_freshness` says; whether a clause was ever empty is kept apart.
// - A numbering is full at 2^32 - 1 clauses or atoms, and a log at as many lines. One more is
//   answered as want of memory.
// - A resolvent is made in a list that the kernel keeps for it and then put into the store, since
//   the two clauses that it is made of are read there.
// - Freshness is asked of a whole log, so its index is made in that call: `add` does no work for
//   it, and a kernel that drops clauses keeps nothing of them.
// - That evidence of a number beyond the range uses no atom both ways is asked after its rows were.
//   Then its literals are over atoms of the problem, which bounds the table of marks.
#![tactic(auto)]

pub mod answer;
mod atoms;
pub mod kernel;
pub mod log;

pub use answer::{Checked, KernelRefused};
pub use kernel::Kernel;
pub use log::{check_lines, check_log, check_range, check_rows};
pub use proof_lines::{
    AtomKind, Clause, Interpretation, Line, LineRefused, Lit, Problem, RangeEvidence, RangeWhat,
    RowStep, RowsEvidence, Why,
};
