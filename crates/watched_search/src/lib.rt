// The clause search on watched literals, joined with any solver of rows, under the contract of the plain search of `sat_core`.
//
// The search goes about its work as the plain one does: the same trail, the same chains of resolvents, the same questions to the
// solver where all atoms have values. What differs is how a false or a unit clause is found, and that the solver is asked sooner.
// `unit_propagation` finds such clauses by two watched literals of each clause.
//
// Why the log stays fresh. A chain begins only at a false clause, and what a chain asks of the search is what the plain search gives:
// no clause was false before the newest literal, and none is unit or false before a decision. Both follow from what
// `unit_propagation` keeps: between steps each clause is at rest, or isn't false and waits among those that may be unit, and under each
// trail before a decision all are at rest. Backtracking cuts the trail to where a decision level begins, so nothing is to be done for
// clauses that watch already. A chain leaves two literals in each of its clauses that aren't false before the last decision that is
// left; these watch from then on, and only these may be unit.
//
// The solver of rows is asked where all atoms have values, as in the plain search, and before that too: where the trail is settled, an
// atom is to be decided, and rows were added that the solver's last numbers aren't known to satisfy. Rows that contradict each other
// are learned from at once, for the chain of a Farkas line wants no more than a settled trail. Numbers prove nothing there, since
// they satisfy some of the rows only; but the rows that follow are decided by them, so that the solver isn't asked again before a row
// is forced that they don't satisfy. Where the solver would split or stop, the search goes on: that is answered of a whole trail alone.
// A solver that may stop can take long before it does; so before all atoms have values only its guide is asked, which has narrow limits.
//
// Where all atoms have values, the solver is asked about an implicant first: few rows by which, beside the plain atoms, each clause of the
// problem is true. Numbers that satisfy these give every atom with a row its truth, and if then all clauses are true by evaluation, that
// is the answer. Rows among them that contradict each other are learned from as early ones are. Only if the implicant gives neither
// is the solver asked about the rows of the whole trail, and what it says of those stands, with its evidence.
//
// `search` chooses the solver. A problem without rows has the solver of no rows. One whose rows are differences has the solver of such
// rows, which is fast and always decides. Any other has that of cutting planes, behind which stands elimination.
// Whoever asks sees one search: its answer is one that may have split and may have been stopped by rows, and where the problem fits the
// solver of difference rows it neither did nor was.
//
// Plain atoms are decided before rows: what is asked of the solver then follows from fewer guesses. Of either kind the atoms are decided
// by number for a few lines. Where these don't suffice, a search that promises nothing (`clause_learning`) proposes values or a log, which
// are tested (src/proposed.rt). Where it has none, the search begins anew and decides the most active atoms first (`decision_queue`), and
// where that takes all lines of the budget, by number again. On pigeons the order by number has fewer lines, on
// most else that by activity. So a budget suffices where it does for one of the two, and a log of all its lines is the evidence where
// it does for neither.
//
// Definitions, in the order in which a reader needs them: `unit_propagation` has clauses at rest and where the watched literals stand;
// specs/Conflicts (the chain of a conflict), specs/Early (what is known of the rows that are asked about early), specs/Reduced (what an
// implicant says), specs/Exhausted (when another order of decisions is tried).
//
// Decisions:
// - A question to the solver costs more than a step. So it is asked early where more than a quarter
//   of the trail's rows are new to it and not known to be satisfied by its last numbers; in a
//   problem of fewer than four rows, at each such row.
// - A row is decided by the solver's last numbers, before the first ones by its truth where all
//   numbers are 0; any other atom has the value that it had last, the first time true. No clause
//   speaks of it.
// - By number comes first, for 2,000 lines: small problems gain nothing by activity. With fewer
//   than 32 atoms no proposed log is taken, which might have more lines than there are clauses.
// - The solver of no rows is asked only where there are neither names nor atoms with rows, so no
//   fact is needed that rows name something.
#![tactic(auto)]

/// The value of a call; where it fails, lets go of these values and ends with its error. Values that are let go by name are let go
/// once in a proof, and not once for each way out.
macro_rules! or_drop {
    ($call:expr; $($value:ident),*) => {
        match $call {
            Ok(value) => value,
            Err(error) => {
                $(drop($value);)*
                return Err(error);
            }
        }
    };
}

mod early;
mod evaluating;
mod hints;
mod proposed;
mod reducing;
mod row_hints;
mod searching;
mod solving;

pub use evaluating::{evaluated, known_truth};
pub use searching::search;
pub use solving::solve;
