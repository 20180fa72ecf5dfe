// A clause search joined with any solver of rows: it finds an interpretation that makes all clauses of a problem true, or a log
// that shows that there is none, or it says why it gave up, with evidence.
//
// The search keeps a trail of literals that it takes to be true and goes round in single steps. A false clause is a conflict,
// and it is analyzed at once. Else a unit clause forces its remaining literal. Else an atom without a value is decided. Where all
// atoms have values, the solver is asked about the rows of the trail's literals (the final check). If numbers satisfy them, they and the trail are
// the interpretation. If they contradict each other, a Farkas line gives the clause of the opposites of their literals, which is
// false under the trail, and so a conflict. If they leave a gap for a name, a Split line gives a new atom, which is decided next.
// Its row is no atom's so far: every atom with a row is assigned by the trail, so its row or the opposite was among those that the
// solver was given, and a solver proposes neither.
//
// Why the log is fresh. Whenever a chain begins, no clause is unit or false under the trail before a decision, since propagation is
// complete before it, and no clause is false before the newest literal, since a conflict is met at once. A chain takes the trail back
// literal by literal and resolves the false clause with the reason of each literal whose negation it holds. The clause that it reaches
// is false under what is left of the trail, and no older clause is; so it contains no older clause, and it holds no atom both ways,
// since a trail doesn't. The chain stops at the first clause that holds one literal of the last level. Then whole levels are cut off,
// as long as that clause stays unit, and both properties hold again. A clause that a Farkas line gives is false under a trail that is
// settled, so levels can be cut off first until it is false for the last one alone, and its chain goes like any other.
//
// Why the search ends. Each line but a Split line gives a new clause without an atom both ways, and over m atoms there are 3^m
// such clauses; so the log has at most 3^(n+s) + s lines, for n atoms of the problem and s Split lines. The proof counts what is
// left to do by lines first, of which the budget leaves only so many, and then by atoms without a value: a step that writes no
// line gives one of those a value.
//
// What follows by forced literals alone is found before anything is decided and before the solver is asked. A clause that they make
// false is resolved with the clauses that forced its literals, each once, the newest first; so a log of as many lines as there are
// atoms ends with the empty clause.
//
// The trail is a data type (src/trail): each of its literals was decided, or was forced by a clause whose other literals are all
// false. It answers what a search asks of it, and for one literal goes through no other. What a log shows that a search wrote is said
// in specs/: each chain of resolvents begins at a clause that is false under a complete trail, backtracks along the trail, and stops
// at the first clause that holds one literal of the last decision level.
//
// The layer stands on `proof_lines`, `proof_kernel` and `theory_api`. What is promised of a solver of rows are the trait's laws, and
// nothing else is used. Definitions, in the order in which a reader needs them: specs/Trails (what is false, unit and settled under a
// trail, and when a list is a trail), specs/Fresh (each clause of a log is new), specs/SearchLogs (the logs of a search), specs/Forcing
// (what follows by forced literals alone), specs/Answers (what each answer promises); specs/Searching and specs/Outcomes are the
// search's own, and say where it stands between its private functions.
//
// In the field's words: a decision with what was forced after it is a decision level, and to cut
// whole levels off the trail after a conflict is backtracking.
//
// Decisions:
// - No condition on the problem or the budget is asked. The answer may be want of memory where a
//   row has no negation (its bound is 2^127 - 1), and beyond 2^32 clauses or atoms, which have no
//   numbers.
// - A row is decided by its truth where all numbers are 0, so that a row that nothing needs forces
//   no numbers beyond a range.
// - With budget 0 a problem with an empty clause is Unsat by an empty log; else Lines comes where a
//   first line is wanted.
// - The problem so far, the trail and the log are one value (`SearchState`). Who steps takes it by
//   `&mut`, and the log is taken out at the end (`take_log`): what a loop owns is gone through in a
//   proof at each of its returns.
// - The problem so far is a problem itself and no kernel: each line is proved to keep its rule.
// - A trail keeps the place of the oldest entry, by atom and sign. A literal is before the last
//   decision exactly where its place is below the number of entries that are kept then, so one
//   index serves all questions, also of a trail with an atom twice.
#![tactic(auto)]

/// The value of a call; where it fails, lets go of these values and ends with its error. Values that are let go by name are let go
/// once in a proof, and not once for each way out.
macro_rules! or_drop {
    ($call:expr; $($value:ident),*) => {
        match $call {
            Ok(value) => value,
            Err(error) => {
                $(drop($value);)*
                return Err(error);
            }
        }
    };
}

pub mod analyzing;
pub mod answer;
pub mod checking;
mod decisions;
pub mod finding;
pub mod growing;
mod places;
pub mod plain;
pub mod row_assignments;
pub mod state;
mod trail;

pub use answer::Answer;
pub use plain::solve_plain;
pub use state::SearchState;
pub use trail::{Entry, Trail};
