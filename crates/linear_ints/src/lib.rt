// Solvers of linear rows over whole numbers: by the elimination of Fourier and Motzkin, and guided by cutting planes before it.
//
// What it does. `elimination` takes the given rows and eliminates their places one after the other: each row that names a place says
// that the place is at most something, an upper row, or that it is at least something, a lower row, and from each pair of them it makes
// a row without the place. Then values are chosen, from the place that was eliminated last back to the first: for each, the lower rows
// give a lowest value, the upper rows a highest one, and it gets the number nearest to 0 between them.
//
// Why that is right. (1) Where elimination makes a row that contradicts itself, no whole numbers satisfy the given rows: Conflict.
// (2) Say that all rows that come after a place are true at the values chosen so far. The rows of the place then name no place without a
// value but that one, so each is a bound for it, a fraction. As the combination of an upper row u and a lower row l is true, the
// fraction of l is at most that of u. So over fractions there is always a value. Over whole numbers there is one unless the greatest
// ceiling of the lower fractions is above the least floor of the upper ones. Then both fractions of the two rows that give these lie
// strictly between one whole number and the next, and this is the gap of a Split. No given row says on which side of it the place is,
// for such a row would be among the upper or the lower ones. (3) Where there is no gap at any place, all held rows are true in the end,
// and so are the given ones: Model.
//
// Where it stops. Where elimination stops (Rows, Product); besides, a rest that leaves the range of a row is Sum, and a bound beyond the
// range of a state is Value (Range). Each answer has its certificate by construction.
//
// What it costs. Elimination, which makes nearly all of it; then each place takes one look at the rows that name it.
//
// A guide before it (src/solver). `cutting_planes` proposes numbers that satisfy all rows, or multiples of rows that contradict each
// other. What it proposes is tested by the rows themselves and by the rule of a Farkas line, and a conflict is trimmed. Where the test
// says no, or nothing is proposed, elimination answers. So a conflict and a model may come from the guide; a split and the reasons to
// stop come from elimination alone, with its certificates. All that an answer promises is proved of the tests.
//
// The layer stands on `theory_api`, whose trait it keeps, on `elimination`, in whose lists elimination leaves the rows of each place,
// and on `cutting_planes`, which proposes; all of them stand on `items`, `lin_rows` and `proof_lines`.
//
// Files, in the order in which a reader needs them: src/ceiling and src/bounds (what a row says of a value), src/descend (the values),
// src/eliminator (the solver by elimination), src/solver (the one that is guided).
// Definitions: specs/Stops (the reasons to stop), specs/Bounds and specs/Descending (what is known while values are chosen); the others
// are steps of the proofs.
//
// Decisions:
// - An upper row's floor is minus the ceiling of its opposite, clipped to the range of a state: one
//   function serves both sides, and no fractions are compared.
// - A place that no row names gets 0.
#![tactic(auto)]

pub mod bounds;
pub mod ceiling;
pub mod descend;
pub mod eliminator;
mod solver;

pub use eliminator::Eliminator;
pub use solver::{CuttingPlanes, tested};
