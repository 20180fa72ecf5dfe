// Unit propagation by watched literals: what stands in the way of a decision, without a look at all clauses.
//
// Each clause watches two of its literals, and for each literal there is the list of the clauses that watch it. A clause is at rest
// where one of the two is true, or where they are two and neither is false; then it is neither false nor unit.
//
// Why no unit clause is missed. When a literal is taken to be true, its opposite becomes false, and the clauses that watch that
// opposite are looked at, each once, before anything else is done. One that doesn't watch it is as much at rest, or as open, as it was:
// a true literal stays true, and neither of its two literals became false. One that watches it and isn't at rest by its other literal
// watches another literal that isn't false in place of it. Where there is none, it goes on watching the false one: it is unit and is
// noted, or it is false and is a conflict, which is met at once. So between steps each clause is at rest, or isn't false and waits among
// those that may be unit; where none waits, all are at rest, and the trail is settled.
//
// Why watches stay when the trail is cut back. A decision is taken only where all clauses are at rest. From then on each clause
// remains at rest under the trail before that decision, whatever it watches later: a literal is given up only where it isn't true, and
// for one that isn't false, so the new one wasn't false before the decision either, while the other of the two stays. The trail is cut
// back to where it stood before a decision. There all clauses are at rest by the literals that they watch now, none is unit, and
// nothing is to be done for them. Those that the chain gave watch from then on: two literals that aren't false, or where there is one
// alone, that one and another that was falsified at the last level that is left. A chain leaves two such literals in each of its
// clauses, as far as a decision is left. So these, too, are at rest under each trail before a decision, and only these may be unit.
// Backtracking, by however many decision levels, so costs nothing for the clauses that watch already.
//
// Where a false clause is met while a list is gone through, what is left of the list goes back to its place, since watches have to last.
// So a conflict costs what its chain and its further clauses take, and the others aren't looked at.
//
// The layer stands on `sat_core`, whose contract of `find` its own has word for word, on `sat_core` and on `items`. Definitions, in
// the order in which a reader needs them: specs/Watches (clauses at rest, what is watched), specs/Ready (where the watched literals stand
// between the steps of a search).
//
// Decisions:
// - A clause that is found unit is noted, and its literal goes on the trail when no clause is left
//   to be looked at: a chain needs that no clause was false before the newest literal.
// - `find` and what keeps the watches are apart from the search, whose steps know no list of
//   clauses.
// - The first six clauses of a literal are in its list itself (`items`), since most literals
//   are watched by fewer.
#![tactic(auto)]

mod lists;
pub mod looking;
pub mod propagation;
pub mod watches;

pub use propagation::Propagation;
