// A solver of difference rows over whole numbers, by shortest walks (Bellman and Ford).
//
// What it does. A difference row says, once tightened, that one integer name is at most so far above another, or above or below 0: an
// edge between two places, where one place more than there are names stands for 0. Walks start at every place with the value 0. In a
// round each edge is looked at once, and where it leads to a lower value than the latest one of its end, that end gets a new visit. The
// rounds end when all edges are settled, or when a walk has more edges than there are names.
//
// Why that is right. (1) When all edges are settled, the value of each name less that of 0 satisfies every row: Model. No walk is shorter
// than the latest one of its end, since no edge leads to a lower value. Values are sums of at most as many bounds as there are places,
// and so lie in the range of a state, since only near bounds are taken. (2) A walk with
// more edges than there are names comes to some place twice, and with a lower value the second time. The edges between add up to a
// negative number, and the sum of their rows, one after the other with the multipliers 1 and 1, has no terms and that bound: Conflict.
// All coefficients on the way are 1, -1 or 0, so tightening changes nothing. (3) After k rounds each edge is settled or leads on from a
// walk of k edges at least; so the rounds end after as many as there are places.
//
// What it costs. At most as many rounds as there are places, each over all rows; a visit for each value that became lower. It never
// splits, and no rows are too many or too large for it. Want of memory may come, also for more rows than have numbers.
//
// The layer stands on `theory_api`, `proof_lines` and `lin_rows`. Definitions: specs/Differences (which rows and problems it takes),
// specs/Spans, specs/Edges and specs/Walks (rows as edges, and walks along them), specs/Cycles and specs/Values (what a conflict and a
// model are made of), specs/Distances (the shortest walks along rows, and how far values lie from 0). specs/States and specs/Fitting
// mirror the code.
//
// Decisions:
// - That a constant of a solver equals the member of its name is proved by each check of a solver;
//   a wrong body shows it.
#![tactic(auto)]

pub mod cycle;
pub mod edges;
pub mod fitting;
pub mod relaxing;
pub mod solver;
pub mod values;
pub mod walks;

pub use fitting::{fits, law_fits, takes};
pub use solver::DiffBounds;
