// What to answer of linear rows over whole numbers, by Gomory's cuts over the simplex method.
//
// What it does. The guide looks for numbers that satisfy all rows, or for multiples of rows that add up to a contradiction. Nothing is proved of
// it but that it is safe and ends: what it proposes is to be tested, and where it proposes nothing, another solver is to answer
// (`linear_ints` does both).
//
// Over fractions the simplex method decides (`simplex`): its vertex satisfies the rows that have joined its tableau, or an equation gives
// multipliers of a few rows that add up to a contradiction. These are written as steps of a Farkas line, row by row (src/combining).
//
// Rows join late. The tableau begins with no rows and the vertex 0. Of the rows that a vertex breaks, the ten that it is farthest from join,
// and the pivots go on from there. Of thousands of rows a few dozen ever join; and coefficients near 10^9 would have no room in a tableau of
// all rows where a few of them decide.
//
// From fractions to whole numbers. A vertex is rounded, to the nearest numbers, down, and up; if that breaks rows, some moves of one
// name at a time may mend it. Else the vertex is cut off. The multiples by which a cut is made follow from the equation of a name whose
// value isn't whole. They are steps of a Farkas line like any others, for tightening is what rounds (src/cuts says why). So parity,
// coins and thin slabs are decided without a split. A name that the vertex puts beyond the numbers of a state gets a bound there; what
// rests on such a bound is no proposal, since it wasn't given.
//
// What it costs. Few rows join, so much of the time goes into reading the rows once for each vertex. They are read in narrow numbers,
// one row behind the other, where all have room there (src/narrow), and a row that is tight already isn't copied. The tableau has numbers
// of 64 bits, and all is done once more in 128 where one has no room. 15 times cuts are made, up to two at a time.
//
// Equations and thin slabs. Where this decides nothing, the equations among the rows are taken out (`whole_lattice`), and the same is asked
// of the rest in the coordinates of short vectors (src/reformed says how an answer is put back). Where cuts come to no end there either, a
// search through faces gives the coordinates values one after the other, and comes out as a line without a split (src/faces).
//
// The layer stands on `simplex` and `whole_lattice`, and on `lin_rows` and `proof_lines`, whose rows and steps it makes.
// Files, in the order in which a reader needs them: src/listing, src/worst and src/narrow (the rows), src/combining (sums of multiples as steps),
// src/rounding and src/repairing (whole numbers near a vertex), src/joining (rows that join late), src/cuts, src/faces, src/pairs and
// src/system (rows that stand against each other), src/reformed, src/guide (what is proposed).
//
// Decisions:
// - The tableau has no proved invariant: a wrong one would cost answers and prove nothing.
// - Rows are a plain list with a table of the given ones, and not those of `elimination`: the rows
//   of a name are asked for only where it is moved, and pairs never.
// - A contradiction may be a partial sum. Rows after it are never made, and those that it doesn't
//   rest on are trimmed away.
// - A vertex whose values are whole satisfies all rows, so its values are proposed without a look
//   at the rows.
// - The kernel's Split is on one name, and the coordinates of short vectors are sums of many: a search
//   that splits there gives no log. The search through faces needs none, as each empty face gives a
//   row of the line.
// - Only what fits is tried with short vectors: 48 names and 600 rows; for faces 16 vectors, 120
//   rows, 400 vertices and two million numbers. What is larger is left to cuts and elimination.
#![tactic(auto)]

mod combining;
mod cuts;
mod faces;
mod guide;
mod joining;
mod listing;
mod narrow;
mod pairs;
mod reformed;
mod repairing;
mod rounding;
mod system;
mod worst;

pub use guide::{Proposal, propose};
