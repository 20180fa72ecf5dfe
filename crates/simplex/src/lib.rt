// The simplex method over exact fractions: do some rows have a common point, and if not, which multiples of them show it?
//
// Variables. Each row is a sum of terms, its slack, that is at most a bound; so the variables are the names, which are free, and the slacks.
// The tableau has an equation for each basic variable, which says what it is in terms of the variables that aren't basic; those are the
// columns. All equations together say no more and no less than that each slack is the sum of its row's terms. A slack that is a column is
// at its bound, and a name that is a column is 0, so the equations give the values of all variables: the vertex.
//
// Pivots. A basic slack beyond its bound is to fall. A column helps if the slack falls when the column's variable moves as it may: a name
// either way, a slack only down from its bound. Then the equation is solved for that variable and put into all others: the two have changed
// places, and the tableau says the same of the same points. Where no slack is beyond its bound, the vertex satisfies all rows.
//
// Why an end without a vertex is a refutation. Where no column helps, no name has a multiplier in the equation of the slack s: it reads
// d * s = the sum of n * t over columns t that are slacks, d positive and each n negative. Each t is at most its bound, so n * t is at
// least n times that bound, and the sum is at least d times the value that s has, which is beyond its bound. So the row of s, d times,
// and the rows of the t, -n times each, add up to a row without terms whose bound is negative. (By the lemma of Farkas these two ends are
// all there are.)
//
// Which variables change places. Of the slacks beyond their bounds the one is taken whose equation names the fewest columns, and of the
// columns that help a name before a slack, and the one that the fewest equations name. So few equations change, and a refutation
// rests on few rows.
//
// Why it ends. After a thousand pivots the least variable is taken each time, and then no tableau comes twice (Bland). Nobody has to
// believe this: there is a limit of pivots.
//
// Numbers. An equation has whole numerators over one positive denominator of its own, divided by what divides them all after each pivot. So
// nothing is rounded, and fractions are compared by products. The numbers of a tableau have one width, 64 or 128 bits (`Number`); where
// one has no room, nothing is answered. An equation keeps the value of its variable, so that no sum is made to see which slack is beyond.
//
// What it costs. A pivot takes as long as the equations that name its column are many, and the one that is put into them names columns;
// there are 2,000 pivots at most, and they look at a million numbers at most. Rows may join at any time, in terms of the columns as they are then, and the pivots go on from there.
//
// Nothing is promised of the answers but that they come: a caller tests them. The layer stands on `lin_rows`, for the terms of rows.
// Files, in the order in which a reader needs them: src/number (the widths of numbers), src/tableau (the equations), src/pivoting (the
// pivots), src/vertex (the values of the names).
//
// Decisions:
// - It knows nothing of cuts or of steps: a slack has the number of its row, and who asks makes
//   multipliers of an equation.
// - Which variables change places decides how many equations a pivot changes, and how many rows a
//   refutation rests on. With the least variable each time, the questions of two searches took three
//   and six times as many changes of equations, and their refutations had a half and a sixth more rows.
// - With 64 bits a product is one instruction, and they serve nearly always. Where one has no room,
//   who asks begins anew with 128.
#![tactic(auto)]

pub mod number;
mod pivoting;
mod tableau;
mod vertex;

pub use number::Number;
pub use pivoting::{Pivoted, solve};
pub use tableau::{Equation, Slack, Tableau, add_row, slack_of, start};
pub use vertex::{Vertex, numerator_at, vertex_of};
