// The whole numbers that satisfy equations, as a point and a short basis of the lattice by which they differ.
//
// Rows with many equations among them are hard for cuts: a vertex has denominators of many digits, and few of the points near it are whole.
// So the equations are taken out first, exactly. The whole points that satisfy those taken so far are one point and the sums of whole
// multiples of some vectors. A further equation says what such a sum is to be at it: Euclid's steps between the vectors leave one of them
// at which the equation has a value, the greatest common divisor of all; where it divides what the point lacks, the point moves along this
// vector, which is settled from then on, and the equation holds everywhere. Where it doesn't, no whole numbers satisfy the equations, and
// the settled vectors give the multiples of them that show it (src/multiples).
//
// The vectors are made short all along (src/reducing, by Lenstra, Lenstra and Lovász), so that numbers stay small, and the point is moved
// near to a wanted one (Babai's nearest plane). A vector has further places behind those of the names, for the values of sums that are
// to stay between near bounds: what is short there as well moves along thin slabs and not across them. In the coordinates of the short
// vectors the numbers that satisfy some rows are as round as they can be, so that a vertex is near whole points, and cuts are deep.
//
// Nothing is promised but that answers come: all that is made of them is tested. Sums are exact, in 128 bits; what is too large for them
// isn't answered, and neither is what takes too many steps, which are counted. Only which whole multiples are taken is judged by
// fractions in floating point.
//
// The layer stands on `simplex`, for its helpers of whole numbers.
// Files, in the order in which a reader needs them: src/vectors (lists of vectors), src/reducing (short vectors, near points),
// src/lattice (equations taken out), src/multiples (which multiples of equations show what follows from them).
//
// Decisions:
// - Which whole multiples make vectors short is judged in floating point, in operations that round
//   alike on every machine. The multiples themselves are taken exactly, so a bad judgement costs an
//   answer and makes no wrong one.
// - An equation with a coefficient 1 or -1 at some vector is taken first, without making vectors
//   short: a system has many that say that a counter changed by a number.
// - All is counted: 400,000 numbers are looked at for one question at most.
#![tactic(auto)]

mod lattice;
mod multiples;
mod reducing;
mod vectors;

pub use lattice::{Lattice, Taken};
pub use multiples::{Multiples, multiples_for};
pub use vectors::{Vectors, dot};
