// Linear rows over whole numbers: a row says that a sum of coefficients times values is at most a bound.
//
// The layer is the arithmetic that the proof kernel and the theory solvers stand on: to make, tighten, add, combine and
// negate rows, and to test a point. All of it is exact: numbers lie in -(2^127 - 1) to 2^127 - 1, and a call whose
// products or sums leave that range says so. It stands on `items` alone. Definitions: specs/Rows (rows, points, negation,
// truth), specs/Divisors (tightening), specs/Sums (sums), specs/Multiples (sums where the multipliers are tested), specs/Cancelling (the
// least multipliers that cancel a place).
//
// Decisions:
// - A row's fields are private; contracts see its terms and its bound, so two rows are equal where
//   these are.
// - A sum of rows needs all its products and sums, of bounds too, and is out of range where any of
//   them is. The order of places matters only in `row_of` and `truth_at`; a place whose
//   coefficients add up to 0 on the way begins anew with its next one.
// - A multiplier may be 0, which drops that row. `sum_in` writes over the terms of a row that
//   nothing needs any more, so that a chain of sums seldom takes memory; what stood there shows in
//   no clause.
// - The test of a step's multipliers is in `sum_of_multiples_in`, so that a body which takes a
//   negative one is tried here and not over all of `line_rows`.
// - `truth_at` takes any 128-bit values. The least one is no number of a row, and a product with it
//   is out of range.
// - The least multipliers that cancel a place are quotients by the greatest common divisor; a law
//   says that no positive ones that cancel it are less.
#![tactic(auto)]

pub mod adding;
pub mod combining;
pub mod making;
pub mod multiples;
pub mod negation;
pub mod number;
pub mod refused;
pub mod row;
pub mod term;
mod terms;
pub mod tightening;
pub mod truth;

pub use adding::{sum, sum_in};
pub use combining::{Combined, combine, law_least_multipliers, least_factors};
pub use making::row_of;
pub use multiples::{MultiplesRefused, sum_of_multiples, sum_of_multiples_in};
pub use negation::negate;
pub use number::{add_product, plus, times};
pub use refused::RowRefused;
pub use row::{Row, same_row};
pub use term::RowTerm;
pub use tightening::{tighten, tighten_own};
pub use truth::truth_at;
