// The rows of a line of a log, and what they show: the rules that speak of rows alone.
//
// A line that names rows has those of its used literals, tightened, and those of its steps. The last may contradict itself (a Farkas
// line), two may leave room for one whole number (a Split line), or they show that there are too many rows, or a number beyond the
// range. What stands after such a line is the kernel's matter. The layer stands on `lin_rows` and `proof_lines`.
//
// Definitions, in the order in which a reader needs them: specs/Refusals (rules asked in order, and the first that is broken),
// specs/Steps (the rows of a line, and when they contradict one another), specs/Splits (the rule of a Split line), specs/Evidence (too
// many rows, and a number beyond the range), specs/Kept (which rows of a line are kept while it is taken).
//
// Decisions:
// - In a Split, and in the evidence of a number beyond the range, products and sums are those of
//   coefficients and values in rising order of names; the bound takes no part. A Farkas line
//   without steps needs its last used row to be the contradiction.
// - That p and q lie strictly between K and K + 1 is asked by products of whole numbers of any
//   size: K times the size of the coefficient is below the difference of rest and bound, and that
//   is below K + 1 times it. So no fraction is needed, and no rounding.
// - Two used literals may have rows that tighten to one row in a Farkas or Split line; in the
//   evidence of too many rows all rows differ.
#![tactic(auto)]

mod chain;
pub mod evidence;
pub mod kept;
pub mod kept_row;
pub mod splitting;
pub mod steps;
