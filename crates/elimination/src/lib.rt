// The elimination of Fourier and Motzkin: linear rows over whole numbers, and the places taken out of them one after the other.
//
// What it does. Each given row is tightened (divided by the greatest common divisor of its coefficients, its bound rounded down) and
// held, unless an equal row is held. Then the places are eliminated one after the other. A row that names the place with a positive
// coefficient says that the place is at most something, an upper row; with a negative one it says that the place is at least something,
// a lower row. For each pair of an upper and a lower row the least multipliers in which the place cancels give a new row without it,
// tightened and held in its turn. The rows that name the place take no part from then on. At the end no row names a place that is not
// eliminated, and each combination of a pair is held, or names no place and contradicts nothing.
//
// Why that is right. Each new row follows from the two it is made of, and tightening keeps all whole points. So where a row without
// terms and with a negative bound is made, no whole numbers satisfy the given rows, and the steps so far are a Farkas line: a conflict,
// which is trimmed to the rows and steps that the contradiction rests on. Where none is made, `linear_ints` looks for values.
//
// Where it stops. Ten thousand rows are the most that it holds (Rows), and a combination may leave the range of a row (Product). Each
// stop has its certificate by construction. After a Product the elimination goes on without that combination, and a contradiction that
// it still comes to is a conflict; where it comes to none, the Product is the answer, with the steps up to it.
//
// What it costs. One place with m upper and n lower rows takes m * n steps, and so the next place with the fewest pairs is taken each
// time. The rows may grow doubly exponentially in the number of places; the limit of rows bounds this. `Held` is the list of the held
// rows, with three indexes beside it. Whether an equal row is held is asked of a map by fingerprints, numbers that equal rows share and
// different ones seldom. The rows of a place are found in a list of the place, so each term of a held row is met a few times in all. How
// many pairs a place has is counted as rows are held and as they are set aside. `Order` is the list of the eliminated places, with a flag
// for each place. Contracts see the lists alone. The next place is looked for among all that are left.
//
// The layer stands on `theory_api`, which says what the certificates of a solver are, and on `items`, `lin_rows` and `proof_lines`. It
// chooses no values.
//
// Files, in the order in which a reader needs them: src/naming and src/counts (the rows and the pairs of each place), src/held (the list
// of rows with its indexes), src/choosing (the place with the fewest pairs), src/order (the places in an order), src/places (the places
// that rows name); src/tableau and src/stop (the held rows with the eliminated places, and why a solver stops), src/take (the given
// rows), src/sides and src/steps (the rows of a place, and their pairs), src/eliminate (all places), src/trim (what a conflict rests
// on), src/leaving_out (going on without a combination).
// Definitions: specs/Places (which places a row names), specs/Naming (the index of the rows of a place), specs/Fingerprints (the number
// by which a row is looked up); specs/Pairs (when a pair is combined, and what holds when all places are eliminated), specs/Tableaux
// (what a tableau keeps), specs/Stops (the reasons to stop), specs/Sides (the rows of a place), specs/Needed (which combinations are
// held).
//
// Decisions:
// - The invariant of the tableau is the certificate itself, so an answer's evidence is never put
//   together afterwards. Evidence of a Split, of Rows and of Range stays whole; only a conflict is
//   trimmed.
// - While rows are taken and places eliminated, a stop can't be a gap, which keeps the number of
//   names out of those contracts. `Stop` has gaps for the solver above, so that it needs no reasons
//   of its own.
// - Which place is next is free in the proof. Only places that a row names are eliminated.
// - A combination beyond the range of a row is left out, and the way goes on for 10,000 pairs of rows
//   at most: rows of long numbers may be combined by the million, and few end in a contradiction.
// - Where the row under a fingerprint is another one, all rows are compared.
// - The index of a place may hold more numbers than it must: only that none is missing is kept, so
//   a failed addition leaves it sound. How many pairs a place has is in no clause, since it decides
//   only the order of elimination.
#![tactic(auto)]

mod choosing;
mod counts;
pub mod eliminate;
mod held;
pub mod leaving_out;
mod naming;
mod order;
mod places;
pub mod sides;
pub mod steps;
pub mod stop;
pub mod tableau;
pub mod take;
pub mod trim;

pub use eliminate::eliminate_all;
pub use held::Held;
pub use leaving_out::{Rest, conflict_past};
pub use order::{Order, prefix};
pub use places::named_places;
pub use sides::is_on_at;
pub use stop::Stop;
pub use tableau::Tableau;
pub use take::take_all;
pub use trim::{Conflict, conflict_in, trimmed};
