// Smaller witnesses: what doesn't matter for a refutation is taken away, so that what is left shows what does.
//
// It stands on `obligation_list`, whose `breaks` judges each change and the end, so nothing rests on which changes are tried. `draft`
// has a witness as plain lists, and how large it is; `changes` makes a draft with a change, `reading` says which invariants a change
// may make false, and `refutation` tries it. Which drafts are tried is said by `elements`, `facts` and `numbers`, and their order by
// `shrinking`. The definition that contracts cite is in specs/Refuted.
//
// Decisions:
// - It is a crate of its own, since it needs nothing of the search or of reports.
// - A draft is smaller where it has fewer elements; of as many, fewer facts (true tuples, and values that aren't 0); of as many,
//   fewer numbers below 0; of as many, a lesser sum of its numbers without their signs. A number is a value of a counter, or a
//   whole-number argument. So a value below 0 is shown only where none above it was found that serves.
// - Only smaller drafts are tried, and one that refutes the obligation takes the place of the one before. So each one that is kept
//   comes nearer to an end; besides, no more than so many are tried for a refutation, whether they are kept or not.
// - Facts and numbers are changed where they stand, and changed back where that doesn't serve: most
//   of what is tried doesn't, and new values would cost as much as the test. The invariants that read
//   what changed are asked first, then the preconditions, and all of it only where these are true.
// - Four kinds of changes take turns until none of them changes anything.
//   1. Two elements of a sort become one, with the facts of both, of the one, of the other, or with no facts at all. An element
//      alone in its sort is taken away.
//   2. Facts are left out: all; those of a relation or a counter; those that name an element; one; two together.
//   3. A number becomes 0, or 1, 2 or its size where it was below 0, or comes nearer to 0 as far as halving the distance shows.
//      Where none does: three or more numbers of one size come nearer together; a value becomes 0 while another number becomes 0 or
//      changes by 1 or 2; an argument becomes 0 or 1 while all facts are left out; two numbers change by as much, both up, both
//      down, or one up and one down.
//   4. A fact becomes one of another relation or counter over the same sorts, at the same elements. That is no smaller, so changes
//      of kinds 2 and 3 follow, and all of it is kept only where the end is smaller.
#![tactic(auto)]

mod changes;
mod draft;
mod elements;
mod facts;
mod numbers;
mod reading;
mod refutation;
mod shrinking;

pub use shrinking::shrink;
