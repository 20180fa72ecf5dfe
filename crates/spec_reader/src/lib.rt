// Reading specifications: words to a tree.
//
// Which trees there are, how they are spelled, which bytes are read as which tree and how far some
// spelling goes is defined in `spec_trees`; `specs/Refused.antt` says which place a refusal names.
// The code reads words into trees by the readers of `specs/Reading.antt`; `proofs/` shows that each
// of them is an exact part of the grammar, and that what is spelled is read. Each module reads a
// part of the grammar: `words`, `terms`, `formulas`, `sentences` (formulas with their variables),
// `lines` (of an operation), `item`, and `parsing` the whole.
//
// Decisions:
// - The place of a refusal is a number of words, for which no limit is asked. It is proved for
//   spellings whose names and numbers are words; no spelling with other names goes on further
//   either.
#![tactic(auto)]

mod formulas;
mod item;
mod laws;
mod lines;
mod parsing;
mod sentences;
mod terms;
mod words;

pub use laws::law_spelled_is_read;
pub use parsing::{SyntaxRefused, law_one_spelling, parse};
